// A sentence's right side as code: the actions of its expression.
#![tactic(auto)]

pub mod expression;
