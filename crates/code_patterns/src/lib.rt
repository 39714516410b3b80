// A sentence's left side as code: the tests of its templates, the stores, and the conditions.
#![tactic(auto)]

mod bounds;
pub mod conditions;
pub mod pattern;
pub mod sites;
pub mod symbols;
pub mod tests;
