// The code words of a sentence's right side, action by action: spans of the field, and what follows a call's argument.
#![tactic(auto)]

pub mod spans;
pub mod words;
