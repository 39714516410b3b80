// The bookkeeping of every reader of a table text: the names that it has met, the words on the tape, and how far it has
// come.
#![tactic(auto)]

pub mod names;
pub mod progress;
pub mod variables;
pub mod writing;
