// The tape of a table: its kinds of words and limits by name, word by word, and the names on it.
#![tactic(auto)]

pub mod kinds;
pub mod limits;
pub mod names;
pub mod tape;
pub mod wide;
