// The cells of the two stacks and the bytes of the record: their places, and copying and moving bytes between them.
#![tactic(auto)]

pub mod copying;
pub mod moving;
pub mod places;
