// The actions of the machine: what each instruction of the Process part does to registers, cells, frames and record.
#![tactic(auto)]

pub mod computing;
pub mod emitting;
pub mod frames;
pub mod moving;
pub mod registers;
