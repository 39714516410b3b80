// The kinds of the tape's words as counts: the first word of each kind, and what a condition's word carries. What is
// read of the tape indexes buffers and is a usize; what is written on it is a u32, of `kinds`: one set of either type
// would need a conversion at each use.
use crate::kinds;

pub const KIND_WIDTH: usize = kinds::KIND_WIDTH as usize;

// A call's kind is this and the place of its name.
pub const CALL_KIND: usize = kinds::CALL_KIND as usize;

pub const SYMBOL_WORD: usize = kinds::SYMBOL_KIND as usize * KIND_WIDTH;

pub const PART_WORD: usize = kinds::PART_KIND as usize * KIND_WIDTH;

pub const CONDITION_WORD: usize = kinds::CONDITION_KIND as usize * KIND_WIDTH;

pub const CLOSE_WORD: usize = kinds::CLOSE_KIND as usize * KIND_WIDTH;

pub const NEXT_WORD: usize = kinds::NEXT_KIND as usize * KIND_WIDTH;

pub const FUNCTION_WORD: usize = kinds::FUNCTION_KIND as usize * KIND_WIDTH;

pub const CALL_WORD: usize = CALL_KIND * KIND_WIDTH;

// A condition's word carries its class, a number below CLASS_COUNT; CONDITION_TRUTH besides if 'T' is expected,
// CONDITION_PART if its variable is an e-variable, and CONDITION_SIZE for each byte of that variable's identifier.
pub const DIGIT: usize = 0;

pub const UPPER: usize = 1;

pub const LOWER: usize = 2;

pub const ALPHABETIC: usize = 3;

pub const CLASS_COUNT: usize = 5;

pub const CONDITION_TRUTH: usize = CLASS_COUNT;

pub const CONDITION_PART: usize = 2 * CONDITION_TRUTH;

pub const CONDITION_SIZE: usize = 2 * CONDITION_PART;
