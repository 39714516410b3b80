// The numbers of the code's words, as docs/CODE.md has them: of instructions, registers, lengths and operations, and
// what each operand of a word counts. Here they are as a word has them; `wide` has them as counts. Code may be
// anything, so a word's number is matched where it is read, and these are constants and no enum.
#![tactic(auto)]

pub mod operations;
pub mod wide;
pub mod words;

// A word is its number, and its three operands below OPERAND: one of the first counts FIRST, and so on.
pub const OPERAND: u32 = 256;

pub const FIRST: u32 = OPERAND;

pub const SECOND: u32 = FIRST * OPERAND;

pub const THIRD: u32 = SECOND * OPERAND;

// Tests.
pub const LOOK: u32 = 1;

pub const COMPARE: u32 = 2;

pub const PREDICATE: u32 = 3;

pub const PREDICATE_PART: u32 = 20;

// Stores.
pub const STORE: u32 = 4;

// Actions, and their end.
pub const GO: u32 = 5;

pub const SELECT: u32 = 6;

pub const OUT: u32 = 7;

pub const OUT_C: u32 = 8;

pub const OUT_V: u32 = 9;

pub const BEGIN_SEQ: u32 = 10;

pub const USE_SEQ: u32 = 11;

pub const CALL: u32 = 12;

pub const TAIL_CALL: u32 = 13;

pub const EMISSION: u32 = 14;

pub const COMPUTE: u32 = 21;

pub const ACTIONS_END: u32 = 15;

// A sentence's first word, and the end of the sentences.
pub const EXACTLY: u32 = 16;

pub const ENDS: u32 = 17;

pub const MIDDLE: u32 = 18;

pub const SENTENCES_END: u32 = 19;

// Registers that a cell is counted from. Where one operand has two of them, one of the second counts REGISTERS.
pub const FROM_START: u32 = 0;

pub const FROM_END: u32 = 1;

pub const FROM_PLACE: u32 = 2;

pub const REGISTERS: u32 = 4;

// Look at a cell counted from p, and at one counted from the middle template's place, without offset and byte.
pub const LOOK_FROM_START: u32 = LOOK + FIRST * FROM_START;

pub const LOOK_FROM_PLACE: u32 = LOOK + FIRST * FROM_PLACE;

// In a word: what the second register of COMPARE counts, and the truth value of PREDICATE.
pub const SECOND_REGISTER: u32 = FIRST * REGISTERS;

pub const TRUTH: u32 = FIRST * REGISTERS;

// In the first operand of PREDICATE_PART, after its two registers: what the truth value and the class count.
pub const PART_TRUTH: u32 = REGISTERS * REGISTERS;

pub const PART_CLASS: u32 = 2 * PART_TRUTH;

// Lengths of the field.
pub const NULL: u32 = 0;

pub const WHOLE: u32 = 1;

pub const LEFT: u32 = 2;

pub const RIGHT: u32 = 3;

// Operations on angles.
pub const PLUS: u32 = 0;

pub const MINUS: u32 = 1;

// The most values that an application stores.
pub const MAX_STORED: u32 = 16;
