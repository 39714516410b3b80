// The kinds of the tape's words, as they stand on it. A word is its kind times KIND_WIDTH, and what it carries, which
// is below that; a character is its byte. `wide` has the same numbers as counts. A kind is no enum: a call's counts on
// by the place of its name, and the tape's fixed memory has one u32 for a kind and what it carries.
pub const KIND_WIDTH: u32 = 256;

pub const SYMBOL_KIND: u32 = 1;

pub const PART_KIND: u32 = 2;

pub const CONDITION_KIND: u32 = 3;

pub const EQUALS_KIND: u32 = 4;

pub const CLOSE_KIND: u32 = 5;

pub const NEXT_KIND: u32 = 6;

pub const END_KIND: u32 = 7;

pub const FUNCTION_KIND: u32 = 8;

// A call's kind is this and the place of its name.
pub const CALL_KIND: u32 = 9;

// The words of the kinds that carry nothing.
pub const EQUALS_WORD: u32 = EQUALS_KIND * KIND_WIDTH;

pub const CLOSE_WORD: u32 = CLOSE_KIND * KIND_WIDTH;

pub const NEXT_WORD: u32 = NEXT_KIND * KIND_WIDTH;

pub const END_WORD: u32 = END_KIND * KIND_WIDTH;
