// The limits of tables: 01's, by the names of meaning's Allowed.

// The bytes of a table text, and so the words of its tape.
pub const MAX_TABLE: usize = 32768;

pub const MAX_FUNCTIONS: usize = 64;

// In the whole table.
pub const MAX_SENTENCES: usize = 512;

// The bytes of a function's name.
pub const MAX_NAME: usize = 24;

// The bytes of a variable's identifier.
pub const MAX_IDENTIFIER: usize = 8;

// The characters and s-variables of a pattern.
pub const MAX_LETTERS: usize = 64;

// The different s-variables of a pattern.
pub const MAX_SYMBOLS: usize = 16;

// The conditions of a sentence.
pub const MAX_CONDITIONS: usize = 8;

// The items of an expression, with those of its calls' arguments.
pub const MAX_ITEMS: usize = 128;

// The calls that stand one in another.
pub const MAX_NESTING: usize = 16;
