// The same numbers as counts, in which words are put together and places computed. One set would not do: code words are
// u32 and matched by these numbers, what words are made of is usize, and a pattern can't hold a conversion.
pub const OPERAND: usize = crate::OPERAND as usize;

pub const FIRST: usize = crate::FIRST as usize;

pub const THIRD: usize = crate::THIRD as usize;

pub const LOOK: usize = crate::LOOK as usize;

pub const COMPARE: usize = crate::COMPARE as usize;

pub const PREDICATE: usize = crate::PREDICATE as usize;

pub const PREDICATE_PART: usize = crate::PREDICATE_PART as usize;

pub const STORE: usize = crate::STORE as usize;

pub const GO: usize = crate::GO as usize;

pub const SELECT: usize = crate::SELECT as usize;

pub const OUT: usize = crate::OUT as usize;

pub const OUT_C: usize = crate::OUT_C as usize;

pub const OUT_V: usize = crate::OUT_V as usize;

pub const BEGIN_SEQ: usize = crate::BEGIN_SEQ as usize;

pub const USE_SEQ: usize = crate::USE_SEQ as usize;

pub const CALL: usize = crate::CALL as usize;

pub const TAIL_CALL: usize = crate::TAIL_CALL as usize;

pub const EMISSION: usize = crate::EMISSION as usize;

pub const COMPUTE: usize = crate::COMPUTE as usize;

pub const ACTIONS_END: usize = crate::ACTIONS_END as usize;

pub const EXACTLY: usize = crate::EXACTLY as usize;

pub const ENDS: usize = crate::ENDS as usize;

pub const MIDDLE: usize = crate::MIDDLE as usize;

pub const SENTENCES_END: usize = crate::SENTENCES_END as usize;

pub const FROM_START: usize = crate::FROM_START as usize;

pub const FROM_END: usize = crate::FROM_END as usize;

pub const FROM_PLACE: usize = crate::FROM_PLACE as usize;

pub const REGISTERS: usize = crate::REGISTERS as usize;

pub const SECOND_REGISTER: usize = crate::SECOND_REGISTER as usize;

pub const TRUTH: usize = crate::TRUTH as usize;

pub const PART_TRUTH: usize = crate::PART_TRUTH as usize;

pub const PART_CLASS: usize = crate::PART_CLASS as usize;

pub const NULL: usize = crate::NULL as usize;

pub const WHOLE: usize = crate::WHOLE as usize;

pub const LEFT: usize = crate::LEFT as usize;

pub const RIGHT: usize = crate::RIGHT as usize;

pub const PLUS: usize = crate::PLUS as usize;

pub const MINUS: usize = crate::MINUS as usize;

pub const MAX_STORED: usize = crate::MAX_STORED as usize;

// How many words a sentence has before its tests.
pub const SENTENCE_HEAD: usize = 2;
