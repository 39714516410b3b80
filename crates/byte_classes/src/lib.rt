// The byte classes: one constant table of 256 entries, a bit for each class, for conditions; and the tests of single
// bytes, for reading.
#![tactic(auto)]

ghost use Rattle.std.specs.Prelude.{◌≡◌};
ghost use Rattle.meaning.specs.Classes.{in_class, class_number, digit, alphabetic, is_blank_byte};
ghost use Rattle.meaning.specs.Packing.{class_of};
ghost use Rattle.meaning.specs.Allowed.{word_byte, name_byte};
ghost use Rattle.byte_classes.specs.Tests.{Answers};
ghost use Rattle.byte_classes.specs.Classed.{class_meant, class_found};

// How many bytes there are.
pub const BYTE_COUNT: usize = 256;

// The classes that a condition asks for, in the order of their numbers.
#[derive(Clone, Copy, PartialEq, Eq)]
pub enum Class {
    Digit,
    Upper,
    Lower,
    Letter,
    Blank,
}

impl Class {
    // The class of a number in the code, if there is one.
    pub fn from_number(number: u32) -> Option<Class>
        ensures { class_found result ≡ class_of number }
    {
        match number {
            0 => Some(Class::Digit),
            1 => Some(Class::Upper),
            2 => Some(Class::Lower),
            3 => Some(Class::Letter),
            4 => Some(Class::Blank),
            _ => None,
        }
    }

    // A class's number in the code, and its bit in the table.
    pub fn number(self) -> usize
        ensures { result ≡ class_number (class_meant self) }
    {
        self as usize
    }
}

// Bits 0 to 4: IsDigit, IsUpper, IsLower, IsLetter, IsBlank.
const CLASSES: [u8; BYTE_COUNT] = [
    0, 0, 0, 0, 0, 0, 0, 0, 0, 16, // 9, tab
    16, // 10, line end
    0, // 11, vertical tab
    0, 16, // 13, return
    0, 0, 0, 0, 0, 0, 0, 0, 0, 0, 0, 0, 0, 0, 0, 0, 0, 0, 16, // 32, blank
    0, 0, 0, 0, 0, 0, 0, 0, 0, 0, 0, 0, 0, 0, 0, 1, // 48, the first digit
    1, 1, 1, 1, 1, 1, 1, 1, 1, // 57, the last digit
    0, 0, 0, 0, 0, 0, 0, 10, // 65, `A`
    10, 10, 10, 10, 10, 10, 10, 10, 10, 10, 10, 10, 10, 10, 10, 10, 10, 10, 10, 10, 10, 10, 10, 10,
    10, // 90, `Z`
    0, 0, 0, 0, 0, 0, 12, // 97, `a`
    12, 12, 12, 12, 12, 12, 12, 12, 12, 12, 12, 12, 12, 12, 12, 12, 12, 12, 12, 12, 12, 12, 12, 12,
    12, // 122, `z`
    0, 0, 0, 0, 0, 0, 0, 0, 0, 0, 0, 0, 0, 0, 0, 0, 0, 0, 0, 0, 0, 0, 0, 0, 0, 0, 0, 0, 0, 0, 0, 0,
    0, 0, 0, 0, 0, 0, 0, 0, 0, 0, 0, 0, 0, 0, 0, 0, 0, 0, 0, 0, 0, 0, 0, 0, 0, 0, 0, 0, 0, 0, 0, 0,
    0, 0, 0, 0, 0, 0, 0, 0, 0, 0, 0, 0, 0, 0, 0, 0, 0, 0, 0, 0, 0, 0, 0, 0, 0, 0, 0, 0, 0, 0, 0, 0,
    0, 0, 0, 0, 0, 0, 0, 0, 0, 0, 0, 0, 0, 0, 0, 0, 0, 0, 0, 0, 0, 0, 0, 0, 0, 0, 0, 0, 0, 0, 0, 0,
    0, 0, 0, 0, 0,
];

// The classes of all bytes, for a caller that asks of many: naming the constant builds it anew each time.
#[derive(Drop)]
pub struct ClassTable {
    bits: [u8; BYTE_COUNT],
    ghost answers: { Answers bits },
}

impl ClassTable {
    // The table of this engine.
    pub fn new() -> Self {
        ClassTable { bits: CLASSES }
    }

    // Another table that answers the same.
    pub fn of(bits: [u8; BYTE_COUNT]) -> Self
        requires { Answers bits }
        ensures { result.bits ≡ bits }
    {
        ClassTable { bits }
    }

    // Whether a byte is in a class.
    pub fn passes(&self, byte: u8, class: Class) -> bool
        ensures { result ≡ in_class (class_meant class) byte }
    {
        (self.bits[byte as usize] >> class.number()) % 2 == 1
    }
}

pub fn is_digit(byte: u8) -> bool
    ensures { result ≡ in_class digit byte }
{
    matches!(byte, b'0'..=b'9')
}

pub fn is_letter(byte: u8) -> bool
    ensures { result ≡ in_class alphabetic byte }
{
    matches!(byte, b'A'..=b'Z' | b'a'..=b'z')
}

// Letters and digits.
pub fn is_word_byte(byte: u8) -> bool
    ensures { result ≡ word_byte byte }
{
    is_letter(byte) || is_digit(byte)
}

// What a function's name has after its first letter.
pub fn is_name_byte(byte: u8) -> bool
    ensures { result ≡ name_byte byte }
{
    is_word_byte(byte) || matches!(byte, b'_' | b'-')
}

// The blanks between tokens.
pub fn is_blank(byte: u8) -> bool
    ensures { result ≡ is_blank_byte byte }
{
    matches!(byte, b' ' | b'\t' | b'\n' | b'\r')
}
