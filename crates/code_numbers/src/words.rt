// A code word: its number, and its three operands below OPERAND.
ghost use Rattle.std.specs.Prelude.{◌≡◌, ◌/◌};
ghost use Rattle.meaning.specs.Packing.{number_in, first_in, second_in, third_in};
ghost use Rattle.code_numbers.specs.Numbers.{first};

use crate::{FIRST, OPERAND, SECOND, THIRD};

#[derive(Clone, Copy, PartialEq, Eq)]
pub struct CodeWord(pub u32);

impl CodeWord {
    #[inline]
    pub fn number(self) -> u32
        ensures { result ≡ number_in self.0 }
    {
        self.0 % OPERAND
    }

    #[inline]
    pub fn first(self) -> u32
        ensures { result ≡ first_in self.0 }
    {
        self.0 / FIRST % OPERAND
    }

    #[inline]
    pub fn second(self) -> u32
        ensures { result ≡ second_in self.0 }
    {
        self.0 / SECOND % OPERAND
    }

    #[inline]
    pub fn third(self) -> u32
        ensures { result ≡ third_in self.0 }
    {
        self.0 / THIRD % OPERAND
    }

    // All three operands as one number, as a function's number stands in a call.
    #[inline]
    pub fn operands(self) -> u32
        ensures { result ≡ self.0 / first }
    {
        self.0 / FIRST
    }
}
