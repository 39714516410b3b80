// What an angle call computes.
ghost use Rattle.std.specs.Prelude.{◌≡◌};
ghost use Rattle.meaning.specs.Packing.{operation_number};
ghost use Rattle.code_numbers.specs.Operations.{operation_meant};

use crate::{MINUS, PLUS};

// The sum of two angles, or their difference.
#[derive(Clone, Copy, PartialEq, Eq)]
pub enum Operation {
    Plus,
    Minus,
}

impl Operation {
    // The number that the operation has in a word.
    pub fn number(self) -> u32
        ensures { result ≡ operation_number (operation_meant self) }
    {
        match self {
            Operation::Plus => PLUS,
            Operation::Minus => MINUS,
        }
    }
}
