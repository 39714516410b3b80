// Where an e-variable's part begins, and where what follows it begins.
ghost use Rattle.std.specs.Prelude.{◌≡◌, ◌%◌, ◌≤◌, ◌<◌, ◌^◌};
ghost use Rattle.meaning.specs.Allowed.{max_letters};
ghost use Rattle.meaning.specs.Instructions.{from_start, from_end, from_place};
ghost use Rattle.meaning.specs.Packing.{test_word};
ghost use Rattle.meaning.specs.Translation.{part_test};
ghost use Rattle.tape_layout.specs.Tape.{class_count, kind_width};
ghost use Rattle.tape_words.specs.Words.{class_in};
ghost use Rattle.code_patterns.specs.Testing.{site_meant, site_in, total, expected_in};
ghost use Rattle.code_patterns.specs.Conditioning.{bounds_meant, bounds_by};

use crate::pattern::Lengths;
use crate::sites::{Register, Site};
use code_numbers::wide::{PART_CLASS, PART_TRUTH, PREDICATE_PART, REGISTERS};
use code_words::word;
use tape_words::tape::Parts;
use tape_words::wide::{CLASS_COUNT, CONDITION_TRUTH};

// The part's first cell, and the first after it.
#[derive(Clone, Copy)]
pub struct PartBounds {
    pub from: Site,
    pub to: Site,
}

impl PartBounds {
    // The test of the class and truth value that a condition's word carries.
    pub fn predicate_word(self, carried: usize) -> usize
        requires { carried < kind_width }
        ensures { (result ≡ test_word (part_test (bounds_meant self) (class_in (carried % class_count))
            (expected_in carried))) × (result < 2 ^ 32) }
    {
        let registers = self.from.register_number() + REGISTERS * self.to.register_number();
        let truth = carried / CONDITION_TRUTH % 2;
        let class = carried % CLASS_COUNT;
        word(
            PREDICATE_PART,
            registers + PART_TRUTH * truth + PART_CLASS * class,
            self.from.offset as usize,
            self.to.offset as usize,
        )
    }
}

fn cell(register: Register, offset: usize) -> Site
    requires { offset ≤ max_letters }
    ensures { site_meant result ≡ site_in register offset }
{
    Site {
        register,
        offset: offset as u8,
    }
}

// `first` says whether it is the pattern's first: a `bool`, since it is what a comparison of two names answers.
pub fn part_bounds(lengths: Lengths, first: bool) -> PartBounds
    requires { total lengths ≤ max_letters }
    ensures { bounds_meant result ≡ bounds_by lengths.parts lengths first }
{
    match lengths.parts {
        Parts::Zero => PartBounds {
            from: cell(Register::Start, 0),
            to: cell(Register::Start, 0),
        },
        Parts::One => PartBounds {
            from: cell(Register::Start, lengths.first),
            to: cell(Register::End, lengths.second),
        },
        Parts::Two if first => PartBounds {
            from: cell(Register::Start, lengths.first),
            to: cell(Register::Place, 0),
        },
        Parts::Two => PartBounds {
            from: cell(Register::Place, lengths.second),
            to: cell(Register::End, lengths.third),
        },
    }
}
