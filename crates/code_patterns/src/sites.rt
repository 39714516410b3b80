// The cells that a pattern is tested at, and the words of tests and stores that name them.
ghost use Rattle.std.specs.Prelude.{◌≡◌, ◌-◌, ◌%◌, ◌/◌, ◌≤◌, ◌<◌, ◌^◌, eqb};
ghost use Rattle.meaning.specs.Allowed.{max_letters};
ghost use Rattle.meaning.specs.Instructions.{look, compare, predicate, store, from_start, from_end};
ghost use Rattle.meaning.specs.Packing.{test_word, store_word, site_register};
ghost use Rattle.tape_layout.specs.Tape.{class_count, condition_truth, kind_width};
ghost use Rattle.tape_words.specs.Words.{class_in};
ghost use Rattle.code_patterns.specs.Testing.{site_meant, last_of, site_at, total, expected_in};

use crate::pattern::Lengths;
use code_numbers::wide::{
    COMPARE, FROM_END, FROM_PLACE, FROM_START, LOOK, PREDICATE, REGISTERS, STORE,
};
use code_words::word;
use tape_words::tape::Parts;
use tape_words::wide::{CLASS_COUNT, CONDITION_TRUTH};

// What a cell is counted from.
#[derive(Clone, Copy)]
pub enum Register {
    Start,
    End,
    Place,
}

// A cell, which a word's operand names by its register and the offset from it.
#[derive(Clone, Copy)]
pub struct Site {
    pub register: Register,
    pub offset: u8,
}

impl Site {
    // The cell at p itself.
    pub fn start() -> Site
        ensures { site_meant result ≡ from_start 0 }
    {
        Site {
            register: Register::Start,
            offset: 0,
        }
    }

    // The number of its register.
    pub fn register_number(self) -> usize
        ensures { result ≡ site_register (site_meant self) }
    {
        match self.register {
            Register::Start => FROM_START,
            Register::End => FROM_END,
            Register::Place => FROM_PLACE,
        }
    }

    pub fn look_word(self, byte: usize) -> usize
        requires { byte < 256 }
        ensures { (result ≡ test_word (look (site_meant self) byte)) × (result < 2 ^ 32) }
    {
        word(LOOK, self.register_number(), self.offset as usize, byte)
    }

    pub fn compare_word(self, other: Site) -> usize
        ensures { (result ≡ test_word (compare (site_meant self) (site_meant other))) × (result < 2 ^ 32) }
    {
        let registers = self.register_number() + REGISTERS * other.register_number();
        word(
            COMPARE,
            registers,
            self.offset as usize,
            other.offset as usize,
        )
    }

    // The test of the class and truth value that a condition's word carries.
    pub fn predicate_word(self, carried: usize) -> usize
        requires { carried < kind_width }
        ensures { (result ≡ test_word (predicate (site_meant self) (class_in (carried % class_count))
            (expected_in carried))) × (result < 2 ^ 32) }
    {
        let truth = carried / CONDITION_TRUTH % 2;
        word(
            PREDICATE,
            self.register_number() + REGISTERS * truth,
            self.offset as usize,
            carried % CLASS_COUNT,
        )
    }

    pub fn store_word(self) -> usize
        ensures { (result ≡ store_word (store (site_meant self))) × (result < 2 ^ 32) }
    {
        word(STORE, self.register_number(), self.offset as usize, 0)
    }
}

fn last(lengths: Lengths) -> usize
    ensures { result ≡ last_of lengths.parts lengths }
{
    match lengths.parts {
        Parts::Zero => lengths.first,
        Parts::One => lengths.second,
        Parts::Two => lengths.third,
    }
}

fn from_end(lengths: Lengths, offset: usize) -> Site
    requires { total lengths ≤ max_letters }
    ensures { site_meant result ≡ from_end (last_of lengths.parts lengths - offset) }
{
    Site {
        register: Register::End,
        offset: last(lengths).saturating_sub(offset) as u8,
    }
}

// The cell of a template's letter: `template` is how many e-variables come before it.
pub fn site_of(lengths: Lengths, template: Parts, offset: usize) -> Site
    requires { (total lengths ≤ max_letters) × (offset ≤ max_letters) }
    ensures { site_meant result ≡ site_at lengths template offset }
{
    match (template, lengths.parts) {
        (Parts::Zero, _) => Site {
            register: Register::Start,
            offset: offset as u8,
        },
        (Parts::One, Parts::Two) => Site {
            register: Register::Place,
            offset: offset as u8,
        },
        _ => from_end(lengths, offset),
    }
}
