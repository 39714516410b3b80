// What one test says at a range of places, before any of them is searched.
#![tactic(auto)]

ghost use Rattle.std.specs.Prelude.{◌+◌, ◌≤◌, ◌<◌, ◌%◌, ◌/◌, ◌^◌, ◌≡◌, length, get_or};
ghost use Rattle.meaning.specs.Matching.{check as tested};
ghost use Rattle.meaning.specs.Packing.{number_in, first_in, test_of, from_place_number, predicate_part_number};
ghost use Rattle.meaning.specs.Packing.{registers};
ghost use Rattle.run_searching.specs.Searches.{PlacesWithin};
ghost use Rattle.run_narrowing.specs.Narrowed.{asks_place, part_of, NarrowsTo, Sifts};

use byte_classes::{Class, ClassTable};
use code_numbers::words::CodeWord;
use code_numbers::{FROM_PLACE, PART_CLASS, PART_TRUTH, PREDICATE_PART, REGISTERS};
use run_class_runs::{leading, trailing};
use run_code_places::{CodePlace, Places, wide};
use run_searching::search;
use run_sites::cells_before;

// What a test says at a range of places: that it is to be asked at each; or that it passes at the places of a narrower
// range and fails at the others.
#[derive(Clone, Copy)]
pub enum Sifted {
    Kept,
    Among(Places),
}

// One of a test's two registers is that of the middle template's place.
fn asks_place(word: CodeWord) -> bool
    ensures { result ≡ asks_place word.0 }
{
    let registers = word.first();
    registers % REGISTERS == FROM_PLACE || registers / REGISTERS % REGISTERS == FROM_PLACE
}

// The places before a turn, or those from it on: `early` says which, as a condition's word works it out.
fn part_at(first: usize, places: usize, turn: usize, early: bool) -> Places
    requires places_bound { first + places < 2 ^ 64 }
    requires turn_le_places { turn ≤ places }
    ensures { result ≡ part_of early first places turn }
{
    if early {
        Places { first, count: turn }
    } else {
        Places {
            first: first + turn,
            count: places - turn,
        }
    }
}

// A condition on the first part: up to a turn all its bytes are in the class, and after it they aren't. None where more
// than that would have to be known.
fn sift_first(
    classes: &ClassTable,
    field: &[u8],
    word: CodeWord,
    first: usize,
    places: usize,
) -> Option<Places>
    requires places_within { PlacesWithin first places (length field.now) }
    requires places_nonzero { 0 < places }
    requires word_value { number_in word.0 ≡ predicate_part_number }
    requires registers_value { first_in word.0 / registers % registers ≡ from_place_number }
    ensures { NarrowsTo result (tested (test_of word.0) field.now) first places }
{
    let operand = word.first();
    let class = Class::from_number(operand / PART_CLASS)?;
    if operand % REGISTERS == FROM_PLACE {
        return None;
    }
    let from = cells_before(field.len(), first, operand % REGISTERS, word.second())?;
    let nearest = first + wide(word.third());
    let to = nearest + (places - 1);
    if field.len() < to || nearest < from {
        return None;
    }
    let lead = leading(&field[from..to], |byte| classes.passes(byte, class));
    let passing = (lead + 1).saturating_sub(nearest - from);
    let expected = operand / PART_TRUTH % 2 == 1;
    Some(part_at(first, places, passing.min(places), expected))
}

// A condition on the second part: from a turn on all its bytes are in the class, and before it they aren't. None as for
// the first part, from which it differs in all but its beginning.
fn sift_second(
    classes: &ClassTable,
    field: &[u8],
    word: CodeWord,
    first: usize,
    places: usize,
) -> Option<Places>
    requires places_within { PlacesWithin first places (length field.now) }
    requires places_nonzero { 0 < places }
    requires word_value { number_in word.0 ≡ predicate_part_number }
    requires registers_value { first_in word.0 % registers ≡ from_place_number }
    ensures { NarrowsTo result (tested (test_of word.0) field.now) first places }
{
    let operand = word.first();
    let class = Class::from_number(operand / PART_CLASS)?;
    if operand / REGISTERS % REGISTERS == FROM_PLACE {
        return None;
    }
    let to = cells_before(
        field.len(),
        first,
        operand / REGISTERS % REGISTERS,
        word.third(),
    )?;
    let from = first + wide(word.second());
    if to < from + (places - 1) {
        return None;
    }
    let turn = trailing(&field[from..to], |byte| classes.passes(byte, class));
    let expected = operand / PART_TRUTH % 2 == 1;
    Some(part_at(first, places, turn.min(places), !expected))
}

// A test that no place changes is asked once. One on cells that are all there at the last place finds them at each.
// None where a test says more than is known here. It is asked by `search`, since a second caller of `check` would slow
// the search itself.
pub fn sift(
    classes: &ClassTable,
    code: &[u32],
    at: usize,
    field: &[u8],
    first: usize,
    places: usize,
) -> Option<Sifted>
    requires places_within { PlacesWithin first places (length field.now) }
    requires places_nonzero { 0 < places }
    requires at_in_bounds { at < length code.now }
    ensures { Sifts result (tested (test_of (get_or code.now at 0)) field.now) first places }
{
    let word = CodeWord(code[at]);
    if !asks_place(word) {
        return match search(classes, code, CodePlace(at), 1, field, first, 1) {
            Err(_) => None,
            Ok(Some(_)) => Some(Sifted::Among(Places {
                first,
                count: places,
            })),
            Ok(None) => Some(Sifted::Among(Places { first, count: 0 })),
        };
    }
    if word.number() == PREDICATE_PART {
        let narrowed = if word.first() % REGISTERS == FROM_PLACE {
            sift_second(classes, field, word, first, places)?
        } else {
            sift_first(classes, field, word, first, places)?
        };
        return Some(Sifted::Among(narrowed));
    }
    match search(
        classes,
        code,
        CodePlace(at),
        1,
        field,
        first + (places - 1),
        1,
    ) {
        Err(_) => None,
        Ok(_) => Some(Sifted::Kept),
    }
}
