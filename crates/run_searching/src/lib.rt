// The leftmost place at which all tests pass: place by place, or by looking for a byte or a string.
#![tactic(auto)]

ghost use Rattle.std.specs.Prelude.{◌+◌, ◌≤◌, ◌<◌, ◌^◌, ◌≡◌, length, drop};
ghost use Rattle.meaning.specs.Instructions.{from_place};
ghost use Rattle.meaning.specs.Instructions.{look as looking};
ghost use Rattle.meaning.specs.Matching.{check_all};
ghost use Rattle.meaning.specs.Matching.{check as tested, search as searched};
ghost use Rattle.meaning.specs.Packing.{second_in, third_in, unpack_tests};
ghost use Rattle.code_numbers.specs.Numbers.{operand};
ghost use Rattle.run_searching.specs.Searches.{found_meant, place_meant, PlacesWithin, LooksOnce, Spells, Occurs};

use byte_classes::ClassTable;
use code_numbers::words::CodeWord;
use code_numbers::{LOOK_FROM_PLACE, SECOND};
use run_checking::check_all;
use run_code_places::{CodePlace, Wrong, wide};
use run_finding::{Unsuited, find};

// The most characters that a pattern has, and so a string that is looked for.
const MAX_STRING: usize = 64;

// For fewer places the tables of one pass over the field would cost more than they save.
const FEW_PLACES: usize = 64;

// The leftmost of so many places at which all tests pass; without a middle template, place 0.
pub fn search(
    classes: &ClassTable,
    code: &[u32],
    tests: CodePlace,
    count: usize,
    field: &[u8],
    first: usize,
    places: usize,
) -> Result<Option<usize>, Wrong>
    requires places_within { PlacesWithin first places (length field.now) }
    ensures { found_meant result ≡
        searched (check_all (unpack_tests count (drop tests.0 code.now)) field.now)
        places first }
{
    for place in first..first + places {
        if check_all(classes, code, tests, count, field, place)? {
            return Ok(Some(place));
        }
    }
    Ok(None)
}

// Whether a Look from the middle template's place is the only test, the commonest that a middle template has, and finds
// a cell in a whole of a length at each place before one.
pub fn looks_once(code: &[u32], tests: CodePlace, count: usize, past: usize, whole: usize) -> bool
    requires past_bound { past ≤ whole + operand }
    requires whole_bound { whole < 2 ^ 63 }
    ensures { LooksOnce result code.now tests.0 count past whole }
{
    let at = tests.0;
    if count != 1 || code.len() <= at {
        return false;
    }
    let word = CodeWord(code[at]);
    word.0 % SECOND == LOOK_FROM_PLACE && past + wide(word.second()) <= whole
}

// The leftmost of so many places so far before a byte: a Look from the middle template's place is the only test. It is
// not put into the loop of a run, where the place would be kept in memory and not in a register.
#[inline(never)]
pub fn scan(field: &[u8], word: CodeWord, first: usize, places: usize) -> Option<usize>
    requires { first + places + second_in word.0 ≤ length field.now }
    ensures { place_meant result ≡
        searched (tested (looking (from_place (second_in word.0)) (third_in word.0)) field.now) places first }
{
    let offset = wide(word.second());
    let byte = word.third() as u8;
    for here in first..first + places {
        if field[here + offset] == byte {
            return Some(here);
        }
    }
    None
}

// From which cell after the place on tests look for a string, each at the cell after the last one's; or none, where
// they look for more than that.
fn string_of(code: &[u32], tests: CodePlace, count: usize, string: &mut [u8]) -> Option<usize>
    ensures { Spells result string.new (unpack_tests count (drop tests.0 code.now)) count }
{
    let at = tests.0;
    if code.len() <= at || code.len() - at < count || string.len() < count {
        return None;
    }
    let offset = wide(CodeWord(code[at]).second());
    for size in 0..count {
        let word = CodeWord(code[at + size]);
        if word.0 % SECOND != LOOK_FROM_PLACE || wide(word.second()) != offset + size {
            return None;
        }
        string[size] = word.third() as u8;
    }
    Some(offset)
}

fn no_string() -> [u8; MAX_STRING] {
    [0u8; MAX_STRING]
}

// The same search for a string, in one pass over the field.
fn find_string(
    code: &[u32],
    tests: CodePlace,
    count: usize,
    field: &[u8],
    first: usize,
    places: usize,
) -> Result<Option<usize>, Unsuited>
    requires { PlacesWithin first places (length field.now) }
    ensures { Occurs result
        (searched (check_all (unpack_tests count (drop tests.0 code.now)) field.now)
        places first) }
{
    if places < FEW_PLACES || MAX_STRING < count {
        return Err(Unsuited);
    }
    let mut string = no_string();
    let offset = string_of(code, tests, count, &mut string).ok_or(Unsuited)?;
    match find(&string[..count], field, first + offset, places)? {
        Some(place) => Ok(Some(place - offset)),
        None => Ok(None),
    }
}

// The same search, where one Look decides by scanning for its byte, and where a string does by looking for that.
pub fn find_among(
    classes: &ClassTable,
    code: &[u32],
    tests: CodePlace,
    count: usize,
    field: &[u8],
    first: usize,
    places: usize,
) -> Result<Option<usize>, Wrong>
    requires places_within { PlacesWithin first places (length field.now) }
    ensures { found_meant result ≡
        searched (check_all (unpack_tests count (drop tests.0 code.now)) field.now)
        places first }
{
    if looks_once(code, tests, count, first + places, field.len()) {
        return Ok(scan(field, CodeWord(code[tests.0]), first, places));
    }
    match find_string(code, tests, count, field, first, places) {
        Ok(found) => Ok(found),
        Err(Unsuited) => search(classes, code, tests, count, field, first, places),
    }
}
