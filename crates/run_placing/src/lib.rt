// Where a sentence's middle template lies: its head first, then the tests one by one, then the places that are left.
#![tactic(auto)]

ghost use Rattle.std.specs.Prelude.{◌+◌, ◌≤◌, ◌≡◌, length, drop};
ghost use Rattle.meaning.specs.Matching.{check_all};
ghost use Rattle.meaning.specs.Matching.{search as searched};
ghost use Rattle.meaning.specs.Packing.{unpack_tests};
ghost use Rattle.run_searching.specs.Searches.{found_meant, PlacesWithin};
ghost use Rattle.run_placing.specs.Placed.{Settles, HeadsSay};

use byte_classes::ClassTable;
use code_numbers::words::CodeWord;
use code_numbers::{LOOK_FROM_START, SECOND};
use run_code_places::{CodePlace, Places, Wrong, wide};
use run_narrowing::{Sifted, sift};
use run_searching::{find_among, looks_once, scan, search};

// Room for the tests that are kept: a pattern has at most 64 characters and s-variables, and 8 conditions.
const MAX_TESTS: usize = 72;

// What is left to search for: so many tests that are kept, in the places that are left.
#[derive(Clone, Copy)]
struct Settled {
    among: Places,
    kept: usize,
}

// The tests one by one, before any place is searched: those that the places decide are kept, in their order. None where
// all is left to search for. No range says where the tests stand, as in `check_all`.
fn settle(
    classes: &ClassTable,
    code: &[u32],
    tests: CodePlace,
    count: usize,
    field: &[u8],
    first: usize,
    places: usize,
    kept: &mut [u32],
) -> Option<Settled>
    requires places_within { PlacesWithin first places (length field.now) }
    ensures { Settles result kept.new field.now
        (check_all (unpack_tests count (drop tests.0 code.now)) field.now) places first }
{
    let mut at = tests.0;
    let mut left = count;
    let mut among = Places {
        first,
        count: places,
    };
    let mut size = 0;
    while 0 < left && 0 < among.count {
        if code.len() <= at {
            return None;
        }
        let here = at;
        at += 1;
        left -= 1;
        match sift(classes, code, here, field, among.first, among.count)? {
            Sifted::Kept => {
                if kept.len() <= size {
                    return None;
                }
                kept[size] = code[here];
                size += 1;
            }
            Sifted::Among(narrower) => among = narrower,
        }
    }
    Some(Settled { among, kept: size })
}

// An array lent on, with how many are kept beside it, as nothing here lies on a heap.
fn no_tests() -> [u32; MAX_TESTS] {
    [0u32; MAX_TESTS]
}

// The leftmost of so many places at which all tests pass: what doesn't depend on the place is tested once.
pub fn find_settled(
    classes: &ClassTable,
    code: &[u32],
    tests: CodePlace,
    count: usize,
    field: &[u8],
    first: usize,
    places: usize,
) -> Result<Option<usize>, Wrong>
    requires places_within { PlacesWithin first places (length field.now) }
    ensures { found_meant result ≡
        searched (check_all (unpack_tests count (drop tests.0 code.now)) field.now)
        places first }
{
    if places <= 1 {
        return search(classes, code, tests, count, field, first, places);
    }
    let mut kept = no_tests();
    match settle(classes, code, tests, count, field, first, places, &mut kept) {
        None => search(classes, code, tests, count, field, first, places),
        Some(settled) => {
            let among = settled.among;
            find_among(
                classes,
                &kept,
                CodePlace(0),
                settled.kept,
                field,
                among.first,
                among.count,
            )
        }
    }
}

// The tests that are left, and from which place of the code on, once those that begin a sentence and look at cells
// counted from p have passed: no place changes them. None where one of them fails. One that finds no cell is left. The
// loop tells where it stops, which no range would.
fn pass_heads(
    code: &[u32],
    tests: CodePlace,
    count: usize,
    field: &[u8],
) -> Option<(CodePlace, usize)>
    ensures { HeadsSay result code.now field.now
        (check_all (unpack_tests count (drop tests.0 code.now)) field.now) }
{
    let mut at = tests.0;
    let mut left = count;
    while 0 < left && at < code.len() {
        let word = CodeWord(code[at]);
        let offset = wide(word.second());
        if word.0 % SECOND != LOOK_FROM_START || field.len() <= offset {
            return Some((CodePlace(at), left));
        }
        if field[offset] != word.third() as u8 {
            return None;
        }
        at += 1;
        left -= 1;
    }
    Some((CodePlace(at), left))
}

// The same search, with the sentence's head first. A single Look from the middle template's place is scanned for.
pub fn find_place(
    classes: &ClassTable,
    code: &[u32],
    tests: CodePlace,
    count: usize,
    field: &[u8],
    first: usize,
    places: usize,
) -> Result<Option<usize>, Wrong>
    requires places_within { PlacesWithin first places (length field.now) }
    ensures { found_meant result ≡
        searched (check_all (unpack_tests count (drop tests.0 code.now)) field.now)
        places first }
{
    if places == 0 {
        return Ok(None);
    }
    if looks_once(code, tests, count, first + places, field.len()) {
        return Ok(scan(field, CodeWord(code[tests.0]), first, places));
    }
    let Some((rest, left)) = pass_heads(code, tests, count, field) else {
        return Ok(None);
    };
    if left == 0 {
        return Ok(Some(first));
    }
    find_settled(classes, code, rest, left, field, first, places)
}
