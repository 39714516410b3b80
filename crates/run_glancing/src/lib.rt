// What the choice of a sentence for a field comes to at a glance: no place is searched, and no class is asked.
#![tactic(auto)]

ghost use Rattle.std.specs.Prelude.{ℕ, ◌+◌, ◌-◌, ◌≤◌, ◌<◌, ◌≡◌, eqb, length, drop};
ghost use Rattle.meaning.specs.Choice.{nth};
ghost use Rattle.meaning.specs.Matching.{Checked, failed, found_none, asked, checked, check, check_all, choose_from};
ghost use Rattle.meaning.specs.Packing.{metric_in, test_of, unpack_tests, unpack_sentences};
ghost use Rattle.code_numbers.specs.Numbers.{sentence_head};
ghost use Rattle.run_matching.specs.Matched.{tried};
ghost use Rattle.run_glancing.specs.Glanced.{Told, Where, Drops, Glances};

use code_numbers::wide::SENTENCE_HEAD;
use code_numbers::words::CodeWord;
use code_numbers::{
    ACTIONS_END, ENDS, FIRST, FROM_END, GO, LOOK, LOOK_FROM_PLACE, LOOK_FROM_START, MAX_STORED,
    SECOND, SENTENCES_END, WHOLE,
};
use run_code_places::{CodePlace, wide};
use run_matching::places_of;

// A Look at a cell counted from q, without offset and byte.
const LOOK_FROM_END: u32 = LOOK + FIRST * FROM_END;

// The end of a function that none recovers.
const UNRECOVERED_END: u32 = SENTENCES_END;

// The words of a sentence `e1 =`: its lengths, its counts, a Go over the field, and the end of its actions.
const ANY_FIELD: u32 = ENDS;

const TWO_ACTIONS: u32 = SECOND * 2;

const GO_WHOLE: u32 = GO + FIRST * WHOLE;

// Where the last two of them stand, and how many they are.
const GO_PLACE: usize = SENTENCE_HEAD;

const END_PLACE: usize = GO_PLACE + 1;

const DROPPING_WORDS: usize = END_PLACE + 1;

// No sentence fits, and no function recovers; the sentence that is chosen passes over its field and ends; or more would
// have to be looked at. Three answers, since no caller hands the last one on by `?`.
#[derive(Clone, Copy)]
pub enum Seen {
    Nothing,
    Dropped,
    Perhaps,
}

// A test fails; it doesn't ask for a cell that isn't there; or more would have to be looked at. Three answers, as
// above.
#[derive(Clone, Copy)]
pub enum Glimpse {
    Fails,
    Right,
    Unknown,
}

// A cell compared with the byte that is asked for.
fn compare_cell(field: &[u8], index: usize, byte: u8) -> Glimpse
    ensures { Told result (asked (λ b. checked (eqb byte b)) (nth index field.now)) }
{
    if field.len() <= index {
        return Glimpse::Unknown;
    }
    if field[index] == byte {
        Glimpse::Right
    } else {
        Glimpse::Fails
    }
}

// What a Look says at every place up to the last. No place changes what one says that counts from p or from q.
fn look(field: &[u8], word: CodeWord, last: usize) -> Glimpse
    ensures { (place : ℕ) → place ≤ last → Told result (check (test_of word.0) field.now place) }
{
    let kind = word.0 % SECOND;
    let offset = wide(word.second());
    let byte = word.third() as u8;
    if kind == LOOK_FROM_START {
        return compare_cell(field, offset, byte);
    }
    if kind == LOOK_FROM_END && offset <= field.len() {
        return compare_cell(field, field.len() - offset, byte);
    }
    if kind == LOOK_FROM_PLACE && last < field.len() && offset < field.len() - last {
        return Glimpse::Right;
    }
    Glimpse::Unknown
}

// One of the Looks that begin a sentence's tests fails at every place up to the last, and none before it asks for a
// cell that isn't there.
fn looks_fail(code: &[u32], tests: CodePlace, count: usize, field: &[u8], last: usize) -> bool
    ensures { Where result ((place : ℕ) → place ≤ last →
        check_all (unpack_tests count (drop tests.0 code.now)) field.now place ≡ failed) }
{
    for at in tests.0..tests.0.saturating_add(count) {
        if code.len() <= at {
            return false;
        }
        match look(field, CodeWord(code[at]), last) {
            Glimpse::Fails => return true,
            Glimpse::Unknown => return false,
            Glimpse::Right => {}
        }
    }
    false
}

// A sentence is out by its lengths, or by the Looks that begin its tests.
fn is_out(code: &[u32], at: CodePlace, word: CodeWord, counts: CodeWord, field: &[u8]) -> bool
    requires { at.0 < length code.now }
    ensures { Where result
        (tried (metric_in word.0) counts.0 (drop (at.0 + sentence_head) code.now) field.now
        ≡ found_none) }
{
    let Some(places) = places_of(word, field.len()) else {
        return false;
    };
    if MAX_STORED < counts.first() {
        return false;
    }
    if places.count == 0 {
        return true;
    }
    let tests = CodePlace(at.0 + SENTENCE_HEAD);
    let last = places.first + (places.count - 1);
    looks_fail(code, tests, wide(counts.number()), field, last)
}

// The sentence `e1 =` stands at a place: it fits every field, passes over it and ends.
fn drops(code: &[u32], at: CodePlace) -> bool
    requires { at.0 < length code.now }
    ensures { Where result (Drops code.now at.0) }
{
    let start = at.0;
    DROPPING_WORDS <= code.len() - start
        && code[start] == ANY_FIELD
        && code[start + 1] == TWO_ACTIONS
        && code[start + GO_PLACE] == GO_WHOLE
        && code[start + END_PLACE] == ACTIONS_END
}

// The sentences from a place on, as long as each is out.
pub fn glance(code: &[u32], entry: CodePlace, field: &[u8]) -> Seen
    ensures { Glances result
        (choose_from (unpack_sentences 0 (drop entry.0 code.now)) field.now) }
{
    // Each step begins where the sentence before it ended, so no `for` counts them.
    let mut at = entry.0;
    while at < code.len() {
        let word = CodeWord(code[at]);
        if word.0 == UNRECOVERED_END {
            return Seen::Nothing;
        }
        if drops(code, CodePlace(at)) {
            return Seen::Dropped;
        }
        if code.len() - at < SENTENCE_HEAD {
            return Seen::Perhaps;
        }
        let counts = CodeWord(code[at + 1]);
        if !is_out(code, CodePlace(at), word, counts, field) {
            return Seen::Perhaps;
        }
        at += SENTENCE_HEAD + wide(counts.0 / SECOND);
    }
    Seen::Perhaps
}
