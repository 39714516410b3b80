// Whether a table is flat, by its tape: where its leftmost declared call is that is no tail call. 02's T-06.
#![tactic(auto)]

ghost use Rattle.std.specs.Prelude.{◌≡◌, true, ℕ, ◌+◌, ◌≤◌, ◌<◌, length, drop, get_or, IfSome};
ghost use Rattle.tape_layout.specs.Tape.{kind_width};
ghost use Rattle.tape_words.specs.Words.{carried};
ghost use Rattle.tape_flatness.specs.Scanned.{earlier, place_of, opens_call, item_follows, declared_call};
ghost use Rattle.tape_flatness.specs.Scanned.{out_of_calls, scanned_calls, Below, ArgumentPassed, NoneFurtherLeft};
ghost use Rattle.tape_flatness.specs.Scanned.{nested_call, joined_at_once, short_argument};

use tape_words::names::is_built_in;
use tape_words::tape::{name_at, word_at, word_inside};
use tape_words::wide::{CALL_KIND, CALL_WORD, CLOSE_WORD, CONDITION_WORD, KIND_WIDTH};

// So many words are joined at once.
const JOINED_AT_ONCE: usize = 8;

// An argument of fewer words is short.
const SHORT_ARGUMENT: usize = 16;

// The furthest call that a word can tell: it has 32 bits.
const FURTHEST: usize = 16777207;

// Where some words end, and the leftmost declared call so far that is no tail call. A call is told by one more than the
// place of its name, none by 0: numbers stay in machine registers.
#[derive(Clone, Copy)]
pub struct Passed {
    pub next: usize,
    pub leftmost: usize,
}

// The one of two calls that stands further left.
fn earlier(one: usize, other: usize) -> usize
    ensures { result ≡ earlier one other }
{
    if one == 0 {
        return other;
    }
    if other == 0 {
        return one;
    }
    one.min(other)
}

// The place of the called name, if there is one.
fn place_of(call: usize) -> Option<usize>
    ensures { result ≡ place_of call }
{
    call.checked_sub(1)
}

fn opens_call(word: usize) -> bool
    ensures { result ≡ opens_call word }
{
    CALL_WORD <= word
}

// The word at a place is a character, a variable or a call.
fn item_follows(tape: &[u32], i: usize) -> bool
    ensures { result ≡ item_follows (drop i tape.now) }
{
    let word = word_at(tape, i);
    i < tape.len() && (word < CONDITION_WORD || opens_call(word))
}

// The call that a word opens, unless it needs no declaration.
fn declared_call(tape: &[u32], i: usize) -> usize
    requires { i < length tape.now }
    ensures { result ≡ declared_call (drop i tape.now) }
{
    if is_built_in(name_at(tape, i)) {
        return 0;
    }
    let place = (word_at(tape, i) / KIND_WIDTH).saturating_sub(CALL_KIND);
    place + 1
}

// Where the name ends that a word carries: the place of its last word.
fn name_end(tape: &[u32], i: usize) -> usize
    requires { i < length tape.now }
    ensures { result ≡ i + carried (get_or tape.now i 0) }
{
    i + word_at(tape, i) % KIND_WIDTH
}

// The next words joined bit by bit: none of them is greater. No word ends the loop early, so that all are joined at
// once.
fn joined(tape: &[u32], from: usize) -> usize
    requires { from + joined_at_once ≤ length tape.now }
    ensures { Below (result + 1) tape.now from (from + joined_at_once) }
{
    let mut all = 0;
    for word in &tape[from..from + JOINED_AT_ONCE] {
        all |= *word;
    }
    all as usize
}

// The place after the words below a bound, so many at a time. The loop counts by hand: it goes on by JOINED_AT_ONCE
// words and hands back a place.
fn groups_past(tape: &[u32], from: usize, bound: usize) -> usize
    requires { from ≤ length tape.now }
    ensures { Below bound tape.now from result }
{
    let mut at = from;
    while JOINED_AT_ONCE <= tape.len() - at {
        if bound <= joined(tape, at) {
            return at;
        }
        at += JOINED_AT_ONCE;
    }
    at
}

// The place after the words below a bound. The first is looked at alone: calls often stand side by side.
fn low_past(tape: &[u32], from: usize, bound: usize) -> usize
    requires { from ≤ length tape.now }
    ensures { Below bound tape.now from result }
{
    if bound <= word_at(tape, from) {
        return from;
    }
    for at in groups_past(tape, from, bound)..tape.len() {
        if bound <= word_inside(tape, at) {
            return at;
        }
    }
    tape.len()
}

// How far from the end of a name the words after its argument begin, if that is short and has no call. Not where they
// begin: the place is then one sum away from the end of the name.
fn short_past(tape: &[u32], end: usize) -> Option<usize>
    requires { end + short_argument < length tape.now }
    ensures { IfSome result (λ past. (0 < past) × (past ≤ short_argument + 1) × ((leftmost : ℕ)
        → ArgumentPassed tape.now (end + 1) leftmost (end + past) leftmost)) }
{
    for k in 1..SHORT_ARGUMENT + 1 {
        let word = word_inside(tape, end + k);
        if CLOSE_WORD <= word {
            if word == CLOSE_WORD {
                return Some(k + 1);
            }
            return None;
        }
    }
    None
}

// An outermost call's argument from a place on, to where the call closes: a declared call in it is no tail call.
fn pass_items(tape: &[u32], from: usize, leftmost: usize) -> Passed
    ensures { (from ≤ result.next) × ArgumentPassed tape.now from leftmost result.next result.leftmost }
{
    let mut found = leftmost;
    let mut more = 0usize;
    let mut i = from;
    // Each step begins where the one before it ended, so no `for` counts them.
    while i < tape.len() {
        let word = word_at(tape, i);
        if word == CLOSE_WORD {
            if more == 0 {
                return Passed {
                    next: i + 1,
                    leftmost: found,
                };
            }
            more -= 1;
            i += 1;
        } else if opens_call(word) {
            found = earlier(declared_call(tape, i), found);
            more += 1;
            i = name_end(tape, i) + 1;
        } else {
            i = low_past(tape, i + 1, CLOSE_WORD);
        }
    }
    Passed {
        next: i,
        leftmost: found,
    }
}

// What follows the end of an outermost call's name. A short argument without calls is passed by one test for each word.
fn pass_argument(tape: &[u32], end: usize, leftmost: usize) -> Passed
    requires { end < length tape.now + kind_width }
    ensures { (end < result.next) × ArgumentPassed tape.now (end + 1) leftmost result.next result.leftmost }
{
    if end + SHORT_ARGUMENT < tape.len() {
        if let Some(past) = short_past(tape, end) {
            let next = end + past;
            return Passed { next, leftmost };
        }
    }
    pass_items(tape, end + 1, leftmost)
}

// An outermost call, with its argument: it is no tail call where an item follows it. Its name is asked only then.
fn pass_call(tape: &[u32], i: usize, leftmost: usize) -> Passed
    requires { (i < length tape.now) × (opens_call (get_or tape.now i 0) ≡ true) }
    ensures { (i < result.next) × (scanned_calls 0 (drop i tape.now) (out_of_calls leftmost)
        ≡ scanned_calls 0 (drop result.next tape.now) (out_of_calls result.leftmost)) }
{
    let passed = pass_argument(tape, name_end(tape, i), leftmost);
    if item_follows(tape, passed.next) {
        let leftmost = earlier(declared_call(tape, i), passed.leftmost);
        return Passed { leftmost, ..passed };
    }
    passed
}

// No word from a place on opens a call further left than the one found. No word ends the loop early, so that several
// are compared at once.
fn settled(tape: &[u32], from: usize, leftmost: usize) -> bool
    ensures { result ≡ true → NoneFurtherLeft leftmost tape.now from (length tape.now) }
{
    if FURTHEST < leftmost {
        return false;
    }
    let first_call = CALL_WORD as u32;
    let no_further_left = ((leftmost + CALL_KIND - 1) * KIND_WIDTH) as u32;
    let mut any = false;
    for at in from..tape.len() {
        let word = tape[at];
        any |= (first_call <= word) & (word < no_further_left);
    }
    !any
}

// Where the leftmost declared call stands that is no tail call, by the name's place. Once one is found, the rest is
// read only for calls further left: a table's tape has none.
pub fn nested_call(tape: &[u32]) -> Option<usize>
    ensures { result ≡ nested_call tape.now }
{
    let mut leftmost = 0;
    let mut i = 0;
    // Each step begins where the one before it ended, so no `for` counts them.
    while i < tape.len() {
        if opens_call(word_at(tape, i)) {
            let passed = pass_call(tape, i, leftmost);
            leftmost = passed.leftmost;
            i = passed.next;
        } else {
            if leftmost != 0 && settled(tape, i, leftmost) {
                return place_of(leftmost);
            }
            i = low_past(tape, i + 1, CALL_WORD);
        }
    }
    place_of(leftmost)
}
