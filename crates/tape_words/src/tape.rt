// A word of the tape: reading it, how long the name after it is, and what it is in a pattern and in an expression.
ghost use Rattle.std.specs.Prelude.{◌≡◌, false, ◌∷◌, ◌+◌, ◌-◌, ◌<◌, ◌^◌, ltb, length, take, drop, get_or, replicate};
ghost use Rattle.meaning.specs.Allowed.{max_letters};
ghost use Rattle.meaning.specs.Choice.{pick};
ghost use Rattle.tape_layout.specs.Tape.{kind_width};
ghost use Rattle.tape_words.specs.Words.{head_name, part_piece, piece_of, piece_at, ending_of, opening_of};
ghost use Rattle.tape_words.specs.Words.{item_of_word, item_at};

use crate::limits::{MAX_ITEMS, MAX_LETTERS, MAX_NESTING};
use crate::wide::{
    CALL_WORD, CLOSE_WORD, CONDITION_WORD, KIND_WIDTH, NEXT_WORD, PART_WORD, SYMBOL_WORD,
};

// How many e-variables a pattern has, or has had so far.
#[derive(Clone, Copy)]
pub enum Parts {
    Zero,
    One,
    Two,
}

// What a word is where a pattern may go on.
#[derive(Clone, Copy)]
pub enum Piece {
    Character,
    SVariable,
    EVariable,
    PatternEnd,
}

// What a word is where an expression may go on. `Pass`: a call with 16 open round it, which no table has. `Unclosed`:
// no item, with a call open.
#[derive(Clone, Copy)]
pub enum Item {
    Byte,
    Symbol,
    Part,
    Call,
    Pass,
    Close,
    Unclosed,
    Stop,
}

// Room for as many numbers as a pattern may have letters, and a table functions.
pub fn room() -> [usize; MAX_LETTERS]
    ensures { result ≡ replicate max_letters 0 }
{
    [0usize; MAX_LETTERS]
}

// The word at a place inside the tape.
pub fn word_inside(tape: &[u32], i: usize) -> usize
    requires { i < length tape.now }
    ensures { (result ≡ get_or tape.now i 0) × (result < 2 ^ 32) }
{
    tape[i] as usize
}

// The word at a place, 0 past the end.
pub fn word_at(tape: &[u32], i: usize) -> usize
    ensures { (result ≡ get_or tape.now i 0) × (result < 2 ^ 32) }
{
    tape.get(i).map_or(0, |word| *word as usize)
}

// The word at a place of the tape, before those after it.
fn word_on(tape: &[u32], i: usize) -> usize
    requires { i < length tape.now }
    ensures { drop i tape.now ≡ result ∷ drop (i + 1) tape.now }
{
    word_at(tape, i)
}

// It is one of the words of a kind, whose first is `low`.
pub fn of_kind(word: usize, low: usize) -> bool
    requires { low < 2 ^ 32 }
    ensures { result ≡ pick (ltb word low) false (ltb word (low + kind_width)) }
{
    low <= word && word < low + KIND_WIDTH
}

// How many of so many words from a place on the tape has.
pub fn reach(tape: &[u32], from: usize, claimed: usize) -> usize
    ensures { result ≡ length (take claimed (drop from tape.now)) }
{
    claimed.min(tape.len().saturating_sub(from))
}

// The name that stands after its word, as far as the tape goes.
pub fn name_at(tape: &[u32], head: usize) -> &[u32]
    ensures { result.now ≡ head_name tape.now head }
{
    if tape.len() <= head {
        return &[];
    }
    let after = &tape[head + 1..];
    let size = tape[head] as usize % KIND_WIDTH;
    &after[..size.min(after.len())]
}

// How long the name is that stands after its word.
pub fn name_size(tape: &[u32], head: usize) -> usize
    ensures { result ≡ length (head_name tape.now head) }
{
    name_at(tape, head).len()
}

fn part_piece(parts: Parts) -> Piece
    ensures { result ≡ part_piece parts }
{
    match parts {
        Parts::Zero | Parts::One => Piece::EVariable,
        Parts::Two => Piece::PatternEnd,
    }
}

// What a word is by its kind: the tests stand in the order of the definition `piece_of`.
fn piece_of(word: usize, letters: usize, parts: Parts) -> Piece
    ensures { result ≡ piece_of word letters parts }
{
    if CONDITION_WORD <= word {
        return Piece::PatternEnd;
    }
    if PART_WORD <= word {
        return part_piece(parts);
    }
    if MAX_LETTERS <= letters {
        return Piece::PatternEnd;
    }
    if SYMBOL_WORD <= word {
        return Piece::SVariable;
    }
    Piece::Character
}

pub fn piece_at(tape: &[u32], i: usize, letters: usize, parts: Parts) -> Piece
    ensures { result ≡ piece_at (drop i tape.now) letters parts }
{
    if i < tape.len() {
        piece_of(word_on(tape, i), letters, parts)
    } else {
        Piece::PatternEnd
    }
}

// Where no item follows: a call's end, or the expression's. The tests stand in the order of the definition `ending_of`.
fn ending_of(word: usize, depth: usize) -> Item
    ensures { result ≡ ending_of word depth }
{
    if depth == 0 {
        return Item::Stop;
    }
    if word < CLOSE_WORD {
        return Item::Unclosed;
    }
    if word < NEXT_WORD {
        return Item::Close;
    }
    Item::Unclosed
}

fn opening_of(depth: usize) -> Item
    ensures { result ≡ opening_of depth }
{
    if depth < MAX_NESTING {
        Item::Call
    } else {
        Item::Pass
    }
}

// What a word is by its kind: the tests stand in the order of the definition `item_of_word`.
fn item_of(word: usize, depth: usize, items: usize) -> Item
    ensures { result ≡ item_of_word word depth items }
{
    if MAX_ITEMS <= items {
        return ending_of(word, depth);
    }
    if word < SYMBOL_WORD {
        return Item::Byte;
    }
    if word < PART_WORD {
        return Item::Symbol;
    }
    if word < CONDITION_WORD {
        return Item::Part;
    }
    if word < CALL_WORD {
        return ending_of(word, depth);
    }
    opening_of(depth)
}

pub fn item_at(tape: &[u32], i: usize, depth: usize, items: usize) -> Item
    ensures { result ≡ item_at (drop i tape.now) depth items }
{
    if i < tape.len() {
        return item_of(word_on(tape, i), depth, items);
    }
    if depth == 0 {
        Item::Stop
    } else {
        Item::Unclosed
    }
}
