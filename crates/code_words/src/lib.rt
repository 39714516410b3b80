// Writing code words: past the end of the lent slice nothing is written, and the place counts on.
#![tactic(auto)]

ghost use Rattle.std.specs.Prelude.{◌≡◌, [], ◌∷◌, ◌+◌, ◌≤◌, ◌<◌, ◌^◌, length};
ghost use Rattle.meaning.specs.Packing.{code_word};
ghost use Rattle.code_words.specs.Writing.{cleared_from, Wrote};
ghost use Rattle.code_words.specs.Writer.{Begins, BeginsAt, Written, Patched};

use code_numbers::wide::OPERAND;

// Every word from a place on is 0.
pub fn clear_from(code: &mut [u32], start: usize)
    ensures { code.new ≡ cleared_from start code.old }
{
    if start < code.len() {
        code[start..].fill(0);
    }
}

// One word at a place. Handed back: the place after it.
pub fn put(code: &mut [u32], at: usize, value: usize) -> usize
    requires { (value < 2 ^ 32) × (at < 2 ^ 62) }
    ensures { Wrote code.old at (value ∷ []) code.new result }
{
    if at < code.len() {
        code[at] = value as u32;
    }
    at + 1
}

// An instruction's number and its three operands as one word.
pub fn word(number: usize, a: usize, b: usize, c: usize) -> usize
    requires { code_word number a b c < 2 ^ 32 }
    ensures { (result ≡ code_word number a b c) × (result < 2 ^ 32) }
{
    number + OPERAND * (a + OPERAND * (b + OPERAND * c))
}

// Cells that are lent, and the place of the next word, which may lie past their end.
#[derive(Drop)]
pub struct CodeWriter<'a> {
    code: &'a mut [u32],
    at: usize,
}

impl<'a> CodeWriter<'a> {
    // A writer at the first of these cells.
    pub fn new(code: &'a mut [u32]) -> CodeWriter<'a>
        ensures { Begins code.entry result }
    {
        CodeWriter { code, at: 0 }
    }

    // A writer at a place of these cells.
    pub fn at(code: &'a mut [u32], at: usize) -> CodeWriter<'a>
        ensures { BeginsAt code.entry at result }
    {
        CodeWriter { code, at }
    }

    // The place of the next word.
    pub fn count(&self) -> usize
        ensures { result ≡ self.now.at }
    {
        self.at
    }

    // One word.
    pub fn put(&mut self, value: usize)
        requires { (value < 2 ^ 32) × (self.old.at < 2 ^ 62) }
        ensures { Written self.old (value ∷ []) self.new }
    {
        self.at = put(self.code, self.at, value);
    }

    // An instruction's number and its three operands as one word.
    pub fn put_operands(&mut self, number: usize, a: usize, b: usize, c: usize)
        requires { (code_word number a b c < 2 ^ 32) × (self.old.at < 2 ^ 62) }
        ensures { Written self.old (code_word number a b c ∷ []) self.new }
    {
        self.put(word(number, a, b, c));
    }

    // A name's words as they stand on the tape.
    pub fn put_name(&mut self, name: &[u32])
        requires { self.old.at + length name.now < 2 ^ 62 }
        ensures { Written self.old name.now self.new }
    {
        for &word in name {
            self.put(word as usize);
        }
    }

    // One word at another place; the writer stays where it is.
    pub fn patch(&mut self, place: usize, value: usize)
        requires { (value < 2 ^ 32) × (place < 2 ^ 62) }
        ensures { Patched self.old place value self.new }
    {
        put(self.code, place, value);
    }
}
