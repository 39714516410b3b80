// A pattern's tests, the list of its different s-variables with the cell at which each stands first, and their stores.
ghost use Rattle.std.specs.Prelude.{◌≡◌, [], ◌∷◌, map, length, drop, get_or};
ghost use Rattle.std.specs.Prelude.{◌+◌, ◌≤◌, ◌<◌, ◌^◌};
ghost use Rattle.meaning.specs.Allowed.{max_letters};
ghost use Rattle.meaning.specs.Instructions.{look};
ghost use Rattle.meaning.specs.Packing.{test_word};
ghost use Rattle.tape_layout.specs.Tape.{symbol_word};
ghost use Rattle.tape_words.specs.declared.tape.Piece.TheVariants.{SVariable};
ghost use Rattle.tape_words.specs.Words.{piece_at};
ghost use Rattle.code_words.specs.Writer.{Written};
ghost use Rattle.code_patterns.specs.Testing.{site_at, InTests, SmallTestsOn, TestsStep, SmallTestsAll, letter_done};
ghost use Rattle.code_patterns.specs.Testing.{part_done, total, store_of};

use crate::pattern::{Lengths, one_more};
use crate::sites::site_of;
use crate::symbols::{Symbol, find_site};
use code_words::CodeWriter;
use tape_words::tape::{Parts, Piece, name_at, name_size, piece_at, word_at};

// Where the writing of tests stands: how many e-variables came before, the offset in this template, the letters and the
// different s-variables so far, and the tape's next word.
#[derive(Clone, Copy)]
pub struct Tests {
    pub parts: Parts,
    pub offset: usize,
    pub letters: usize,
    pub symbols: usize,
    pub next: usize,
}

impl Tests {
    // Past a letter.
    fn past_letter(self, symbols: usize, size: usize) -> Tests
        requires { (self.offset < 2 ^ 62) × (self.letters < 2 ^ 62) × (self.next + 1 + size < 2 ^ 62) }
        ensures { result ≡ letter_done self symbols size }
    {
        Tests {
            offset: self.offset + 1,
            letters: self.letters + 1,
            symbols,
            next: self.next + 1 + size,
            ..self
        }
    }

    // The next template begins.
    fn past_part(self, size: usize) -> Tests
        requires { self.next + 1 + size < 2 ^ 62 }
        ensures { result ≡ part_done self size }
    {
        Tests {
            parts: one_more(self.parts),
            offset: 0,
            next: self.next + 1 + size,
            ..self
        }
    }
}

fn test_character(tape: &[u32], lengths: Lengths, code: &mut CodeWriter, t: Tests) -> Tests
    requires { (total lengths ≤ max_letters) × (t.offset ≤ max_letters) × (t.letters ≤ max_letters) ×
        (t.next < length tape.now) × (get_or tape.now t.next 0 < symbol_word) × (code.old.at < 2 ^ 62) }
    ensures wrote { Written code.old
        (test_word (look (site_at lengths t.parts t.offset) (get_or tape.now t.next 0)) ∷ [])
        code.new }
    ensures value { result ≡ letter_done t t.symbols 0 }
{
    let site = site_of(lengths, t.parts, t.offset);
    code.put(site.look_word(word_at(tape, t.next)));
    t.past_letter(t.symbols, 0)
}

// An s-variable: compared with the first of its name, or kept as the first.
fn test_symbol(
    tape: &[u32],
    lengths: Lengths,
    symbols: &mut [Symbol],
    code: &mut CodeWriter,
    t: Tests,
) -> Tests
    requires in_tests { InTests tape.now symbols.old t code.old.at × (total lengths ≤ max_letters) }
    requires parts_value { piece_at (drop t.next tape.now) t.letters t.parts ≡ SVariable }
    ensures { SmallTestsOn tape.now lengths symbols.old code.old t symbols.new code.new result }
{
    let site = site_of(lengths, t.parts, t.offset);
    let name = name_at(tape, t.next);
    if let Some(first) = find_site(tape, &symbols[..t.symbols], name) {
        code.put(first.compare_word(site));
        return t.past_letter(t.symbols, name.len());
    }
    symbols[t.symbols] = Symbol { head: t.next, site };
    t.past_letter(t.symbols + 1, name.len())
}

// One piece further; none where the pattern ends.
fn test_piece(
    tape: &[u32],
    lengths: Lengths,
    symbols: &mut [Symbol],
    code: &mut CodeWriter,
    t: Tests,
) -> Option<Tests>
    requires { InTests tape.now symbols.old t code.old.at × (total lengths ≤ max_letters) }
    ensures { TestsStep tape.now lengths symbols.old code.old t symbols.new code.new result }
{
    match piece_at(tape, t.next, t.letters, t.parts) {
        Piece::Character => Some(test_character(tape, lengths, code, t)),
        Piece::SVariable => Some(test_symbol(tape, lengths, symbols, code, t)),
        Piece::EVariable => Some(t.past_part(name_size(tape, t.next))),
        Piece::PatternEnd => None,
    }
}

pub fn write_tests(
    tape: &[u32],
    lengths: Lengths,
    symbols: &mut [Symbol],
    start: usize,
    code: &mut CodeWriter,
) -> Tests
    requires symbols_len { length symbols.old ≡ max_letters }
    requires lengths_bound { (total lengths ≤ max_letters) × (start ≤ length tape.now) × (code.old.at < 2 ^ 60) }
    ensures { SmallTestsAll tape.now lengths start symbols.old code.old symbols.new code.new result }
{
    let mut t = Tests {
        parts: Parts::Zero,
        offset: 0,
        letters: 0,
        symbols: 0,
        next: start,
    };
    while let Some(further) = test_piece(tape, lengths, symbols, code, t) {
        t = further;
    }
    t
}

// The stores of the different s-variables.
pub fn write_stores(symbols: &[Symbol], code: &mut CodeWriter)
    requires { code.old.at + length symbols.now < 2 ^ 62 }
    ensures { Written code.old (map store_of symbols.now) code.new }
{
    for symbol in symbols {
        code.put(symbol.site.store_word());
    }
}
