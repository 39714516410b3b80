// A sentence's words, and a function's.
#![tactic(auto)]

ghost use Rattle.std.specs.Prelude.{◌≡◌, [], ◌∷◌, ◌+◌, ◌≤◌, ◌<◌, ◌^◌, length, drop};
ghost use Rattle.meaning.specs.Allowed.{max_functions, max_letters};
ghost use Rattle.meaning.specs.Packing.{code_word};
ghost use Rattle.tape_words.specs.Finding.{place_number};
ghost use Rattle.code_numbers.specs.Numbers.{third};
ghost use Rattle.code_words.specs.Writer.{Written};
ghost use Rattle.code_patterns.specs.Measuring.{MeasuresAll};
ghost use Rattle.code_patterns.specs.Testing.{total};
ghost use Rattle.code_sentences.specs.Sentencing.{metric_number, next_at, MatchAll, BodyAll, SentenceAll};
ghost use Rattle.code_sentences.specs.Sentencing.{SentencesAll, FunctionAll};

use code_expressions::expression::write_expression;
use code_numbers::wide::{ENDS, EXACTLY, FIRST, MIDDLE, OPERAND, SENTENCES_END};
use code_patterns::conditions::write_conditions;
use code_patterns::pattern::{Lengths, Pattern, measure};
use code_patterns::symbols::{Symbol, room};
use code_patterns::tests::{write_stores, write_tests};
use code_words::CodeWriter;
use tape_words::limits::MAX_SENTENCES;
use tape_words::tape::{Parts, of_kind, word_at};
use tape_words::wide::NEXT_WORD;

// What was written of a sentence: how many tests, how many stores, and the tape's next word.
#[derive(Clone, Copy)]
pub struct Body {
    pub tests: usize,
    pub symbols: usize,
    pub next: usize,
}

fn metric_number(parts: Parts) -> usize
    ensures { result ≡ metric_number parts }
{
    match parts {
        Parts::Zero => EXACTLY,
        Parts::One => ENDS,
        Parts::Two => MIDDLE,
    }
}

fn put_metric(lengths: Lengths, code: &mut CodeWriter)
    requires { (total lengths ≤ max_letters) × (code.old.at < 2 ^ 62) }
    ensures { Written code.old
        (code_word (metric_number lengths.parts) lengths.first lengths.second lengths.third ∷ []) code.new }
{
    let number = metric_number(lengths.parts);
    code.put_operands(number, lengths.first, lengths.second, lengths.third);
}

// Tests, conditions and stores.
fn write_matching(
    tape: &[u32],
    m: Pattern,
    symbols: &mut [Symbol],
    start: usize,
    code: &mut CodeWriter,
) -> Body
    requires symbols_len { length symbols.old ≡ max_letters }
    requires measures_all { MeasuresAll tape.now start m × (start ≤ length tape.now) × (code.old.at < 2 ^ 59) }
    ensures { MatchAll tape.now start code.old symbols.new code.new result }
{
    let from = code.count();
    let t = write_tests(tape, m.lengths, symbols, start, code);
    let known = &symbols[..t.symbols];
    let c = write_conditions(tape, m, known, t.next, code);
    let tests = code.count() - from;
    write_stores(known, code);
    Body {
        tests,
        symbols: t.symbols,
        next: c.next,
    }
}

// Tests, stores and actions.
fn write_body(
    tape: &[u32],
    heads: &[usize],
    m: Pattern,
    start: usize,
    code: &mut CodeWriter,
) -> Body
    requires { MeasuresAll tape.now start m × (length heads.now ≤ max_functions) × (start ≤ length tape.now) ×
        (code.old.at < 2 ^ 59) }
    ensures { BodyAll tape.now heads.now start code.old code.new result }
{
    let mut symbols = room();
    let matched = write_matching(tape, m, &mut symbols, start, code);
    let walk = write_expression(
        tape,
        heads,
        &symbols[..matched.symbols],
        m,
        matched.next + 1,
        code,
    );
    Body {
        next: walk.next,
        ..matched
    }
}

// A sentence. The word of its counts comes before its body, and is patched once the body is written.
fn write_sentence(tape: &[u32], heads: &[usize], start: usize, code: &mut CodeWriter) -> Body
    requires { (length heads.now ≤ max_functions) × (start ≤ length tape.now) × (code.old.at < 2 ^ 58) }
    ensures { SentenceAll tape.now heads.now start code.old code.new result }
{
    let m = measure(tape, start);
    put_metric(m.lengths, code);
    let counts = code.count();
    code.put(0);
    let from = code.count();
    let body = write_body(tape, heads, m, start, code);
    let size = code.count() - from;
    code.patch(
        counts,
        body.tests + OPERAND * (body.symbols + OPERAND * size),
    );
    body
}

// Another sentence follows.
fn follows(tape: &[u32], i: usize) -> bool
    ensures { result ≡ next_at (drop i tape.now) }
{
    of_kind(word_at(tape, i), NEXT_WORD)
}

// The sentences of a function from the tape's word `start` on, no more than a table may have.
fn write_sentences(tape: &[u32], heads: &[usize], start: usize, code: &mut CodeWriter)
    requires { (length heads.now ≤ max_functions) × (start ≤ length tape.now) × (code.old.at ≡ 0) }
    ensures { SentencesAll tape.now heads.now start code.old code.new }
{
    let mut next = start;
    // The loop's invariant speaks of `_count`, so it has a name.
    for _count in 0..MAX_SENTENCES {
        let body = write_sentence(tape, heads, next, code);
        if !follows(tape, body.next) {
            return;
        }
        next = body.next + 1;
    }
}

// The sentences of a function, and the word that ends them, with the number of the function that recovers this one.
// Handed back: how many words they are.
pub fn write_function(
    tape: &[u32],
    heads: &[usize],
    start: usize,
    recoverer: Option<usize>,
    code: &mut [u32],
) -> usize
    requires { (length heads.now ≤ max_functions) × (start ≤ length tape.now) × (place_number recoverer < third) }
    ensures { FunctionAll tape.now heads.now start (place_number recoverer) code.old
        code.new result }
{
    let mut writer = CodeWriter::new(code);
    write_sentences(tape, heads, start, &mut writer);
    let number = recoverer.map_or(0, |place| place + 1);
    writer.put(SENTENCES_END + FIRST * number);
    writer.count()
}
