// Writing on the tape.
ghost use Rattle.std.specs.Prelude.{◌≡◌, ◌∷◌, ◌+◌, ◌-◌, ◌≤◌, ◌<◌, T, set};
ghost use Rattle.meaning.specs.Choice.{every};
ghost use Rattle.meaning.specs.Allowed.{max_table};
ghost use Rattle.tape_layout.specs.Tape.{function_word};
ghost use Rattle.read_tokens.specs.View.{IsClosed, characters_in, span_text};
ghost use Rattle.read_bookkeeping.specs.Tables.{Inside};
ghost use Rattle.read_bookkeeping.specs.Written.{is_quiet, Ready, WroteOnTape, string_from};

use read_characters::{Character, next_character};
use read_tokens::Span;

// A word past the tape's end is left out: `read_table::read` requires a tape on which none is.
pub fn put(tape: &mut [u32], at: usize, word: u32)
    ensures { tape.new ≡ set tape.old at word }
{
    if at < tape.len() {
        tape[at] = word;
    }
}

// The bytes of a part of the text.
pub fn put_bytes(text: &[u8], tape: &mut [u32], at: usize, x: Span) -> usize
    requires { Inside text.now x × (at + (x.past - x.from) ≤ max_table) }
    ensures { WroteOnTape tape.old at (span_text text.now x) result tape.new ×
        T (every is_quiet (span_text text.now x)) }
{
    let bytes = x.of(text);
    for (i, byte) in bytes.iter().enumerate() {
        put(tape, at + i, u32::from(*byte));
    }
    at + bytes.len()
}

// A word, and the bytes of a part of the text after it.
pub fn put_named(text: &[u8], tape: &mut [u32], at: usize, word: u32, x: Span) -> usize
    requires { Inside text.now x × (at + 1 + (x.past - x.from) ≤ max_table) }
    ensures { WroteOnTape tape.old at (word ∷ span_text text.now x) result tape.new ×
        T (every is_quiet (span_text text.now x)) }
{
    put(tape, at, word);
    put_bytes(text, tape, at + 1, x)
}

// A word of a kind and a name's length, and the name's bytes after it.
pub fn put_name(text: &[u8], tape: &mut [u32], at: usize, kind: usize, x: Span) -> usize
    requires { Inside text.now x × (at + 1 + (x.past - x.from) ≤ max_table) × (kind ≤ function_word) }
    ensures { WroteOnTape tape.old at
        ((kind + (x.past - x.from)) ∷ span_text text.now x) result tape.new
        × T (every is_quiet (span_text text.now x)) }
{
    let word = (kind + x.len()) as u32;
    put_named(text, tape, at, word, x)
}

// The characters of a string that is well formed, from the place after its opening quote.
pub fn put_characters(text: &[u8], tape: &mut [u32], at: usize, from: usize) -> usize
    requires { Ready text.now from at × IsClosed (string_from text.now from) }
    ensures { WroteOnTape tape.old at (characters_in (string_from text.now from)) result
        tape.new
        × T (every is_quiet (characters_in (string_from text.now from))) }
{
    let mut to = at;
    let mut i = from;
    // Each character begins where the one before it ended, so no `for` counts them.
    loop {
        match next_character(text, i) {
            Character::Given(byte, past) => {
                put(tape, to, u32::from(byte));
                to += 1;
                i = past;
            }
            Character::Nothing(past) => {
                i = past;
            }
            Character::Closed(_) | Character::Broken(_) => return to,
        }
    }
}
