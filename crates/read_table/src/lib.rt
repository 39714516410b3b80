// Reading a table text: its tree as a tape, or the number and place of its fault.
#![tactic(auto)]

mod calls;
mod functions;

ghost use Rattle.std.specs.Prelude.{◌≡◌};
ghost use Rattle.read_table.specs.Reads.{LongEnough, Reads, words_read};

use answers::{Fault, Refusal};
use calls::unknown_call;
use functions::functions;
use tape_words::limits::MAX_TABLE;
use tape_words::tape::room;

// How many functions an accepted table has, and how many words its tape.
#[derive(Clone, Copy)]
pub struct Reading {
    pub functions: usize,
    pub words: usize,
}

// How many words of the tape are a table's: a refused text has none.
pub fn words_read(reading: Result<Reading, Fault>) -> usize
    ensures { result ≡ words_read reading }
{
    match reading {
        Ok(reading) => reading.words,
        Err(_) => 0,
    }
}

// Reads a table text, and writes the words of its tree at the beginning of the tape; a refused text has none.
pub fn read(text: &[u8], tape: &mut [u32]) -> Result<Reading, Fault>
    requires { LongEnough text.now tape.old }
    ensures { Reads text.now result tape.new }
{
    if MAX_TABLE < text.len() {
        return Err(Fault {
            refusal: Refusal::TableTooLong,
            place: 0,
        });
    }
    let mut heads = room();
    let table = functions(text, tape, &mut heads)?;
    let words = table.words;
    let found = &heads[..table.functions];
    if let Some(place) = unknown_call(&tape[..words], found) {
        return Err(Fault {
            refusal: Refusal::UndeclaredName,
            place,
        });
    }
    Ok(Reading {
        functions: table.functions,
        words,
    })
}
