// What is asked of a table text: whether it is accepted and whether it is flat, its listing, its code.
#![tactic(auto)]

ghost use Rattle.std.specs.Prelude.{◌≡◌, ℕ, List, length};
ghost use Rattle.std.specs.Fn.{FnOnceTakesAtMut};
ghost use Rattle.meaning.specs.Reading.{read};
ghost use Rattle.meaning.specs.Entries.{read_answer, flat_answer, written, listed, translated};
ghost use Rattle.read_table.specs.Reads.{LongEnough};
ghost use Rattle.engine_tables.specs.Told.{told_words, buffer_answer, OnTape};

use answers::{Fault, Refusal};
use read_table::words_read;
use tape_flatness::nested_call;
use tape_words::limits::MAX_TABLE;

// A table of so many bytes or fewer is read on a short tape, which is cleared in little time.
const SHORT_TABLE: usize = 2048;

// The tapes, in functions of their own, so that no caller's facts hold their elements.
pub fn tape_room() -> [u32; MAX_TABLE] {
    [0u32; MAX_TABLE]
}

fn short_tape_room() -> [u32; SHORT_TABLE] {
    [0u32; SHORT_TABLE]
}

// 17 where what should be written is longer than the lent buffer.
fn fitting(count: Option<usize>) -> Result<usize, Fault>
    ensures { told_words result ≡ buffer_answer count }
{
    count.ok_or(Fault {
        refusal: Refusal::BufferTooShort,
        place: 0,
    })
}

// Not put into its caller, where the short and the long tape would both stand on the stack.
#[inline(never)]
fn read_on(table: &[u8], tape: &mut [u32]) -> Result<usize, Fault>
    requires { LongEnough table.now tape.old }
    ensures { told_words result ≡ read_answer (read table.now) }
{
    let reading = read_table::read(table, tape)?;
    Ok(reading.functions)
}

// Asks something of a table with a tape that is long enough to read it on.
fn on_tape<F: FnOnce(&mut [u32]) -> Result<usize, Fault>>(
    table: &[u8],
    ask: F,
) -> Result<usize, Fault>
    requires { (tape : List ℕ) → LongEnough table.now tape → FnOnceTakesAtMut F.FnOnce ask tape }
    ensures { OnTape F.FnOnce ask result }
{
    if table.len() <= SHORT_TABLE {
        let mut tape = short_tape_room();
        return ask(&mut tape);
    }
    let mut tape = tape_room();
    ask(&mut tape)
}

// How many functions an accepted table has.
pub fn read_table(table: &[u8]) -> Result<usize, Fault>
    ensures { told_words result ≡ read_answer (read table.now) }
{
    on_tape(table, |tape| read_on(table, tape))
}

// 19 where a declared call is no tail call.
fn flat_on(table: &[u8], tape: &mut [u32]) -> Result<usize, Fault>
    requires { LongEnough table.now tape.old }
    ensures { told_words result ≡ flat_answer (read table.now) }
{
    let reading = read_table::read(table, tape)?;
    let words = reading.words;
    match nested_call(&tape[..words]) {
        Some(place) => Err(Fault {
            refusal: Refusal::NotTailCall,
            place,
        }),
        None => Ok(reading.functions),
    }
}

pub fn flat_table(table: &[u8]) -> Result<usize, Fault>
    ensures { told_words result ≡ flat_answer (read table.now) }
{
    on_tape(table, |tape| flat_on(table, tape))
}

// The bytes of the listing. After a refusal, and where the buffer is too short, the buffer is unchanged.
pub fn list_table(table: &[u8], buffer: &mut [u8]) -> Result<usize, Fault>
    ensures { written (told_words result) buffer.new ≡
        listed (read table.now) buffer.old }
{
    let mut tape = tape_room();
    let reading = read_table::read(table, &mut tape)?;
    let words = reading.words;
    fitting(list_table::list(&tape[..words], buffer))
}

// The words of code. A refused table has an empty tape, whose code is a single 0: so its code buffer is left all zero.
pub fn translate_table(table: &[u8], code: &mut [u32]) -> Result<usize, Fault>
    ensures { written (told_words result) code.new ≡
        translated (read table.now) (length code.old) }
{
    let mut tape = tape_room();
    let reading = read_table::read(table, &mut tape);
    let words = words_read(reading);
    let translated = code_table::translate(&tape[..words], code);
    reading?;
    fitting(translated)
}
