// The public entry points over reading, listing, translating and running. The crate engine_c exports them for C.
#![tactic(auto)]

pub mod flat;
pub mod profile;

ghost use Rattle.std.specs.Prelude.{◌≡◌, length};
ghost use Rattle.meaning.specs.Reading.{read};
ghost use Rattle.meaning.specs.Entries.{read_answer, written, listed, translated};
ghost use Rattle.meaning.specs.Leaving.{leaving};
ghost use Rattle.run_code.specs.Leaving.{cells};
ghost use Rattle.engine_tables.specs.Told.{told_words};
ghost use Rattle.engine.specs.Told.{Runs};
ghost use Rattle.engine.specs.TableRuns.{Reports, table_run};

use crate::profile::refal0_profile;
use answers::Fault;
use engine_tables::{list_table, read_table, translate_table};
pub use run_actions::frames::COUNTED;
pub use run_actions::registers::Ran;

// Number, place, and what is counted: functions, bytes of the listing or words of code.
fn answer_words(told: Result<usize, Fault>) -> [u64; 3]
    ensures { result ≡ told_words told }
{
    match told {
        Ok(count) => [0, 0, count as u64],
        Err(fault) => [u64::from(fault.refusal), fault.place as u64, 0],
    }
}

// Number, place, functions.
pub fn refal0_read(table: &[u8], answer: &mut [u64; 3])
    ensures { answer.new ≡ read_answer (read table.now) }
{
    *answer = answer_words(read_table(table));
}

// Number, place, length of the listing.
pub fn refal0_list(table: &[u8], listing: &mut [u8], answer: &mut [u64; 3])
    ensures { written answer.new listing.new ≡
        listed (read table.now) listing.old }
{
    *answer = answer_words(list_table(table, listing));
}

// Number, place, words of code.
pub fn refal0_translate(table: &[u8], code: &mut [u32], answer: &mut [u64; 3])
    ensures { written answer.new code.new ≡
        translated (read table.now) (length code.old) }
{
    *answer = answer_words(translate_table(table, code));
}

// Room for a run's counts, where nobody asks for them.
fn count_room() -> [u64; COUNTED] {
    [0u64; COUNTED]
}

// Answer, function, steps, length of the text, length of the emissions.
pub fn refal0_run(
    code: &[u32],
    start: usize,
    text: &[u8],
    stack_in: &mut [u8],
    stack_out: &mut [u8],
    record: &mut [u8],
    allowance: u32,
    answer: &mut [u64; 5],
)
    ensures { Runs answer.new
        (cells stack_in.new stack_out.new «record».new)
        (leaving code.now start text.now
        (cells stack_in.old stack_out.old «record».old) allowance) }
{
    let mut counts = count_room();
    refal0_profile(
        code,
        start,
        text,
        stack_in,
        stack_out,
        record,
        allowance,
        answer,
        &mut counts,
    );
}

// Translates a table and runs its code; an error is that of the table, or of code that is longer than `code`. `counts`
// tells how often each function was applied.
pub fn translate_and_run(
    table: &[u8],
    code: &mut [u32],
    start: usize,
    text: &[u8],
    stack_in: &mut [u8],
    stack_out: &mut [u8],
    record: &mut [u8],
    allowance: u32,
    counts: &mut [u64; COUNTED],
) -> Result<Ran, Fault>
    ensures { Reports result counts.new code.new
        (cells stack_in.new stack_out.new «record».new)
        (table_run (read table.now) (length code.old) start text.now
        (cells stack_in.old stack_out.old «record».old) allowance) }
{
    *counts = [0u64; COUNTED];
    translate_table(table, code)?;
    let ran = run_code::run(
        code, start, text, stack_in, stack_out, record, allowance, counts,
    );
    Ok(ran)
}
