// The engine's entry points as a static library: each export calls the function of its name in the crate engine, and
// says what that says. include/refal0.h declares them; a slice is a pointer and a length there.
#![tactic(auto)]

ghost use Rattle.std.specs.Prelude.{◌≡◌, length};
ghost use Rattle.meaning.specs.Reading.{read};
ghost use Rattle.meaning.specs.Entries.{read_answer, written, listed, translated, flat_answer};
ghost use Rattle.meaning.specs.Leaving.{leaving};
ghost use Rattle.run_code.specs.Leaving.{cells};
ghost use Rattle.engine.specs.Told.{Runs, Profiles};

use engine::COUNTED;

// Number, place, functions.
#[unsafe(no_mangle)]
pub extern "C" fn refal0_read(table: &[u8], answer: &mut [u64; 3])
    ensures { answer.new ≡ read_answer (read table.now) }
{
    engine::refal0_read(table, answer);
}

// Number, place, length of the listing.
#[unsafe(no_mangle)]
pub extern "C" fn refal0_list(table: &[u8], listing: &mut [u8], answer: &mut [u64; 3])
    ensures { written answer.new listing.new ≡
        listed (read table.now) listing.old }
{
    engine::refal0_list(table, listing, answer);
}

// Number, place, words of code.
#[unsafe(no_mangle)]
pub extern "C" fn refal0_translate(table: &[u8], code: &mut [u32], answer: &mut [u64; 3])
    ensures { written answer.new code.new ≡
        translated (read table.now) (length code.old) }
{
    engine::refal0_translate(table, code, answer);
}

// Number, place, functions: 19 with the place of the name of the leftmost declared call that is no tail call.
#[unsafe(no_mangle)]
pub extern "C" fn refal0_flat(table: &[u8], answer: &mut [u64; 3])
    ensures { answer.new ≡ flat_answer (read table.now) }
{
    engine::flat::refal0_flat(table, answer);
}

// Answer, function, steps, length of the text, length of the emissions.
#[unsafe(no_mangle)]
pub extern "C" fn refal0_run(
    code: &[u32],
    start: usize,
    text: &[u8],
    stack_in: &mut [u8],
    stack_out: &mut [u8],
    record: &mut [u8],
    allowance: u32,
    answer: &mut [u64; 5],
)
    ensures { Runs answer.new
        (cells stack_in.new stack_out.new «record».new)
        (leaving code.now start text.now
        (cells stack_in.old stack_out.old «record».old) allowance) }
{
    engine::refal0_run(
        code, start, text, stack_in, stack_out, record, allowance, answer,
    );
}

// As `refal0_run`, and in `counts` the applications of functions 1 to 64.
#[unsafe(no_mangle)]
pub extern "C" fn refal0_profile(
    code: &[u32],
    start: usize,
    text: &[u8],
    stack_in: &mut [u8],
    stack_out: &mut [u8],
    record: &mut [u8],
    allowance: u32,
    answer: &mut [u64; 5],
    counts: &mut [u64; COUNTED],
)
    ensures { Profiles answer.new counts.new
        (cells stack_in.new stack_out.new «record».new)
        (leaving code.now start text.now
        (cells stack_in.old stack_out.old «record».old) allowance) }
{
    engine::profile::refal0_profile(
        code, start, text, stack_in, stack_out, record, allowance, answer, counts,
    );
}
