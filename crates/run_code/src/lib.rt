// The two-stack string machine on code words.
#![tactic(auto)]

ghost use Rattle.std.specs.Prelude.{◌≤◌, ◌≡◌, length};
ghost use Rattle.meaning.specs.Outcome.{max_counted};
ghost use Rattle.meaning.specs.Leaving.{leaving};
ghost use Rattle.run_actions.specs.States.{counts_in};
ghost use Rattle.run_code.specs.Leaving.{cells, Leaves};

mod following;
mod glancing;

use crate::following::{refused, sound_table};
use crate::glancing::run_foreseen;
use answers::Ending;
use run_actions::frames::{COUNTED, copy_counts, first_values, first_words};
use run_actions::registers::Ran;
use run_applications::declared;

// The applications of each function, as they are handed back.
fn counts_of(frames: &[usize]) -> [u64; COUNTED]
    requires { max_counted ≤ length frames.now }
    ensures result { result ≡ counts_in frames.now }
{
    let mut counts = [0u64; COUNTED];
    copy_counts(frames, &mut counts);
    counts
}

// A run of code words: what is answered, what is left in the lent cells, and how often each function was applied.
pub fn run(
    code: &[u32],
    start: usize,
    text: &[u8],
    input: &mut [u8],
    output: &mut [u8],
    record: &mut [u8],
    allowance: u32,
    counts: &mut [u64; COUNTED],
) -> Ran
    ensures leaves { let before = cells input.old output.old «record».old in
        Leaves result counts.new (cells input.new output.new «record».new)
        (leaving code.now start text.now before allowance) }
{
    if !sound_table(code) {
        return refused(Ending::NoInstruction, counts);
    }
    if !declared(code, start) {
        return refused(Ending::NoSuchStart, counts);
    }
    if input.len() < text.len() {
        return refused(Ending::TextTooLong, counts);
    }
    let mut frames = first_words();
    let mut values = first_values();
    let ran = run_foreseen(
        code,
        start,
        text,
        input,
        output,
        record,
        &mut frames,
        &mut values,
        allowance,
    );
    *counts = counts_of(&frames);
    ran
}
