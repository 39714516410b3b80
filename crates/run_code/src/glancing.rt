// A run on a long text that its first application ends, told at a glance: the text is not copied.
ghost use Rattle.std.specs.Prelude.{◌≤◌, ◌<◌, ◌^◌, ◌≡◌, length, get_or, drop};
ghost use Rattle.meaning.specs.Outcome.{max_counted, uncounted};
ghost use Rattle.meaning.specs.Matching.{choose_from};
ghost use Rattle.meaning.specs.Runs.{run_lent};
ghost use Rattle.meaning.specs.Packing.{unpack_sentences};
ghost use Rattle.meaning.specs.Leaving.{room_of, after_run};
ghost use Rattle.run_actions.specs.States.{first_frames, words_for, values_for, counts_in, counted_in, CountsWithin};
ghost use Rattle.run_applications.specs.Waiting.{count_in, functions_in};
ghost use Rattle.run_code.specs.Leaving.{cells, Leaves, cleared_from, ended_with, Foreseen};

use crate::following::{clear_from, run_lent};
use answers::Ending;
use run_actions::frames::count_application;
use run_actions::registers::Ran;
use run_code_places::{CodePlace, wide};
use run_glancing::{Seen, glance};

// A shorter text is copied in less time than a glance may take.
const LONG_TEXT: usize = 1024;

// What is seen of the start's application, where the text is long and a step is allowed.
fn foresee(code: &[u32], start: usize, text: &[u8], allowance: u32) -> Seen
    requires { start < length code.now }
    ensures { Foreseen result allowance (choose_from
        (unpack_sentences 0 (drop (get_or code.now start 0) code.now)) text.now) }
{
    if text.len() < LONG_TEXT || allowance == 0 {
        return Seen::Perhaps;
    }
    glance(code, CodePlace(wide(code[start])), text)
}

// The run has ended with the start's application: one step, no text, and both stacks zero.
fn end_at_once(
    ending: Ending,
    function: usize,
    start: usize,
    input: &mut [u8],
    output: &mut [u8],
    frames: &mut [usize],
) -> Ran
    requires start_nonzero { 0 < start }
    requires max_counted_in_bounds { max_counted ≤ length frames.old }
    requires counts_within { CountsWithin (2 ^ 32) frames.old }
    ensures { (result ≡ ended_with ending function) × ((frames.new ≡ counted_in start frames.old) ×
        ((input.new ≡ cleared_from 0 input.old) ×
        (output.new ≡ cleared_from 0 output.old))) }
{
    count_application(frames, start);
    clear_from(input, 0);
    clear_from(output, 0);
    Ran {
        ending,
        function,
        steps: 1,
        text: 0,
        emissions: 0,
    }
}

// A run on lent cells, ended at once where that can be foreseen.
pub fn run_foreseen(
    code: &[u32],
    start: usize,
    text: &[u8],
    input: &mut [u8],
    output: &mut [u8],
    record: &mut [u8],
    frames: &mut [usize],
    values: &mut [u8],
    allowance: u32,
) -> Ran
    requires code_in_bounds { count_in code.now < length code.now }
    requires start_nonzero { 0 < start }
    requires start_bound { start ≤ count_in code.now }
    requires text_in_bounds { length text.now ≤ length input.old }
    requires frames_len { length frames.old ≡ words_for first_frames }
    requires values_len { length values.old ≡ values_for first_frames }
    requires frames_value { counts_in frames.old ≡ uncounted }
    ensures { Leaves result (counts_in frames.new)
        (cells input.new output.new «record».new)
        (after_run (run_lent (room_of (cells input.old output.old «record».old))
        (functions_in code.now) start text.now allowance)
        (cells input.old output.old «record».old)) }
{
    match foresee(code, start, text, allowance) {
        Seen::Nothing => end_at_once(Ending::NoSentenceFits, start, start, input, output, frames),
        Seen::Dropped => end_at_once(Ending::Finished, 0, start, input, output, frames),
        Seen::Perhaps => run_lent(
            code, start, text, input, output, record, frames, values, allowance,
        ),
    }
}
