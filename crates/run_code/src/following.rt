// A run: the loop over instructions, what comes before it and after it.
ghost use Rattle.std.specs.Prelude.{◌-◌, ◌≤◌, ◌<◌, ◌^◌, ◌≡◌, length, ltb};
ghost use Rattle.std.specs.List.{list_all};
ghost use Rattle.run_actions.specs.declared.registers.Next.TheVariants.{Onward};
ghost use Rattle.meaning.specs.Outcome.{uncounted};
ghost use Rattle.meaning.specs.Runs.{run_lent};
ghost use Rattle.meaning.specs.Leaving.{room_of, after_run};
ghost use Rattle.run_actions.specs.States.{first_frames, words_for, values_for, counts_in, memory};
ghost use Rattle.run_applications.specs.Waiting.{count_in, sound_in, functions_in};
ghost use Rattle.run_applications.specs.Simulation.{Invariant, NextInvariant, registers_in};
ghost use Rattle.run_turns.specs.Turns.{IsOver};
ghost use Rattle.run_code.specs.Following.{SimulatesUntil, HasEnded};
ghost use Rattle.run_code.specs.Leaving.{cells, Leaves, refused_with, finished_with, reported_of};
ghost use Rattle.run_code.specs.Leaving.{cleared_from, loaded_with};

use answers::Ending;
use byte_classes::ClassTable;
use run_actions::frames::{COUNTED, all_values, all_words, begin_frame, copy_words};
use run_actions::registers::{Next, Ran, Registers};
use run_applications::program::Program;
use run_cells::copying::{copy_over, copy_to};
use run_cells::places::{InCell, OutCell};
use run_code_places::{CodePlace, wide};
use run_turns::{is_onward, next_of, registers_of, status_of, step};

// A run that doesn't begin: nothing is counted.
pub fn refused(ending: Ending, counts: &mut [u64; COUNTED]) -> Ran
    ensures result { result ≡ refused_with ending }
    ensures leaves { counts.new ≡ uncounted }
{
    *counts = [0u64; COUNTED];
    Ran {
        ending,
        function: 0,
        steps: 0,
        text: 0,
        emissions: 0,
    }
}

fn are_below(size: usize, places: &[u32]) -> bool
    ensures { result ≡ list_all (λ place. ltb place size) places.now }
{
    places.iter().all(|place| wide(*place) < size)
}

// The code has its count word, an entry for each function, and each entry names a place inside the code.
pub fn sound_table(code: &[u32]) -> bool
    ensures result { result ≡ sound_in code.now }
{
    if code.is_empty() {
        return false;
    }
    let count = wide(code[0]);
    if code.len() <= count {
        return false;
    }
    are_below(code.len(), &code[1..count + 1])
}

// The run from an answer on, turn by turn, to its end or to where it needs more frames.
fn follow(
    first: Next,
    program: Program,
    input: &mut [u8],
    output: &mut [u8],
    record: &mut [u8],
    frames: &mut [usize],
    values: &mut [u8],
) -> Next
    requires next_invariant { NextInvariant program.allowance first
        (memory input.old output.old «record».old frames.old values.old) }
    ensures simulates { SimulatesUntil IsOver program.entry.code.now program.entry.allowance first
        (memory input.old output.old «record».old
        frames.old values.old) result
        (memory input.new output.new «record».new
        frames.new values.new) }
{
    let mut g = registers_of(first);
    let mut status = status_of(first);
    // A turn of the machine each time: there is nothing to iterate over.
    while is_onward(status) {
        status = step(&mut g, program, input, output, record, frames, values);
    }
    next_of(status, g)
}

// The run from an answer on to its end, in a room for all frames from where it needs more than are lent.
fn follow_all(
    first: Next,
    program: Program,
    input: &mut [u8],
    output: &mut [u8],
    record: &mut [u8],
    frames: &mut [usize],
    values: &mut [u8],
) -> Next
    requires next_invariant { NextInvariant program.allowance first
        (memory input.old output.old «record».old frames.old values.old) }
    requires frames_len { length frames.old ≡ words_for first_frames }
    requires values_len { length values.old ≡ values_for first_frames }
    ensures simulates { SimulatesUntil HasEnded program.entry.code.now program.entry.allowance first
        (memory input.old output.old «record».old
        frames.old values.old) result
        (memory input.new output.new «record».new
        frames.new values.new) }
{
    let last = follow(first, program, input, output, record, frames, values);
    let Next::Deeper(g) = last else {
        return last;
    };
    follow_deeper(g, program, input, output, record, frames, values)
}

// The run goes on in a room for all frames, which begins as the one that was lent; the counts come back. No run needs
// more than all, so the function never calls itself; but since it might, the compiler puts its room into no other
// function, and only a run that goes so deep has it on its stack.
fn follow_deeper(
    g: Registers,
    program: Program,
    input: &mut [u8],
    output: &mut [u8],
    record: &mut [u8],
    frames: &mut [usize],
    values: &[u8],
) -> Next
    requires invariant { Invariant program.allowance g
        (memory input.old output.old «record».old frames.old values.now) }
    requires frames_len { length frames.old ≡ words_for first_frames }
    requires values_len { length values.now ≡ values_for first_frames }
    ensures simulates { SimulatesUntil HasEnded program.entry.code.now program.entry.allowance (Onward g)
        (memory input.old output.old «record».old
        frames.old values.now) result
        (memory input.new output.new «record».new
        frames.new values.now) }
{
    let mut words = all_words();
    copy_words(frames, frames.len(), &mut words);
    let mut stored = all_values();
    copy_over(&mut stored, 0, values);
    let next = follow(
        Next::Onward(g),
        program,
        input,
        output,
        record,
        &mut words,
        &mut stored,
    );
    let Next::Deeper(h) = next else {
        copy_words(&words, COUNTED, frames);
        return next;
    };
    let last = follow_deeper(h, program, input, output, record, &mut words, &stored);
    copy_words(&words, COUNTED, frames);
    last
}

pub fn clear_from(cells: &mut [u8], start: usize)
    requires { start ≤ length cells.old }
    ensures leaves { cells.new ≡ cleared_from start cells.old }
{
    cells[start..].fill(0);
}

// A run that is done gives the text on out. Its steps fit: they are no more than its allowance.
fn finished(g: Registers) -> Ran
    requires { g.steps < 2 ^ 32 }
    ensures result { result ≡ finished_with g }
{
    Ran {
        ending: Ending::Finished,
        function: 0,
        steps: g.steps as u32,
        text: g.r.count_before(),
        emissions: g.emitted,
    }
}

fn reported(next: Next) -> Ran
    requires { (registers_in next).steps < 2 ^ 32 }
    ensures result { result ≡ reported_of next }
{
    match next {
        Next::Onward(g) | Next::Done(g) | Next::Deeper(g) => finished(g),
        Next::Stopped(g, ending, function) => Ran {
            ending,
            function,
            steps: g.steps as u32,
            text: 0,
            emissions: g.emitted,
        },
    }
}

// The text lies on in as the field, out is empty, nothing is counted yet, and the start's application is to begin.
fn loaded(cells: usize, text: usize, start: usize) -> Registers
    requires { text ≤ cells }
    ensures result { result ≡ loaded_with cells text start }
{
    Registers {
        p: InCell::new(cells - text),
        q: InCell::new(cells),
        r: OutCell::new(0),
        frame: 0,
        at: CodePlace(0),
        steps: 0,
        emitted: 0,
        callee: start,
    }
}

pub fn run_lent(
    code: &[u32],
    start: usize,
    text: &[u8],
    input: &mut [u8],
    output: &mut [u8],
    record: &mut [u8],
    frames: &mut [usize],
    values: &mut [u8],
    allowance: u32,
) -> Ran
    requires code_in_bounds { count_in code.now < length code.now }
    requires start_nonzero { 0 < start }
    requires start_bound { start ≤ count_in code.now }
    requires text_in_bounds { length text.now ≤ length input.old }
    requires frames_len { length frames.old ≡ words_for first_frames }
    requires values_len { length values.old ≡ values_for first_frames }
    requires frames_value { counts_in frames.old ≡ uncounted }
    ensures leaves { let before = cells input.old output.old «record».old in
        let functions = functions_in code.now in
        let outcome = run_lent (room_of before) functions start text.now allowance in
        Leaves result (counts_in frames.new) (cells input.new output.new «record».new)
        (after_run outcome before) }
{
    let g = loaded(input.len(), text.len(), start);
    copy_to(input, g.p, text);
    begin_frame(frames, 0, 0, 0, 0);
    let classes = ClassTable::new();
    let program = Program {
        classes: &classes,
        code,
        allowance,
    };
    let last = follow_all(
        Next::Onward(g),
        program,
        input,
        output,
        record,
        frames,
        values,
    );
    let ran = reported(last);
    clear_from(input, 0);
    clear_from(output, ran.text);
    ran
}
