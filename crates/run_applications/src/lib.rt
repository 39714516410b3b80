// An application of a function: the start, a call, a tail call, and its end.
#![tactic(auto)]

ghost use Rattle.std.specs.Prelude.{ℕ, ◌+◌, ◌*◌, ◌-◌, ◌≤◌, ◌<◌, ◌≡◌, true, false, length, drop};
ghost use Rattle.meaning.specs.Choice.{Bytes};
ghost use Rattle.meaning.specs.Matching.{stored_cell, stored_values};
ghost use Rattle.meaning.specs.Machine.{is_declared};
ghost use Rattle.meaning.specs.Instructions.{call as calling};
ghost use Rattle.meaning.specs.Packing.{store_of, unpack_stores, max_stored};
ghost use Rattle.run_code_places.specs.Options.{option_meant};
ghost use Rattle.run_applications.specs.Storing.{Stores};
ghost use Rattle.run_decoding.specs.Decoded.{call_meant};
ghost use Rattle.run_actions.specs.States.{memory, SelectionWithin, FrameWithin, Paired, crowded_at, CountsWithin};
ghost use Rattle.run_actions.specs.States.{values_for};
ghost use Rattle.run_applications.specs.Waiting.{count_in, functions_in, left_by, recovered_by};
ghost use Rattle.run_applications.specs.Simulation.{SimulatesAction, SimulatesApplication, SimulatesSentence};

pub mod program;

use crate::program::Program;
use answers::Ending;
use code_numbers::STORE;
use code_numbers::words::CodeWord;
use run_actions::frames::{
    FRAME_VALUES, FRAMES, begin_frame, count_application, keep_caller, kept_selection, return_place,
};
use run_actions::registers::{Next, Registers};
use run_cells::places::part;
use run_code_places::{CodePlace, Wrong, wide};
use run_decoding::{Call, CallKind};
use run_matching::{Choice, choose};
use run_sites::cell_at;

pub fn declared(code: &[u32], number: usize) -> bool
    requires { count_in code.now < length code.now }
    ensures result { result ≡ is_declared (functions_in code.now) number }
{
    number != 0 && number <= wide(code[0])
}

// The values of a sentence's stores, kept for a frame, and where the words after them begin; Wrong where a store asks
// for a cell that isn't there.
fn store_values(
    code: &[u32],
    stores: CodePlace,
    count: usize,
    field: &[u8],
    place: usize,
    values: &mut [u8],
    frame: usize,
) -> Result<CodePlace, Wrong>
    requires { values_for frame + count ≤ length values.old }
    ensures stores { let asked = unpack_stores count (drop stores.0 code.now) in
        Stores (values_for frame) count (stores.0 + count) (stored_values asked field.now place)
        values.old values.new result }
{
    let base = FRAME_VALUES * frame;
    // A place is counted only once the word before it is there: `stores.0 + i` might not fit.
    let mut at = stores.0;
    for i in 0..count {
        if code.len() <= at {
            return Err(Wrong);
        }
        let Some(byte) = stored_cell(field, place, CodeWord(code[at])) else {
            return Err(Wrong);
        };
        values[base + i] = byte;
        at += 1;
    }
    Ok(CodePlace(at))
}

// The cell that a store's word asks for.
fn stored_cell(field: &[u8], place: usize, word: CodeWord) -> Option<u8>
    ensures { option_meant result ≡ stored_cell (store_of word.0) field.now place }
{
    if word.number() != STORE {
        return None;
    }
    cell_at(field, place, word.first(), word.second())
}

// The actions of the sentence chosen for the field are next, in the frame of the registers.
fn start_sentence(
    g: Registers,
    code: &[u32],
    place: usize,
    stores: CodePlace,
    stored: usize,
    input: &[u8],
    frames: &mut [usize],
    values: &mut [u8],
) -> Next
    requires selection_within { SelectionWithin g.p.0 g.q.0 input.now }
    requires frame_within { FrameWithin g.frame frames.old }
    requires paired { Paired frames.old values.old }
    requires stored_le_max_stored { stored ≤ max_stored }
    ensures simulates { (allowance : ℕ) (output «record» : Bytes) →
        let m = memory input.now output «record» frames.old values.old in
        let n = memory input.now output «record» frames.new values.new in
        SimulatesSentence code.now allowance place stores.0 stored g m result n }
{
    let field = part(input, g.p, g.q);
    let Ok(actions) = store_values(code, stores, stored, field, place, values, g.frame) else {
        return g.stopped(Ending::NoInstruction);
    };
    begin_frame(frames, g.frame, field.len(), place, stored);
    Next::Onward(Registers {
        q: g.p,
        at: actions,
        callee: 0,
        ..g
    })
}

// Where no sentence fits: 11, or the function that recovers this one is to be applied next, as by a tail call.
fn recover(g: Registers, code: &[u32], number: usize, recoverer: usize) -> Next
    ensures result { result ≡ recovered_by (length code.now) number recoverer g }
{
    if recoverer == 0 {
        return Next::Stopped(g, Ending::NoSentenceFits, number);
    }
    Next::Onward(Registers {
        at: CodePlace(code.len()),
        callee: recoverer,
        ..g
    })
}

// One application in the frame of the registers: 12, or a step and the sentence chosen for the field.
pub fn apply(
    g: Registers,
    program: Program,
    number: usize,
    input: &[u8],
    frames: &mut [usize],
    values: &mut [u8],
) -> Next
    requires number_nonzero { 0 < number }
    requires number_bound { number ≤ count_in program.code.now }
    requires selection_within { SelectionWithin g.p.0 g.q.0 input.now }
    requires frame_within { FrameWithin g.frame frames.old }
    requires paired { Paired frames.old values.old }
    requires counts_within { CountsWithin g.steps frames.old }
    ensures simulates { (output «record» : Bytes) →
        let m = memory input.now output «record» frames.old values.old in
        let n = memory input.now output «record» frames.new values.new in
        SimulatesApplication program.entry.code.now program.entry.allowance number g m result n }
{
    let steps = g.steps;
    let allowed = program.allowance as usize;
    if allowed <= steps {
        return g.stopped(Ending::AllowanceSpent);
    }
    let paid = Registers {
        steps: steps + 1,
        ..g
    };
    count_application(frames, number);
    let field = part(input, g.p, g.q);
    let code = program.code;
    match choose(program.classes, code, CodePlace(wide(code[number])), field) {
        Ok(
            Choice::Sentence {
                place,
                stores,
                stored,
            },
        ) => start_sentence(paid, code, place, stores, stored, input, frames, values),
        Ok(Choice::Nothing(recoverer)) => recover(paid, code, number, recoverer),
        Err(Wrong) => paid.stopped(Ending::NoInstruction),
    }
}

// A call that adds a frame, which is empty until the application begins; the caller's waits for it.
fn framed_call(g: Registers, program: Program, number: usize, frames: &mut [usize]) -> Next
    requires number_value { is_declared (functions_in program.code.now) number ≡ true }
    requires frame_within { FrameWithin g.frame frames.old }
    requires frames_value { crowded_at g.frame frames.old ≡ false }
    ensures simulates { (input output «record» values : Bytes) →
        let m = memory input output «record» frames.old values in
        let n = memory input output «record» frames.new values in
        SimulatesAction program.entry.code.now program.entry.allowance (calling number) g.at.0 g m result n }
{
    let allowed = program.allowance as usize;
    if allowed <= g.steps {
        return g.stopped(Ending::AllowanceSpent);
    }
    let frame = g.frame + 1;
    if FRAMES <= frame {
        return g.stopped(Ending::FramesFull);
    }
    keep_caller(frames, g.frame, g.at, g.q);
    begin_frame(frames, frame, 0, 0, 0);
    Next::Onward(Registers {
        frame,
        at: CodePlace(program.code.len()),
        callee: number,
        ..g
    })
}

// A call, or a tail call, which takes the caller's frame: its function's application is to begin next, at no place of
// the code.
pub fn call(g: Registers, program: Program, what: Call, frames: &mut [usize]) -> Next
    requires frame_within { FrameWithin g.frame frames.old }
    requires frames_value { crowded_at g.frame frames.old ≡ false }
    ensures simulates { (input output «record» values : Bytes) →
        let m = memory input output «record» frames.old values in
        let n = memory input output «record» frames.new values in
        SimulatesAction program.entry.code.now program.entry.allowance (call_meant what) g.at.0 g m result n }
{
    let number = what.function;
    if !declared(program.code, number) {
        return g.stopped(Ending::NoInstruction);
    }
    match what.kind {
        CallKind::Framed => framed_call(g, program, number, frames),
        CallKind::Tail => Next::Onward(Registers {
            at: CodePlace(program.code.len()),
            callee: number,
            ..g
        }),
    }
}

// The end of an application: the frame below goes on, its q where it was unless p has passed it, or the run is done.
pub fn leave(g: Registers, frames: &[usize]) -> Next
    requires { FrameWithin g.frame frames.now }
    ensures result { result ≡ left_by g frames.now }
{
    if g.frame == 0 {
        return Next::Done(g);
    }
    let frame = g.frame - 1;
    Next::Onward(Registers {
        q: g.p.later(kept_selection(frames, frame)),
        frame,
        at: return_place(frames, frame),
        ..g
    })
}
