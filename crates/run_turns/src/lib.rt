// One turn of a run: on registers by value, and on registers that are lent.
#![tactic(auto)]

ghost use Rattle.std.specs.Prelude.{ℕ, ◌≤◌, ◌<◌, ◌≡◌, length};
ghost use Rattle.meaning.specs.Choice.{Bytes};
ghost use Rattle.run_actions.specs.States.{memory, SelectionWithin, FrameWithin, Held, Paired, CountsWithin};
ghost use Rattle.run_applications.specs.Simulation.{Invariant, registers_in};
ghost use Rattle.run_turns.specs.Turns.{span_number, status_in, next_of, is_onward, kept_of};
ghost use Rattle.run_turns.specs.Turns.{ActingInvariant, SomeActingInvariant};
ghost use Rattle.run_turns.specs.Turns.{SimulatesEntry, SimulatesTry, SimulatesUse};
ghost use Rattle.run_turns.specs.Turns.{SimulatesInstruction, SimulatesTurn};

use answers::Ending;
use code_numbers::{BEGIN_SEQ, GO, SELECT, USE_SEQ};
use run_actions::computing::compute;
use run_actions::emitting::emit;
use run_actions::frames::crowded;
use run_actions::moving::{begin_seq, go, open_sequence, select, use_seq, write};
use run_actions::registers::{Next, Registers, Status};
use run_applications::program::Program;
use run_applications::{apply, call, declared, leave};
use run_code_places::CodePlace;
use run_decoding::{Instruction, decode, find_word};

// The application that is to begin, if there is one; after it actions come, or another application.
fn enter(
    g: Registers,
    program: Program,
    input: &[u8],
    frames: &mut [usize],
    values: &mut [u8],
) -> Next
    requires selection_within { SelectionWithin g.p.0 g.q.0 input.now }
    requires frame_within { FrameWithin g.frame frames.old }
    requires paired { Paired frames.old values.old }
    requires counts_within { CountsWithin g.steps frames.old }
    ensures simulates { (output «record» : Bytes) →
        let m = memory input.now output «record» frames.old values.old in
        let n = memory input.now output «record» frames.new values.new in
        Invariant program.entry.allowance g m →
        SimulatesEntry program.entry.code.now program.entry.allowance g m result n }
{
    let number = g.callee;
    if !declared(program.code, number) {
        return Next::Onward(Registers { callee: 0, ..g });
    }
    apply(g, program, number, input, frames, values)
}

// The registers after an action that was tried, those before it where it can't be done.
fn kept(next: Next, g: Registers) -> Registers
    ensures result { result ≡ kept_of next g }
{
    match next {
        Next::Onward(h) => h,
        _ => g,
    }
}

// The instructions that lead on by a span's cells: Go p, and Select q.
#[derive(Clone, Copy)]
enum SpanKind {
    Go,
    Select,
}

impl SpanKind {
    // The number that the instruction has in a word.
    fn number(self) -> u32
        ensures { result ≡ span_number self }
    {
        match self {
            SpanKind::Go => GO,
            SpanKind::Select => SELECT,
        }
    }
}

// Go, or Select, where it comes next.
fn try_span(g: Registers, kind: SpanKind, code: &[u32], input: &[u8], frames: &[usize]) -> Registers
    requires selection_within { SelectionWithin g.p.0 g.q.0 input.now }
    requires frame_within { FrameWithin g.frame frames.now }
    requires held { Held g.frame frames.now }
    ensures simulates { (allowance : ℕ) (output «record» values : Bytes) →
        let m = memory input.now output «record» frames.now values in
        ActingInvariant allowance g m → SimulatesTry code.now allowance g m result m }
{
    let Some((word, next)) = find_word(code, g.at, kind.number()) else {
        return g;
    };
    let h = Registers { at: next, ..g };
    match kind {
        SpanKind::Go => kept(go(h, word, input, frames), g),
        SpanKind::Select => kept(select(h, word, input, frames), g),
    }
}

// BeginSeq, where it comes next.
fn try_begin(g: Registers, code: &[u32], frames: &mut [usize]) -> Registers
    requires frame_within { FrameWithin g.frame frames.old }
    requires held { Held g.frame frames.old }
    ensures simulates { (allowance : ℕ) (input output «record» values : Bytes) →
        let m = memory input output «record» frames.old values in
        let n = memory input output «record» frames.new values in
        ActingInvariant allowance g m → SimulatesTry code.now allowance g m result n }
{
    let Some((_, next)) = find_word(code, g.at, BEGIN_SEQ) else {
        return g;
    };
    if open_sequence(frames, g.frame, g.r) {
        return Registers { at: next, ..g };
    }
    g
}

// Out, OutC and OutV in any order, as long as one of them comes next and can be done.
fn try_writes(
    g: Registers,
    code: &[u32],
    input: &[u8],
    output: &mut [u8],
    frames: &[usize],
    values: &[u8],
) -> Registers
    requires { SomeActingInvariant g input.now output.old frames.now values.now }
    ensures simulates { (allowance : ℕ) («record» : Bytes) →
        let m = memory input.now output.old «record»
        frames.now values.now in
        let n = memory input.now output.new «record» frames.now values.now in
        ActingInvariant allowance g m → SimulatesTry code.now allowance g m result n }
{
    let mut h = g;
    // A write a turn, from registers to registers: there is nothing to iterate over.
    loop {
        let at = h.at.0;
        if code.len() <= at {
            return h;
        }
        let Instruction::Write(what) = decode(code[at]) else {
            return h;
        };
        let next = Registers {
            at: CodePlace(at + 1),
            ..h
        };
        let Next::Onward(written) = write(next, what, input, output, frames, values) else {
            return h;
        };
        h = written;
    }
}

// UseSeq, where it comes next.
fn try_use(
    g: Registers,
    code: &[u32],
    input: &mut [u8],
    output: &[u8],
    frames: &mut [usize],
) -> Next
    requires selection_within { SelectionWithin g.p.0 g.q.0 input.old }
    requires r_in_bounds { g.r.0 ≤ length output.now }
    requires frame_within { FrameWithin g.frame frames.old }
    requires held { Held g.frame frames.old }
    ensures simulates { (allowance : ℕ) («record» values : Bytes) →
        let m = memory input.old output.now «record» frames.old values in
        let n = memory input.new output.now «record» frames.new values in
        ActingInvariant allowance g m → SimulatesUse code.now allowance g m result n }
{
    let Some((_, next)) = find_word(code, g.at, USE_SEQ) else {
        return Next::Onward(g);
    };
    let h = Registers { at: next, ..g };
    use_seq(h, input, output, frames)
}

// One instruction, whatever it is, but UseSeq, and a call for whose frame there is no room: these are left for later.
fn act(
    g: Registers,
    program: Program,
    input: &[u8],
    output: &mut [u8],
    record: &mut [u8],
    frames: &mut [usize],
    values: &[u8],
) -> Next
    requires acting_invariant { ActingInvariant program.allowance g
        (memory input.now output.old «record».old frames.old values.now) }
    ensures simulates { SimulatesInstruction program.entry.code.now program.entry.allowance g
        (memory input.now output.old «record».old
        frames.old values.now) result
        (memory input.now output.new «record».new
        frames.new values.now) }
{
    let code = program.code;
    let at = g.at.0;
    if code.len() <= at {
        return g.stopped(Ending::NoInstruction);
    }
    let h = Registers {
        at: CodePlace(at + 1),
        ..g
    };
    match decode(code[at]) {
        Instruction::Go(span) => go(h, span, input, frames),
        Instruction::Select(span) => select(h, span, input, frames),
        Instruction::Write(what) => write(h, what, input, output, frames, values),
        Instruction::BeginSeq => begin_seq(h, frames),
        Instruction::UseSeq => Next::Onward(g),
        Instruction::Call(what) => {
            if crowded(frames, g.frame) {
                Next::Deeper(g)
            } else {
                call(h, program, what, frames)
            }
        }
        Instruction::Emit(length) => emit(h, code, length, input, record),
        Instruction::Compute(operation) => compute(h, operation, input, output),
        Instruction::End => leave(h, frames),
        Instruction::Unknown => h.stopped(Ending::NoInstruction),
    }
}

// A sequence begun, a part, characters and stored bytes written, and text passed, as far as these come next.
fn write_items(
    g: Registers,
    code: &[u32],
    input: &[u8],
    output: &mut [u8],
    frames: &mut [usize],
    values: &[u8],
) -> Registers
    requires { SomeActingInvariant g input.now output.old frames.old values.now }
    ensures simulates { (allowance : ℕ) («record» : Bytes) →
        let m = memory input.now output.old «record»
        frames.old values.now in
        let n = memory input.now output.new «record» frames.new values.now in
        ActingInvariant allowance g m → SimulatesTry code.now allowance g m result n }
{
    let begun = try_begin(g, code, frames);
    let gone = try_span(begun, SpanKind::Go, code, input, frames);
    let selected = try_span(gone, SpanKind::Select, code, input, frames);
    let written = try_writes(selected, code, input, output, frames, values);
    try_span(written, SpanKind::Go, code, input, frames)
}

// One turn of the run: an application that is to begin, and, unless another is then to begin, instructions in the order
// in which an expression mostly has them, each where it comes next, so that few turns are taken; then one more.
fn advance(
    g: Registers,
    program: Program,
    input: &mut [u8],
    output: &mut [u8],
    record: &mut [u8],
    frames: &mut [usize],
    values: &mut [u8],
) -> Next
    requires invariant { Invariant program.allowance g
        (memory input.old output.old «record».old frames.old values.old) }
    ensures simulates { SimulatesTurn program.entry.code.now program.entry.allowance g
        (memory input.old output.old «record».old
        frames.old values.old) result
        (memory input.new output.new «record».new
        frames.new values.new) }
{
    let entered = enter(g, program, input, frames, values);
    let Next::Onward(begun) = entered else {
        return entered;
    };
    if begun.callee != 0 {
        return Next::Onward(begun);
    }
    let code = program.code;
    let written = write_items(begun, code, input, output, frames, values);
    let used = try_use(written, code, input, output, frames);
    let Next::Onward(ready) = used else {
        return used;
    };
    let selected = try_span(ready, SpanKind::Select, code, input, frames);
    act(selected, program, input, output, record, frames, values)
}

// An answer's registers, how it says that the run goes on, and both put together. They are functions and no methods:
// `Next` and `Status` are run_actions's, and what these functions come to is defined here.
pub fn registers_of(next: Next) -> Registers
    ensures result { result ≡ registers_in next }
{
    match next {
        Next::Onward(g) => g,
        Next::Done(g) => g,
        Next::Stopped(g, _, _) => g,
        Next::Deeper(g) => g,
    }
}

pub fn status_of(next: Next) -> Status
    ensures result { result ≡ status_in next }
{
    match next {
        Next::Onward(_) => Status::Onward,
        Next::Done(_) => Status::Done,
        Next::Stopped(_, ending, function) => Status::Stopped(ending, function),
        Next::Deeper(_) => Status::Deeper,
    }
}

pub fn next_of(status: Status, g: Registers) -> Next
    ensures result { result ≡ next_of status g }
{
    match status {
        Status::Onward => Next::Onward(g),
        Status::Done => Next::Done(g),
        Status::Stopped(ending, function) => Next::Stopped(g, ending, function),
        Status::Deeper => Next::Deeper(g),
    }
}

pub fn is_onward(status: Status) -> bool
    ensures result { result ≡ is_onward status }
{
    matches!(status, Status::Onward)
}

// One turn: the new values are stored in the registers, and it is said how the run goes on.
pub fn step(
    g: &mut Registers,
    program: Program,
    input: &mut [u8],
    output: &mut [u8],
    record: &mut [u8],
    frames: &mut [usize],
    values: &mut [u8],
) -> Status
    requires invariant { Invariant program.allowance g.old
        (memory input.old output.old «record».old frames.old values.old) }
    ensures simulates { SimulatesTurn program.entry.code.now program.entry.allowance g.old
        (memory input.old output.old «record».old
        frames.old values.old)
        (next_of result g.new)
        (memory input.new output.new «record».new
        frames.new values.new) }
{
    let next = advance(*g, program, input, output, record, frames, values);
    *g = registers_of(next);
    status_of(next)
}
