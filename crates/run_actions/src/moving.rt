// The instructions that move text: Go, Select, Out, OutC, OutV, BeginSeq, UseSeq.
ghost use Rattle.std.specs.Prelude.{ℕ, ◌+◌, ◌-◌, ◌≤◌, ◌<◌, ◌^◌, ◌≡◌, List, length};
ghost use Rattle.meaning.specs.Choice.{Bytes};
ghost use Rattle.meaning.specs.Instructions.{Action, go as going, select as selecting, out, out_c, out_v};
ghost use Rattle.meaning.specs.Instructions.{begin_seq, use_seq};
ghost use Rattle.meaning.specs.Packing.{first_in, second_in, third_in, length_of};
ghost use Rattle.code_numbers.specs.Numbers.{operand};
ghost use Rattle.run_decoding.specs.Decoded.{span_meant, write_meant};
ghost use Rattle.run_actions.specs.States.{memory, Paired, local_at, Held, Opens, Writes};
ghost use Rattle.run_actions.specs.States.{SelectionWithin, FrameWithin, ImplementsAction};
ghost use Rattle.run_actions.specs.Spans.{within_cells, cells_of, reached_by};

use crate::frames::{
    FRAME_VALUES, LENGTH_COUNT, OPEN_SEQUENCES, keep_sequence_start, length_numbered,
    open_sequences, sequence_start, set_open_sequences, stored_values,
};
use crate::registers::{Next, Registers};
use answers::Ending;
use code_numbers::words::CodeWord;
use run_cells::copying::copy_to;
use run_cells::moving::move_down;
use run_cells::places::{InCell, OutCell, part, put};
use run_code_places::{Wrong, wide};
use run_decoding::Write;

// cells + add - back, if that many cells are there
fn within(cells: usize, add: usize, back: usize, there: usize) -> Result<usize, Wrong>
    requires back_lt_operand { back < operand }
    requires there_bound { there < 2 ^ 63 }
    ensures result { result ≡ within_cells (cells + add - back) there }
{
    let limit = there + back;
    if limit < add || limit - add < cells {
        return Err(Wrong);
    }
    Ok((cells + add).saturating_sub(back))
}

// The cells of a span: a register's length, with an addition, less what stays back.
fn span_cells(frames: &[usize], frame: usize, span: CodeWord, there: usize) -> Result<usize, Wrong>
    requires frame_within { FrameWithin frame frames.now }
    requires held { Held frame frames.now }
    requires there_bound { there < 2 ^ 63 }
    ensures counts { (values : Bytes) →
        let local = local_at frame frames.now values in
        result ≡ cells_of (length_of (first_in span.0)) (second_in span.0) (third_in span.0) local there }
{
    let register = wide(span.first());
    if LENGTH_COUNT <= register {
        return Err(Wrong);
    }
    let cells = length_numbered(frames, frame, register);
    within(cells, wide(span.second()), wide(span.third()), there)
}

// The cell that a span's cells lead to from another.
fn reach(
    from: InCell,
    span: CodeWord,
    frame: usize,
    input: &[u8],
    frames: &[usize],
) -> Result<InCell, Wrong>
    requires from_in_bounds { from.0 ≤ length input.now }
    requires frame_within { FrameWithin frame frames.now }
    requires held { Held frame frames.now }
    ensures reaches { (values : Bytes) →
        let local = local_at frame frames.now values in
        let there = length input.now - from.0 in
        let cells = cells_of (length_of (first_in span.0)) (second_in span.0) (third_in span.0) local there in
        result ≡ reached_by cells from.0 }
{
    let cells = span_cells(frames, frame, span, from.room(input))?;
    Ok(from.after(cells))
}

// Go and Select are instructions of 000 under their own names; what they share is `reach`.

// Go: p moves on by a span's cells, and q to p.
pub fn go(g: Registers, span: CodeWord, input: &[u8], frames: &[usize]) -> Next
    requires selection_within { SelectionWithin g.p.0 g.q.0 input.now }
    requires frame_within { FrameWithin g.frame frames.now }
    requires held { Held g.frame frames.now }
    ensures implements { (output «record» values : Bytes) →
        let m = memory input.now output «record» frames.now values in
        ImplementsAction (span_meant going span.0) g.at.0 g m result m }
{
    let Ok(to) = reach(g.p, span, g.frame, input, frames) else {
        return g.stopped(Ending::NoInstruction);
    };
    Next::Onward(Registers { p: to, q: to, ..g })
}

// Select: q moves on by a span's cells.
pub fn select(g: Registers, span: CodeWord, input: &[u8], frames: &[usize]) -> Next
    requires selection_within { SelectionWithin g.p.0 g.q.0 input.now }
    requires frame_within { FrameWithin g.frame frames.now }
    requires held { Held g.frame frames.now }
    ensures implements { (output «record» values : Bytes) →
        let m = memory input.now output «record» frames.now values in
        ImplementsAction (span_meant selecting span.0) g.at.0 g m result m }
{
    let Ok(to) = reach(g.q, span, g.frame, input, frames) else {
        return g.stopped(Ending::NoInstruction);
    };
    Next::Onward(Registers { q: to, ..g })
}

// A text goes to out, and the selected cells are passed.
pub fn write_text(g: Registers, text: &[u8], output: &mut [u8]) -> Next
    requires p_le_q { g.p.0 ≤ g.q.0 }
    requires r_in_bounds { g.r.0 ≤ length output.old }
    ensures implements { (action : Action) (input «record» values : Bytes) (frames : List ℕ) →
        let m = memory input output.old «record» frames values in
        let n = memory input output.new «record» frames values in
        Writes action text.now g m → ImplementsAction action g.at.0 g m result n }
{
    if g.r.room(output) < text.len() {
        return g.stopped(Ending::OutFull);
    }
    copy_to(output, g.r, text);
    let end = g.r.after(text.len());
    Next::Onward(Registers {
        p: g.q,
        r: end,
        ..g
    })
}

pub fn write_part(g: Registers, input: &[u8], output: &mut [u8]) -> Next
    requires selection_within { SelectionWithin g.p.0 g.q.0 input.now }
    requires r_in_bounds { g.r.0 ≤ length output.old }
    ensures implements { («record» values : Bytes) (frames : List ℕ) →
        let m = memory input.now output.old «record» frames values in
        let n = memory input.now output.new «record» frames values in
        ImplementsAction out g.at.0 g m result n }
{
    write_text(g, part(input, g.p, g.q), output)
}

pub fn write_byte(g: Registers, byte: u8, output: &mut [u8]) -> Next
    requires { g.r.0 ≤ length output.old }
    ensures implements { (input «record» values : Bytes) (frames : List ℕ) →
        let m = memory input output.old «record» frames values in
        let n = memory input output.new «record» frames values in
        ImplementsAction (out_c byte) g.at.0 g m result n }
{
    if g.r.room(output) == 0 {
        return g.stopped(Ending::OutFull);
    }
    put(output, g.r, byte);
    let end = g.r.after(1);
    Next::Onward(Registers { r: end, ..g })
}

fn write_value(
    g: Registers,
    index: usize,
    output: &mut [u8],
    frames: &[usize],
    values: &[u8],
) -> Next
    requires r_in_bounds { g.r.0 ≤ length output.old }
    requires frame_within { FrameWithin g.frame frames.now }
    requires held { Held g.frame frames.now }
    requires paired { Paired frames.now values.now }
    ensures implements { (input «record» : Bytes) →
        let m = memory input output.old «record» frames.now values.now in
        let n = memory input output.new «record» frames.now values.now in
        ImplementsAction (out_v index) g.at.0 g m result n }
{
    if stored_values(frames, g.frame) <= index {
        return g.stopped(Ending::NoInstruction);
    }
    write_byte(g, values[FRAME_VALUES * g.frame + index], output)
}

// Out, OutC, OutV
pub fn write(
    g: Registers,
    what: Write,
    input: &[u8],
    output: &mut [u8],
    frames: &[usize],
    values: &[u8],
) -> Next
    requires selection_within { SelectionWithin g.p.0 g.q.0 input.now }
    requires r_in_bounds { g.r.0 ≤ length output.old }
    requires frame_within { FrameWithin g.frame frames.now }
    requires held { Held g.frame frames.now }
    requires paired { Paired frames.now values.now }
    ensures implements { («record» : Bytes) →
        let m = memory input.now output.old «record»
        frames.now values.now in
        let n = memory input.now output.new «record» frames.now values.now in
        ImplementsAction (write_meant what) g.at.0 g m result n }
{
    match what {
        Write::Out => write_part(g, input, output),
        Write::OutC(byte) => write_byte(g, byte, output),
        Write::OutV(index) => write_value(g, index, output, frames, values),
    }
}

// Keeps r as a sequence begins, if one more may be open; a frame's words end with what it keeps, the latest first.
pub fn open_sequence(frames: &mut [usize], frame: usize, r: OutCell) -> bool
    requires frame_within { FrameWithin frame frames.old }
    requires held { Held frame frames.old }
    ensures opens { Opens frame r.0 frames.old frames.new result }
{
    let opened = open_sequences(frames, frame);
    if OPEN_SEQUENCES <= opened {
        return false;
    }
    keep_sequence_start(frames, frame, opened, r);
    set_open_sequences(frames, frame, opened + 1);
    true
}

// BeginSeq: r is kept.
pub fn begin_seq(g: Registers, frames: &mut [usize]) -> Next
    requires frame_within { FrameWithin g.frame frames.old }
    requires held { Held g.frame frames.old }
    ensures implements { (input output «record» values : Bytes) → g.r.0 ≤ length output →
        let m = memory input output «record» frames.old values in
        let n = memory input output «record» frames.new values in
        ImplementsAction begin_seq g.at.0 g m result n }
{
    if !open_sequence(frames, g.frame, g.r) {
        return g.stopped(Ending::NoInstruction);
    }
    Next::Onward(g)
}

// UseSeq: in[p-(r-r0)..p-1] := out[r0..r-1], with r0 kept by the latest BeginSeq
pub fn use_seq(g: Registers, input: &mut [u8], output: &[u8], frames: &mut [usize]) -> Next
    requires selection_within { SelectionWithin g.p.0 g.q.0 input.old }
    requires r_in_bounds { g.r.0 ≤ length output.now }
    requires frame_within { FrameWithin g.frame frames.old }
    requires held { Held g.frame frames.old }
    ensures implements { («record» values : Bytes) →
        let m = memory input.old output.now «record» frames.old values in
        let n = memory input.new output.now «record» frames.new values in
        ImplementsAction use_seq g.at.0 g m result n }
{
    let frame = g.frame;
    let opened = open_sequences(frames, frame);
    if opened == 0 {
        return g.stopped(Ending::NoInstruction);
    }
    let first = sequence_start(frames, frame, opened).earlier(g.r);
    if g.p.count_before() < first.until(g.r) {
        return g.stopped(Ending::InFull);
    }
    set_open_sequences(frames, frame, opened - 1);
    let start = move_down(input, g.p, output, first, g.r);
    Next::Onward(Registers {
        p: start,
        r: first,
        ..g
    })
}
