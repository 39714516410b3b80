// The emission: a whole line of the record, or nothing of it.
ghost use Rattle.std.specs.Prelude.{ℕ, ◌+◌, ◌≤◌, ◌<◌, ◌^◌, ◌≡◌, true, List, length, take, drop, is_some, IfSome};
ghost use Rattle.std.specs.List.{list_all};
ghost use Rattle.std.proofs.Math.Seq.{paste};
ghost use Rattle.meaning.specs.Allowed.{is_byte};
ghost use Rattle.meaning.specs.Choice.{Bytes, every};
ghost use Rattle.meaning.specs.Outcome.{emitted_line};
ghost use Rattle.meaning.specs.Packing.{emission_of};
ghost use Rattle.run_decoding.specs.Decoded.{is_name};
ghost use Rattle.run_actions.specs.States.{line_marks, memory, SelectionWithin, ImplementsAction};

use crate::registers::{Next, Registers};
use answers::Ending;
use code_numbers::OPERAND;
use run_cells::copying::copy_to;
use run_cells::places::{RecordByte, part, put};
use run_code_places::CodePlace;

// The bytes of a line beside its name and argument: a blank, and the line's end.
const LINE_MARKS: usize = 2;

fn are_bytes(words: &[u32]) -> bool
    ensures { result ≡ list_all is_byte words.now }
{
    words.iter().all(|word| *word < OPERAND)
}

// The words of a name from a place on, where so many are there and are bytes.
fn name_at<'a>(code: &'a [u32], at: CodePlace, size: usize) -> Option<&'a [u32]>
    requires { at.0 ≤ length code.now }
    ensures found { is_some result ≡ is_name size (drop at.0 code.now) }
    ensures name { IfSome result (λ name. name.now ≡ take size (drop at.0 code.now)) }
{
    let words = &code[at.0..];
    if words.len() < size {
        return None;
    }
    let name = &words[..size];
    if are_bytes(name) { Some(name) } else { None }
}

fn copy_name(emissions: &mut [u8], to: RecordByte, name: &[u32])
    requires bytes { every is_byte name.now ≡ true }
    requires name_in_bounds { to.0 + length name.now ≤ length emissions.old }
    ensures pastes { emissions.new ≡ paste emissions.old to.0 name.now (length name.now) }
{
    for (i, word) in name.iter().enumerate() {
        emissions[to.0 + i] = *word as u8;
    }
}

// Name, blank, argument, line end.
fn write_line(emissions: &mut [u8], to: RecordByte, name: &[u32], argument: &[u8])
    requires bytes { every is_byte name.now ≡ true }
    requires line_in_bounds { to.0 + (length name.now + length argument.now + line_marks) ≤ length emissions.old }
    ensures pastes { let line = emitted_line name.now argument.now in
        let count = length name.now + length argument.now + line_marks in
        emissions.new ≡ paste emissions.old to.0 line count }
{
    copy_name(emissions, to, name);
    let gap = to.after(name.len());
    put(emissions, gap, b' ');
    let start = gap.after(1);
    copy_to(emissions, start, argument);
    put(emissions, start.after(argument.len()), b'\n');
}

pub fn emit(g: Registers, code: &[u32], size: usize, input: &[u8], emissions: &mut [u8]) -> Next
    requires at_in_bounds { g.at.0 ≤ length code.now }
    requires selection_within { SelectionWithin g.p.0 g.q.0 input.now }
    requires emitted_in_bounds { g.emitted ≤ length emissions.old }
    ensures implements { (output values : Bytes) (frames : List ℕ) →
        let m = memory input.now output emissions.old frames values in
        let n = memory input.now output emissions.new frames values in
        ImplementsAction (emission_of size (drop g.at.0 code.now)) (g.at.0 + size) g m result n }
{
    let Some(name) = name_at(code, g.at, size) else {
        return g.stopped(Ending::NoInstruction);
    };
    let argument = part(input, g.p, g.q);
    let line = size + argument.len() + LINE_MARKS;
    if emissions.len() - g.emitted < line {
        return g.stopped(Ending::RecordFull);
    }
    write_line(emissions, RecordByte::new(g.emitted), name, argument);
    Next::Onward(Registers {
        p: g.q,
        at: CodePlace(g.at.0 + size),
        emitted: g.emitted + line,
        ..g
    })
}
