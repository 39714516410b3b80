// The program: a table and a text in, what the run of the table's code answers out.
#![tactic(auto)]

ghost use Rattle.std.specs.Prelude.{◌≡◌, ◌+◌, ◌≤◌, IfOk, IfSome, OnErr, OnOk, length, take};
ghost use Rattle.std.specs.Io.KnownBytes.{Appends};
ghost use Rattle.program_printing.specs.Texts.{Prints};
ghost use Rattle.program.specs.Printed.{code_words, cells_each, lent_bytes, printed, Shows};
ghost use Rattle.program.specs.Written.{AppendsFront};

use answers::Fault;
use byte_writing::ByteWriter;
use engine::{COUNTED, Ran};
use program_printing::{put_refusal, put_result};
use program_profile::put_profile;
use std::io::{ErrorKind, Read, Write};
use std::rt::Files;
use std::{fs, io};

// What the program lends, which function it starts, and the steps that it allows.
const CODE_WORDS: usize = 16384;

const CELLS: usize = 32768;

const START: usize = 1;

const ALLOWANCE: u32 = 100000;

// A byte more than the longest table and the longest text have, so that a longer one is known as such.
const INPUT_BYTES: usize = CELLS + 1;

// A line of three numbers, the emissions, the result and a line end; a line for each of 64 functions, and the total.
const OUTPUT_BYTES: usize = 70000;

// Arrays in functions of their own, so that no caller's facts hold their elements.
fn code_room() -> [u32; CODE_WORDS]
    ensures { length result ≡ code_words }
{
    [0u32; CODE_WORDS]
}

fn cell_room() -> [u8; CELLS]
    ensures { result ≡ lent_bytes }
{
    [0u8; CELLS]
}

fn input_room() -> [u8; INPUT_BYTES]
    ensures { length result ≡ cells_each + 1 }
{
    [0u8; INPUT_BYTES]
}

fn output_room() -> [u8; OUTPUT_BYTES] {
    [0u8; OUTPUT_BYTES]
}

fn count_room() -> [u64; COUNTED] {
    [0u64; COUNTED]
}

// Runs a table's code on what the program lends; the emissions and the result are left in the record and in out, and
// the applications of each function in the counts.
fn run_table(
    table: &[u8],
    text: &[u8],
    stack_out: &mut [u8],
    record: &mut [u8],
    counts: &mut [u64; COUNTED],
) -> Result<Ran, Fault>
    requires stack_out_value { stack_out.old ≡ lent_bytes }
    requires record_value { «record».old ≡ lent_bytes }
    ensures { Shows table.now text.now result stack_out.new «record».new
        counts.new }
{
    let mut code = code_room();
    let mut stack_in = cell_room();
    engine::translate_and_run(
        table,
        &mut code,
        START,
        text,
        &mut stack_in,
        stack_out,
        record,
        ALLOWANCE,
        counts,
    )
}

// What is printed for a table text and a text.
pub fn respond(table: &[u8], text: &[u8], out: &mut [u8; OUTPUT_BYTES]) -> usize
    ensures { Prints (printed table.now text.now)
        out.old result out.new }
{
    let mut stack_out = cell_room();
    let mut record = cell_room();
    let mut counts = count_room();
    let ran = match run_table(table, text, &mut stack_out, &mut record, &mut counts) {
        Ok(ran) => ran,
        Err(fault) => return put_refusal(out, u64::from(fault.refusal), fault.place),
    };
    let emissions = ran.emissions;
    let length = ran.text;
    let mut writer = ByteWriter::new(out);
    put_result(
        &mut writer,
        u64::from(ran.ending),
        ran.function,
        ran.steps,
        &record[..emissions],
        &stack_out[..length],
    );
    put_profile(&mut writer, table, &counts, ran.steps);
    writer.count()
}

// Fills the buffer from a reader, up to its end or to the reader's. Handed back: how many bytes were read. A reader may
// be interrupted for ever, but each function ends: so the loop has a bound, which no run comes to.
fn read_input<R: Read>(reader: &mut R, buffer: &mut [u8]) -> io::Result<usize>
    ensures within { IfOk result (λ n. n ≤ length buffer.new) }
    ensures bytes { IfOk result (λ n. IfSome (R.remaining reader.old)
        (λ bytes. take n buffer.new ≡ take (length buffer.old) bytes)) }
{
    let mut count = 0;
    for _ in 0..u64::MAX {
        if count >= buffer.len() {
            return Ok(count);
        }
        match reader.read(&mut buffer[count..]) {
            Ok(0) => return Ok(count),
            Ok(more) => count += more,
            Err(e) => {
                if e.kind() != ErrorKind::Interrupted {
                    return Err(e);
                }
            }
        }
    }
    Err(io::Error::from(ErrorKind::Interrupted))
}

// Writes the bytes one after another. After an error the first of them may have been written. The loop's bound is as in
// `read_input`.
fn write_bytes<W: Write>(output: &mut W, bytes: &[u8]) -> io::Result<()>
    ensures ok { OnOk result (Appends (W.contents output.old) (W.contents output.new) bytes.now) }
    ensures err { OnErr result
        (AppendsFront (W.contents output.old) (W.contents output.new) bytes.now) }
{
    let mut done = 0;
    for _ in 0..u64::MAX {
        if done >= bytes.len() {
            return Ok(());
        }
        match output.write(&bytes[done..]) {
            Ok(0) => return Err(io::Error::from(ErrorKind::WriteZero)),
            Ok(count) => done += count,
            Err(e) => {
                if e.kind() != ErrorKind::Interrupted {
                    return Err(e);
                }
            }
        }
    }
    Err(io::Error::from(ErrorKind::Interrupted))
}

// Writes what is printed for a table text and a text.
fn write_printed<W: Write>(table: &[u8], text: &[u8], output: &mut W) -> io::Result<()>
    ensures ok { OnOk result
        (Appends (W.contents output.old) (W.contents output.new) (printed table.now text.now)) }
    ensures err { OnErr result
        (AppendsFront (W.contents output.old) (W.contents output.new)
        (printed table.now text.now)) }
{
    let mut out = output_room();
    let count = respond(table, text, &mut out);
    write_bytes(output, &out[..count])
}

// Reads a table and a text to their ends, and writes what is printed for them.
pub fn write_answer<T: Read, I: Read, W: Write>(
    table: &mut T,
    text: &mut I,
    output: &mut W,
) -> io::Result<()>
    ensures ok { OnOk result (IfSome (T.remaining table.old) (λ t. IfSome (I.remaining text.old)
        (λ x. Appends (W.contents output.old) (W.contents output.new) (printed t x)))) }
    ensures err { OnErr result (IfSome (T.remaining table.old) (λ t. IfSome (I.remaining text.old)
        (λ x. AppendsFront (W.contents output.old) (W.contents output.new) (printed t x)))) }
{
    let mut table_room = input_room();
    let mut text_room = input_room();
    let size = read_input(table, &mut table_room)?;
    let length = read_input(text, &mut text_room)?;
    write_printed(&table_room[..size], &text_room[..length], output)
}

// `table.rf` of the current folder on standard input. A table that can't be opened counts as empty.
pub fn run_program<R: Files + Input + Print>(rt: &R) -> io::Result<()> {
    let mut text = rt.reader();
    let mut output = io::writer(rt);
    match fs::open(rt, "table.rf") {
        Ok(mut table) => write_answer(&mut table, &mut text, &mut output),
        Err(_) => write_answer(&mut io::empty(), &mut text, &mut output),
    }
}
