// The rows of 01 on their packed code, and runs of words that are no code.
#![tactic(auto)]

use run_actions::registers::Ran;
use std::io;

const TABLE_Z: [u32; 19] = [
    1, 2, 273, 458753, 805306369, 10, 65541, 11, 16777478, 269, 15, 17, 327680, 5, 262, 7, 5, 15,
    19,
];

// The same as it was before T-07: the argument goes to out whole.
const EARLIER_Z: [u32; 22] = [
    1, 2, 273, 655361, 805306369, 10, 65541, 16777478, 7, 5, 11, 6, 269, 15, 17, 327680, 5, 262, 7,
    5, 15, 19,
];

const TABLE_R: [u32; 20] = [
    1, 2, 273, 721152, 4, 10, 65541, 16777478, 7, 11, 6, 268, 9, 5, 15, 16, 131072, 261, 15, 19,
];

const TABLE_H: [u32; 10] = [1, 2, 65554, 327937, 1539, 516, 9, 261, 15, 19];

const TABLE_K: [u32; 16] = [
    1, 2, 65810, 721153, 2050, 4, 65541, 16777734, 7, 31752, 65541, 16777990, 7, 5, 15, 19,
];

const TABLE_P: [u32; 22] = [
    2, 3, 14, 17, 524288, 10, 24840, 25096, 5, 11, 262, 525, 15, 19, 17, 327680, 5, 262, 7, 5, 15,
    19,
];

const TABLE_M: [u32; 52] = [
    2, 3, 34, 17, 1835008, 10, 10, 5, 262, 7, 11, 6, 524, 11, 6, 1294, 69, 109, 105, 116, 65, 10,
    30728, 11, 6, 1294, 69, 109, 105, 116, 66, 5, 15, 19, 17, 983040, 10, 5, 262, 7, 11, 6, 1294,
    69, 109, 105, 116, 67, 30984, 5, 15, 19,
];

// F{e1,<IsDigit e1>:'F'='f';e1='t'}
const TABLE_NOT_DIGITS: [u32; 14] = [
    1, 2, 17, 262145, 1044, 26120, 261, 15, 17, 196608, 29704, 261, 15, 19,
];

// F{'('e1')='e2'.',<IsDigit e1>:'T',<IsUpper e2>:'T'=e1 e2}
const TABLE_ROUND: [u32; 19] = [
    1, 2, 16908562, 917510, 671088641, 687866369, 1023476225, 771817729, 71700, 16922132, 65541,
    16777734, 7, 131077, 50332422, 7, 65541, 15, 19,
];

// X{'a'=}RecoverX{e1='r'e1}
const TABLE_X: [u32; 18] = [
    2, 3, 9, 272, 196609, 1627389953, 261, 15, 531, 17, 393216, 29192, 5, 262, 7, 5, 15, 19,
];

// X{'a'=}RecoverX{'c'=}
const TABLE_UNRECOVERED: [u32; 15] = [
    2, 3, 9, 272, 196609, 1627389953, 261, 15, 531, 272, 196609, 1660944385, 261, 15, 19,
];

// Words that are no code: an unknown instruction after Out, a call past the count, UseSeq without BeginSeq, a
// Predicate over two cells where there is one, and a function that recovers past the count.
const UNKNOWN: [u32; 8] = [1, 2, 17, 196608, 7, 99, 15, 19];

const CALL_PAST: [u32; 7] = [1, 2, 17, 131072, 524, 15, 19];

const UNOPENED: [u32; 7] = [1, 2, 17, 131072, 11, 15, 19];

const PART_PAST: [u32; 7] = [1, 2, 17, 131073, 33554452, 15, 19];

const RECOVERER_PAST: [u32; 8] = [1, 2, 272, 196609, 1627389953, 261, 15, 531];

// What is lent, and the allowance.
#[derive(Drop)]
struct Lent {
    input: usize,
    output: usize,
    record: usize,
    allowance: u32,
}

fn allowed(allowance: u32) -> Lent {
    Lent {
        input: 1000,
        output: 1000,
        record: 1000,
        allowance: allowance,
    }
}

fn ample() -> Lent {
    allowed(4294967295)
}

fn cells(input: usize, output: usize) -> Lent {
    Lent {
        input: input,
        output: output,
        record: 1000,
        allowance: 4294967295,
    }
}

fn sevens() -> [u8; 1000] {
    [7u8; 1000]
}

fn front(rt: &impl Print, bytes: &[u8], count: usize) -> io::Result<()> {
    if count <= bytes.len() {
        rt.write_all(&bytes[..count])?;
    }
    Ok(())
}

// How many cells from a place on hold another byte than this.
fn others(bytes: &[u8], start: usize, byte: u8) -> u64 {
    let mut i = start;
    let mut count: u64 = 0;
    while i < bytes.len() {
        if bytes[i] != byte {
            count += 1;
        }
        i += 1;
    }
    count
}

// Answer, function, steps; the applications of the first two functions; how many cells of in, of out after the text and
// of the record after the emissions hold another byte than they should; the emissions; the text.
fn show(
    rt: &impl Print,
    ran: Ran,
    counts: &[u64; 64],
    input: &[u8],
    output: &[u8],
    record: &[u8],
    left: u8,
) -> io::Result<()> {
    let text = ran.text;
    let emissions = ran.emissions;
    let function = ran.function;
    let steps = ran.steps;
    let answer = u64::from(ran.ending);
    let changed = others(input, 0, left);
    let after_text = others(output, text, left);
    let after_emissions = others(record, emissions, 7);
    print!(rt; "{answer} {function} {steps} {} {} ", counts[0], counts[1])?;
    println!(rt; "{changed} {after_text} {after_emissions} ")?;
    front(rt, record, emissions)?;
    front(rt, output, text)?;
    rt.println("")
}

// A run on these cells.
fn row_on(
    rt: &impl Print,
    code: &[u32],
    start: usize,
    text: &[u8],
    input: &mut [u8],
    output: &mut [u8],
    record: &mut [u8],
    allowance: u32,
    left: u8,
) -> io::Result<()> {
    let mut counts = [7u64; 64];
    let ran = run_code::run(
        code,
        start,
        text,
        input,
        output,
        record,
        allowance,
        &mut counts,
    );
    show(rt, ran, &counts, input, output, record, left)
}

fn row_from(
    rt: &impl Print,
    code: &[u32],
    start: usize,
    text: &[u8],
    lent: Lent,
    left: u8,
) -> io::Result<()> {
    let mut first = sevens();
    let mut second = sevens();
    let mut third = sevens();
    let input: &mut [u8] = &mut first;
    let output: &mut [u8] = &mut second;
    let record: &mut [u8] = &mut third;
    let a = lent.input;
    let b = lent.output;
    let c = lent.record;
    if input.len() < a {
        return Ok(());
    }
    if output.len() < b {
        return Ok(());
    }
    if record.len() < c {
        return Ok(());
    }
    row_on(
        rt,
        code,
        start,
        text,
        &mut input[..a],
        &mut output[..b],
        &mut record[..c],
        lent.allowance,
        left,
    )
}

fn row(rt: &impl Print, code: &[u32], text: &[u8], lent: Lent) -> io::Result<()> {
    row_from(rt, code, 1, text, lent, 0)
}

// A tail call, its allowance, out one cell short, and the earlier code with out two cells long.
fn zeros(rt: &impl Print) -> io::Result<()> {
    row(rt, &TABLE_Z, b"0060", ample())?;
    row(rt, &TABLE_Z, b"", ample())?;
    row(rt, &TABLE_Z, b"0060", allowed(2))?;
    row(rt, &TABLE_Z, b"0060", allowed(3))?;
    row(rt, &TABLE_Z, b"0060", cells(4, 2))?;
    row(rt, &TABLE_Z, b"0060", cells(4, 1))?;
    row(rt, &EARLIER_Z, b"0060", cells(4, 2))
}

// Frames, conditions, two e-variables.
fn matches(rt: &impl Print) -> io::Result<()> {
    row(rt, &TABLE_R, b"abc", cells(3, 3))?;
    row(rt, &TABLE_R, b"abc", cells(3, 2))?;
    row(rt, &TABLE_H, b"ab7c9", ample())?;
    row(rt, &TABLE_H, b"abc", ample())?;
    row(rt, &TABLE_K, b"abcab", ample())?;
    row(rt, &TABLE_K, b"aa", ample())?;
    row(rt, &TABLE_K, b"ab", ample())
}

// Conditions on e-variables.
fn parts(rt: &impl Print) -> io::Result<()> {
    row(rt, &TABLE_NOT_DIGITS, b"", ample())?;
    row(rt, &TABLE_NOT_DIGITS, b"12", ample())?;
    row(rt, &TABLE_NOT_DIGITS, b"1a", ample())?;
    row(rt, &TABLE_NOT_DIGITS, b"a1", ample())?;
    row(rt, &TABLE_ROUND, b"(12)=AB.", ample())?;
    row(rt, &TABLE_ROUND, b"()=.", ample())?;
    row(rt, &TABLE_ROUND, b"(1)=)=AB.", ample())
}

// A function that recovers another: not asked, asked, past the allowance, and one that fits nothing itself.
fn recoveries(rt: &impl Print) -> io::Result<()> {
    row(rt, &TABLE_X, b"a", ample())?;
    row(rt, &TABLE_X, b"b", cells(1, 2))?;
    row(rt, &TABLE_X, b"b", allowed(1))?;
    row(rt, &TABLE_UNRECOVERED, b"b", ample())
}

// In one cell short, emissions, and a record that is too short for the second line.
fn emissions(rt: &impl Print) -> io::Result<()> {
    row(rt, &TABLE_P, b"c", cells(3, 3))?;
    row(rt, &TABLE_P, b"c", cells(2, 3))?;
    row(rt, &TABLE_M, b"q", ample())?;
    row(
        rt,
        &TABLE_M,
        b"q",
        Lent {
            input: 1000,
            output: 1000,
            record: 15,
            allowance: 2,
        },
    )
}

// What is refused before the run, and words that are no code.
fn refusals(rt: &impl Print) -> io::Result<()> {
    row_from(rt, &TABLE_P, 0, b"c", ample(), 7)?;
    row_from(rt, &TABLE_P, 3, b"c", ample(), 7)?;
    row_from(rt, &TABLE_P, 2, b"cccc", cells(3, 3), 7)?;
    row_from(rt, &TABLE_P[..2], 1, b"c", ample(), 7)?;
    row(rt, &UNKNOWN, b"c", ample())?;
    row(rt, &CALL_PAST, b"c", ample())?;
    row(rt, &UNOPENED, b"c", ample())?;
    row(rt, &PART_PAST, b"c", ample())?;
    row(rt, &RECOVERER_PAST, b"c", allowed(1))
}

fn run_all(rt: &impl Print) -> io::Result<()> {
    zeros(rt)?;
    matches(rt)?;
    parts(rt)?;
    recoveries(rt)?;
    emissions(rt)?;
    refusals(rt)
}

fn main(rt: HostRuntime) -> io::Result<()> {
    run_all(&rt)
}
