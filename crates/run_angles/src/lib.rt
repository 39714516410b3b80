// Degrees and minutes: two angles read, and their sum or difference written.
#![tactic(auto)]

ghost use Rattle.std.specs.Prelude.{◌≡◌, ◌+◌, ◌<◌, ◌≤◌};
ghost use Rattle.meaning.specs.Angles.{numeral_in, size_in, signed, angle_text, angled, max_minutes};
ghost use Rattle.code_numbers.specs.Operations.{operation_meant};
ghost use Rattle.byte_writing.specs.Put.{Put, farthest};
ghost use Rattle.byte_writing.specs.Wrote.{Wrote};
ghost use Rattle.run_angles.specs.Post.{Cut, number_read, AngleFound, Total, Worked, sign_text};
ghost use Rattle.run_angles.specs.Post.{left_with, leaves, degree_digits};

use byte_writing::ByteWriter;
use code_numbers::operations::Operation;

// An angle is a sign, up to three digits of degrees, a colon and two digits of minutes.
const DEGREE_DIGITS: usize = 3;

const MINUTE_DIGITS: usize = 2;

pub const ANGLE_BYTES: usize = 1 + DEGREE_DIGITS + 1 + MINUTE_DIGITS;

// How many minutes a degree has. Of the greatest angle, 359:59: its degrees, its minutes, and all of it in minutes.
const DEGREE: u32 = 60;

const MAX_DEGREES: u32 = 359;

const LAST_MINUTE: u32 = DEGREE - 1;

const MAX_MINUTES: u32 = DEGREE * MAX_DEGREES + LAST_MINUTE;

// Why a call comes to no result.
#[derive(Clone, Copy, PartialEq, Eq)]
pub enum AngleFault {
    NotAngles,
    OutOfRange,
}

// A value's minutes, and whether they count below zero.
#[derive(Clone, Copy)]
struct Minutes {
    below: bool,
    size: u32,
}

// The place of the first such byte, or the end of the text.
fn place_of(text: &[u8], byte: u8) -> usize
    ensures { Cut byte text.now result }
{
    for (at, &here) in text.iter().enumerate() {
        if here == byte {
            return at;
        }
    }
    text.len()
}

// A number of so many digits, from the first count to the second, and up to the greatest.
fn number_in(text: &[u8], least: usize, most: usize, greatest: u32) -> Option<u32>
    requires { most ≤ degree_digits }
    ensures { result ≡ number_read (numeral_in least most greatest text.now) }
{
    if text.len() < least || most < text.len() {
        return None;
    }
    let mut value: u32 = 0;
    for &byte in text {
        if byte < b'0' || b'9' < byte {
            return None;
        }
        value = 10 * value + u32::from(byte - b'0');
    }
    if greatest < value {
        return None;
    }
    Some(value)
}

// Degrees and minutes in minutes.
fn size_in(text: &[u8]) -> Option<u32>
    ensures { result ≡ number_read (size_in text.now) }
{
    let colon = place_of(text, b':');
    if colon == text.len() {
        return None;
    }
    let degrees = number_in(&text[..colon], 1, DEGREE_DIGITS, MAX_DEGREES)?;
    let after = colon + 1;
    let minutes = number_in(&text[after..], MINUTE_DIGITS, MINUTE_DIGITS, LAST_MINUTE)?;
    Some(DEGREE * degrees + minutes)
}

fn angle_in(text: &[u8]) -> Option<Minutes>
    ensures { AngleFound text.now result }
{
    if text.is_empty() {
        return None;
    }
    if text[0] == b'-' {
        let size = size_in(&text[1..])?;
        return Some(Minutes { below: true, size });
    }
    let size = size_in(text)?;
    Some(Minutes { below: false, size })
}

// The sum of two values: of one side of zero together, else the greater less the smaller.
fn sum_of(first: Minutes, second: Minutes) -> Minutes
    requires { (first.size ≤ max_minutes) × (second.size ≤ max_minutes) }
    ensures { Total first second result }
{
    if first.below == second.below {
        return Minutes {
            size: first.size + second.size,
            ..first
        };
    }
    if first.size < second.size {
        return Minutes {
            size: second.size - first.size,
            ..second
        };
    }
    Minutes {
        size: first.size - second.size,
        ..first
    }
}

// The sum or difference of two angles.
fn worked(operation: Operation, first: Minutes, second: Minutes) -> Minutes
    requires { (first.size ≤ max_minutes) × (second.size ≤ max_minutes) }
    ensures { Worked (operation_meant operation) first second result }
{
    match operation {
        Operation::Plus => sum_of(first, second),
        Operation::Minus => {
            let other_way = Minutes {
                below: !second.below,
                ..second
            };
            sum_of(first, other_way)
        }
    }
}

// A `-` before what is below zero.
fn put_sign(writer: &mut ByteWriter, below: bool, size: u32)
    requires { writer.old.at < farthest }
    ensures { Wrote writer.old (sign_text below size) writer.new }
{
    if below && 0 < size {
        writer.put(b'-');
    }
}

// A value up to 359:59 as an angle, from the first byte on.
fn put_angle(value: Minutes, out: &mut [u8]) -> usize
    requires { value.size ≤ max_minutes }
    ensures { Put 0 out.old (angle_text (signed value.below value.size)) result out.new }
{
    let mut writer = ByteWriter::new(out);
    put_sign(&mut writer, value.below, value.size);
    writer.put_decimal(value.size / DEGREE);
    writer.put(b':');
    writer.put_two_digits(value.size % DEGREE);
    writer.count()
}

// DmAdd or DmSub: the result's bytes come first in what is lent, and the others stay. Handed back is how many they are.
pub fn compute_angles(
    operation: Operation,
    argument: &[u8],
    res: &mut [u8; ANGLE_BYTES],
) -> Result<usize, AngleFault>
    ensures { left_with result res.new ≡
        leaves (angled (operation_meant operation) argument.now) res.old }
{
    let blank = place_of(argument, b' ');
    if blank == argument.len() {
        return Err(AngleFault::NotAngles);
    }
    let after = blank + 1;
    let first = angle_in(&argument[..blank]).ok_or(AngleFault::NotAngles)?;
    let second = angle_in(&argument[after..]).ok_or(AngleFault::NotAngles)?;
    let value = worked(operation, first, second);
    if MAX_MINUTES < value.size {
        return Err(AngleFault::OutOfRange);
    }
    Ok(put_angle(value, res))
}
