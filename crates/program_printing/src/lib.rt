// Writing what is printed into lent cells.
#![tactic(auto)]

ghost use Rattle.std.specs.Prelude.{◌+◌, ◌*◌, ◌<◌, length};
ghost use Rattle.byte_writing.specs.Put.{farthest};
ghost use Rattle.program_printing.specs.Texts.{number_cells, number_then, refusal_text, result_text};
ghost use Rattle.program_printing.specs.Texts.{PutAtMost, WroteAtMost};

use byte_writing::ByteWriter;

// A number in decimal and the byte after it.
#[tactic(auto, using(crate::proofs::Numerals::fewest_short))]
pub fn put_number(writer: &mut ByteWriter, n: u64, after: u8)
    requires { writer.old.at + number_cells < farthest }
    ensures { WroteAtMost number_cells writer.old (number_then n after) writer.new }
{
    let mut digits = [0u8; 20];
    let count = io::decimal(n, &mut digits);
    writer.put_all(&digits[..count]);
    writer.put(after);
}

// Number and place.
pub fn put_refusal(out: &mut [u8], number: u64, place: usize) -> usize
    ensures { PutAtMost (2 * number_cells) 0 out.old (refusal_text number place) result out.new }
{
    let mut writer = ByteWriter::new(out);
    put_number(&mut writer, number, b' ');
    put_number(&mut writer, place as u64, b'\n');
    writer.count()
}

// Answer, function and steps, the emissions, the result.
pub fn put_result(
    writer: &mut ByteWriter,
    answer: u64,
    function: usize,
    steps: u32,
    emissions: &[u8],
    text: &[u8],
)
    requires { writer.old.at + 3 * number_cells + length emissions.now + length text.now + 1 < farthest }
    ensures { WroteAtMost (3 * number_cells + length emissions.now + length text.now + 1)
        writer.old
        (result_text answer function steps emissions.now text.now) writer.new }
{
    put_number(writer, answer, b' ');
    put_number(writer, function as u64, b' ');
    put_number(writer, u64::from(steps), b'\n');
    writer.put_all(emissions);
    writer.put_all(text);
    writer.put(b'\n');
}
