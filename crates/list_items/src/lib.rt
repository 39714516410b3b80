// What one item of a listing is in bytes: conditions, and the bytes after or between items.
#![tactic(auto)]

ghost use Rattle.std.specs.Prelude.{◌≡◌, ◌+◌, ◌<◌, length};
ghost use Rattle.byte_writing.specs.Put.{farthest};
ghost use Rattle.byte_writing.specs.Wrote.{Wrote};
ghost use Rattle.list_strings.specs.Steps.{longest_step, WroteStep};
ghost use Rattle.list_items.specs.Steps.{ending, separator, longest_predicate, class_text, letter_text, truth_text};
ghost use Rattle.list_items.specs.Steps.{condition_step, parted_step, ended_step};

use byte_writing::ByteWriter;
use list_strings::{State, put_gap};
use tape_words::wide::{
    ALPHABETIC, CLASS_COUNT, CONDITION_PART, CONDITION_SIZE, CONDITION_TRUTH, DIGIT, LOWER, UPPER,
};

// The closing quote, where a string is open.
fn put_ending(writer: &mut ByteWriter, state: State)
    requires { writer.old.at < farthest }
    ensures { Wrote writer.old (ending state) writer.new }
{
    if state.is_quoted() {
        writer.put(b'\'');
    }
}

// What stands between two items.
fn put_parting(writer: &mut ByteWriter, state: State)
    requires { writer.old.at + 1 < farthest }
    ensures { Wrote writer.old (separator state) writer.new }
{
    put_ending(writer, state);
    put_gap(writer, state);
}

// A byte after the blank between items.
pub fn list_parted(writer: &mut ByteWriter, state: State, byte: u8, after: State) -> State
    requires { writer.old.at + 2 < farthest }
    ensures { WroteStep writer.old (parted_step state byte after) result writer.new }
{
    put_parting(writer, state);
    writer.put(byte);
    after
}

// Bytes right after an item.
pub fn list_ended(writer: &mut ByteWriter, state: State, text: &[u8], after: State) -> State
    requires { writer.old.at + length text.now + 1 < farthest }
    ensures { WroteStep writer.old (ended_step state text.now after) result writer.new }
{
    put_ending(writer, state);
    writer.put_all(text);
    after
}

// A predicate's name, by the number that its class has on the tape.
fn put_class(writer: &mut ByteWriter, class: usize)
    requires { writer.old.at + longest_predicate < farthest }
    ensures { Wrote writer.old (class_text class) writer.new }
{
    match class {
        DIGIT => writer.put_all(b"IsDigit"),
        UPPER => writer.put_all(b"IsUpper"),
        LOWER => writer.put_all(b"IsLower"),
        ALPHABETIC => writer.put_all(b"IsLetter"),
        _ => writer.put_all(b"IsBlank"),
    }
}

fn truth_byte(bit: usize) -> u8
    ensures { result ≡ truth_text bit }
{
    if bit == 1 { b'T' } else { b'F' }
}

// What stands before the identifier of a condition's variable: a blank and the letter of its kind.
fn put_letter(writer: &mut ByteWriter, bit: usize)
    requires { writer.old.at + 2 < farthest }
    ensures { Wrote writer.old (letter_text bit) writer.new }
{
    writer.put(b' ');
    writer.put(if bit == 1 { b'e' } else { b's' });
}

// A condition up to its variable's identifier.
pub fn list_condition(writer: &mut ByteWriter, state: State, carried: usize) -> State
    requires { writer.old.at + longest_step < farthest }
    ensures { WroteStep writer.old (condition_step state carried) result writer.new }
{
    put_ending(writer, state);
    writer.put_all(b", <");
    put_class(writer, carried % CLASS_COUNT);
    put_letter(writer, carried / CONDITION_PART % 2);
    let truth = truth_byte(carried / CONDITION_TRUTH % 2);
    State::Condition(carried / CONDITION_SIZE, truth)
}
