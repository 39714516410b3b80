// The words of the tape one after another.
ghost use Rattle.std.specs.Prelude.{◌≡◌, ◌+◌, ◌<◌, ◌≤◌, length};
ghost use Rattle.byte_writing.specs.Put.{Put, farthest};
ghost use Rattle.list_strings.specs.Steps.{longest_step, WroteStep};
ghost use Rattle.list_strings.specs.declared.State.TheVariants.{Start};
ghost use Rattle.list_table.specs.Words.{kind_step, item_step, copy_step, word_step, list_from, most_words};

use byte_writing::ByteWriter;
use list_items::{list_condition, list_ended, list_parted};
use list_strings::{State, list_character};
use tape_words::kinds::{
    CLOSE_KIND, CONDITION_KIND, END_KIND, EQUALS_KIND, FUNCTION_KIND, KIND_WIDTH, NEXT_KIND,
    PART_KIND, SYMBOL_KIND,
};

// A word of a kind. A kind is a number, for the tape is made of numbers, and each number from that of calls on is a
// call's.
pub fn list_kind(writer: &mut ByteWriter, state: State, kind: u32, carried: usize) -> State
    requires { writer.old.at + longest_step < farthest }
    ensures { WroteStep writer.old (kind_step state kind carried) result writer.new }
{
    match kind {
        SYMBOL_KIND => list_parted(writer, state, b's', State::Name(carried)),
        PART_KIND => list_parted(writer, state, b'e', State::Name(carried)),
        CONDITION_KIND => list_condition(writer, state, carried),
        EQUALS_KIND => list_parted(writer, state, b'=', State::Plain),
        CLOSE_KIND => list_ended(writer, state, b">", State::Plain),
        NEXT_KIND => list_ended(writer, state, b";\n", State::Start),
        END_KIND => list_ended(writer, state, b";\n}\n", State::Start),
        FUNCTION_KIND => State::Header(carried),
        _ => list_parted(writer, state, b'<', State::Name(carried)),
    }
}

// A word that is no byte of a name: a character, or a word of a kind.
pub fn list_item(writer: &mut ByteWriter, state: State, word: u32) -> State
    requires { writer.old.at + longest_step < farthest }
    ensures { WroteStep writer.old (item_step state word) result writer.new }
{
    if word < KIND_WIDTH {
        return list_character(writer, state, word as u8);
    }
    let carried = (word % KIND_WIDTH) as usize;
    list_kind(writer, state, word / KIND_WIDTH, carried)
}

// A byte of a name, and after the last one what follows the name.
pub fn list_copied(
    writer: &mut ByteWriter,
    left: usize,
    byte: u8,
    more: State,
    tail: &[u8],
    after: State,
) -> State
    requires { writer.old.at + length tail.now + 1 < farthest }
    ensures { WroteStep writer.old (copy_step left byte more tail.now after) result writer.new }
{
    writer.put(byte);
    if left > 1 {
        return more;
    }
    writer.put_all(tail);
    after
}

// One word: an item, or a byte of a name that is being copied.
pub fn list_word(writer: &mut ByteWriter, state: State, word: u32) -> State
    requires { writer.old.at + longest_step < farthest }
    ensures { WroteStep writer.old (word_step state word) result writer.new }
{
    let byte = (word % KIND_WIDTH) as u8;
    match state {
        State::Name(n) => {
            let more = State::Name(n.saturating_sub(1));
            list_copied(writer, n, byte, more, b"", State::Plain)
        }
        State::Condition(n, truth) => {
            let more = State::Condition(n.saturating_sub(1), truth);
            let tail = [b'>', b':', b' ', b'\'', truth, b'\''];
            list_copied(writer, n, byte, more, &tail, State::Plain)
        }
        State::Header(n) => {
            let more = State::Header(n.saturating_sub(1));
            list_copied(writer, n, byte, more, b" {\n", State::Start)
        }
        _ => list_item(writer, state, word),
    }
}

// The words of a tape, from the beginning of a line; handed back is the listing's length.
pub fn list_words(words: &[u32], out: &mut [u8]) -> usize
    requires { length words.now ≤ most_words }
    ensures { Put 0 out.old (list_from Start words.now) result out.new }
{
    let mut writer = ByteWriter::new(out);
    let mut state = State::Start;
    for &word in words {
        state = list_word(&mut writer, state, word);
    }
    writer.count()
}

// The listing's length: it is written into no cells.
pub fn list_length(words: &[u32]) -> usize
    requires { length words.now ≤ most_words }
    ensures { result ≡ length (list_from Start words.now) }
{
    list_words(words, &mut [])
}
