// Characters in the strings of a listing.
#![tactic(auto)]

ghost use Rattle.std.specs.Prelude.{◌≡◌, ◌+◌, ◌<◌};
ghost use Rattle.meaning.specs.Listing.{is_after_code, is_coded, is_escaped, character_text};
ghost use Rattle.byte_writing.specs.Put.{farthest};
ghost use Rattle.byte_writing.specs.Wrote.{Wrote};
ghost use Rattle.list_strings.specs.Steps.{longest_step, quoted_in, is_quoted, is_start, gap, quoting};
ghost use Rattle.list_strings.specs.Steps.{character_step, WroteStep};

use byte_writing::ByteWriter;

// How the listing stands between two words of the tape: at the beginning of a line; after an item; inside a string; in
// one right after a code; or with so many bytes of a name to copy: a variable's or a call's, a condition's variable
// with its truth byte, a function's.
#[derive(Clone, Copy)]
pub enum State {
    Start,
    Plain,
    InString,
    AfterCode,
    Name(usize),
    Condition(usize, u8),
    Header(usize),
}

impl State {
    // Whether a string is open.
    pub fn is_quoted(self) -> bool
        ensures { result ≡ is_quoted self }
    {
        matches!(self, State::InString | State::AfterCode)
    }

    // Whether a line begins.
    fn is_start(self) -> bool
        ensures { result ≡ is_start self }
    {
        matches!(self, State::Start)
    }

    // Whether a digit that came next would be read as part of a code.
    fn is_after_code(self) -> bool
        ensures { result ≡ is_after_code (quoted_in self) }
    {
        matches!(self, State::AfterCode)
    }

    // Whether a character is written as a code: outside 32 to 126 but for 9 and 10, or a digit right after a code.
    fn is_coded(self, character: u8) -> bool
        ensures { result ≡ is_coded (quoted_in self) character }
    {
        match character {
            b'\t' | b'\n' => false,
            b' '..=b'~' => self.is_after_code() && byte_classes::is_digit(character),
            _ => true,
        }
    }
}

// Whether a character has a backslash before it.
fn is_escaped(character: u8) -> bool
    ensures { result ≡ is_escaped character }
{
    matches!(character, b'\'' | b'"' | b'\\')
}

// The blank between items, but for the beginning of a line.
pub fn put_gap(writer: &mut ByteWriter, state: State)
    requires { writer.old.at < farthest }
    ensures { Wrote writer.old (gap state) writer.new }
{
    if !state.is_start() {
        writer.put(b' ');
    }
}

// The opening quote, where no string is open.
fn put_quoting(writer: &mut ByteWriter, state: State)
    requires { writer.old.at + 1 < farthest }
    ensures { Wrote writer.old (quoting state) writer.new }
{
    if !state.is_quoted() {
        put_gap(writer, state);
        writer.put(b'\'');
    }
}

// A character inside a string.
fn put_character(writer: &mut ByteWriter, state: State, character: u8)
    requires { writer.old.at + 3 < farthest }
    ensures { Wrote writer.old (character_text (quoted_in state) character) writer.new }
{
    if state.is_coded(character) {
        writer.put(b'\\');
        return writer.put_decimal(u32::from(character));
    }
    if is_escaped(character) {
        return writer.put_escape(character);
    }
    match character {
        b'\t' => writer.put_escape(b't'),
        b'\n' => writer.put_escape(b'n'),
        _ => writer.put(character),
    }
}

// A character, in a string of its own or joined to the one before it; handed back is how the listing stands after it.
pub fn list_character(writer: &mut ByteWriter, state: State, character: u8) -> State
    requires { writer.old.at + longest_step < farthest }
    ensures { WroteStep writer.old (character_step state character) result writer.new }
{
    put_quoting(writer, state);
    put_character(writer, state, character);
    if state.is_coded(character) {
        State::AfterCode
    } else {
        State::InString
    }
}
