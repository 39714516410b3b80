// What stands at a place of a string.
#![tactic(auto)]

ghost use Rattle.std.specs.Prelude.{◌+◌, ◌≤◌, ◌<◌, length};
ghost use Rattle.meaning.specs.Tokens as Tokens;
ghost use Rattle.read_characters.specs.View.{byte_count, StandsInString};

use byte_classes::is_digit;

// A code is below the number of bytes.
const BYTE_COUNT: usize = 256;

// What stands at a place of a string: a character, a line end that gives nothing, the closing quote, or what may not
// stand there; with the place after it.
#[derive(Drop)]
pub enum Character {
    Given(u8, usize),
    Nothing(usize),
    Closed(usize),
    Broken(usize),
}

// A code: decimal digits as long as they go, from the value of those before. The loop counts places: one of them is
// handed back.
fn code(text: &[u8], from: usize, first: usize) -> Character
    requires { (first < byte_count) × (from ≤ length text.now) }
    ensures { StandsInString text.now (Tokens.coded first) from from result }
{
    let mut value = first;
    for at in from..text.len() {
        let byte = text[at];
        if !is_digit(byte) {
            return Character::Given(value as u8, at);
        }
        value = value * 10 + (byte - b'0') as usize;
        if BYTE_COUNT <= value {
            return Character::Broken(at + 1);
        }
    }
    Character::Given(value as u8, text.len())
}

// After a `\`.
fn escape(text: &[u8], at: usize) -> Character
    ensures { StandsInString text.now Tokens.escaped at at result }
{
    let Some(&byte) = text.get(at) else {
        return Character::Broken(at);
    };
    let past = at + 1;
    match byte {
        b'"' | b'\'' | b'\\' => Character::Given(byte, past),
        b'n' => Character::Given(b'\n', past),
        b't' => Character::Given(b'\t', past),
        b'\n' => Character::Nothing(past),
        _ if is_digit(byte) => code(text, past, (byte - b'0') as usize),
        _ => Character::Broken(past),
    }
}

pub fn next_character(text: &[u8], at: usize) -> Character
    ensures { StandsInString text.now Tokens.plain at (at + 1) result }
{
    let Some(&byte) = text.get(at) else {
        return Character::Broken(at);
    };
    let past = at + 1;
    match byte {
        b'\'' => Character::Closed(past),
        b'"' => Character::Broken(past),
        b'\\' => escape(text, past),
        _ => Character::Given(byte, past),
    }
}
