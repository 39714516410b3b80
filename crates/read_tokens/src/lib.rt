// The tokens of a table text.
#![tactic(auto)]

pub mod reader;

ghost use Rattle.std.specs.Prelude.{ℕ, ◌≡◌, [], suc, ◌+◌, ◌-◌, ◌≤◌, ◌<◌, length, drop, Bool};
ghost use Rattle.std.proofs.Math.Seq.{slice};
ghost use Rattle.meaning.specs.Classes.{in_class, alphabetic};
ghost use Rattle.meaning.specs.Tokens as Tokens;
ghost use Rattle.meaning.specs.Allowed.{word_byte, name_byte};
ghost use Rattle.read_tokens.specs.View.{mode_of, span_text, IsTest, RunsTo, LetterAt, quotation_at, token_of, Sound};
ghost use Rattle.read_tokens.specs.View.{ShowsToken};

use byte_classes::{is_letter, is_name_byte, is_word_byte};
use read_characters::{Character, next_character};
use read_gaps::{Unclosed, skip};

// How a word is read: outside sentences and directly after `<` by the rule of function names, inside a sentence by that
// of variables.
#[derive(Clone, Copy)]
pub enum Mode {
    Outside,
    Inside,
    Naming,
}

// A part of the text.
#[derive(Clone, Copy)]
pub struct Span {
    pub from: usize,
    pub past: usize,
}

impl Span {
    // How many bytes it has.
    pub fn len(self) -> usize
        requires { self.from ≤ self.past }
        ensures { result ≡ self.past - self.from }
    {
        self.past - self.from
    }

    // Its bytes in the text.
    pub fn of<'a>(self, text: &'a [u8]) -> &'a [u8]
        requires { (self.from ≤ self.past) × (self.past ≤ length text.now) }
        ensures { result.now ≡ span_text text.now self }
    {
        &text[self.from..self.past]
    }
}

#[derive(Clone, Copy)]
pub enum Token {
    // A function's name.
    Name(Span),
    // An s-variable and an e-variable, by their identifiers.
    Symbol(Span),
    Part(Span),
    // A word of a sentence that is no variable.
    Word,
    // A string, by how many characters it has.
    Quoted(usize),
    // A byte that stands for itself.
    Sign(u8),
    End,
    Malformed,
}

// A token with the offset of its first byte and that of the byte after its last.
#[derive(Clone, Copy)]
pub struct Placed {
    pub token: Token,
    pub place: usize,
    pub past: usize,
}

// Whether a letter stands at a place.
fn letter_ahead(text: &[u8], at: usize) -> bool
    ensures { result ≡ Tokens.ahead (in_class alphabetic) (drop at text.now) }
{
    text.get(at).is_some_and(|next| is_letter(*next))
}

// The place after the bytes that pass a test, as long as they do. The loop counts places: one of them is handed back.
fn run_end<F: Fn(u8) -> bool>(text: &[u8], from: usize, fits: F) -> usize
    requires { F.IsAlwaysCallable fits × (from ≤ length text.now) }
    ensures { (test : ℕ → Bool) → IsTest (F.post fits) test → RunsTo text.now test from result }
{
    for at in from..text.len() {
        if !fits(text[at]) {
            return at;
        }
    }
    text.len()
}

// A variable is `s` or `e` and an identifier of at least one byte.
fn word_token(text: &[u8], at: usize, past: usize) -> Token
    requires { (at < past) × (past ≤ length text.now) }
    ensures { (token_of text.now result at past ≡ Tokens.word (slice at past text.now)) ×
        Sound text.now result at past }
{
    if past <= at + 1 {
        return Token::Word;
    }
    let identifier = Span { from: at + 1, past };
    match text[at] {
        b's' => Token::Symbol(identifier),
        b'e' => Token::Part(identifier),
        _ => Token::Word,
    }
}

fn name_at(text: &[u8], at: usize) -> Placed
    requires { LetterAt text.now at }
    ensures { ShowsToken text.now result
        (Tokens.name_token at (Tokens.run name_byte [] at (drop at text.now))).first }
{
    let past = run_end(text, at, is_name_byte);
    Placed {
        token: Token::Name(Span { from: at, past }),
        place: at,
        past,
    }
}

fn variable_at(text: &[u8], at: usize) -> Placed
    requires { LetterAt text.now at }
    ensures { ShowsToken text.now result
        (Tokens.word_token at (Tokens.run word_byte [] at (drop at text.now))).first }
{
    let past = run_end(text, at, is_word_byte);
    Placed {
        token: word_token(text, at, past),
        place: at,
        past,
    }
}

fn word_at(text: &[u8], at: usize, mode: Mode) -> Placed
    requires { LetterAt text.now at }
    ensures { ShowsToken text.now result
        (Tokens.word_at (mode_of mode) at (drop at text.now)).first }
{
    match mode {
        Mode::Outside | Mode::Naming => name_at(text, at),
        Mode::Inside => variable_at(text, at),
    }
}

// A string from its opening quote on; all its faults stand there.
fn quoted_at(text: &[u8], place: usize) -> Placed
    requires { place < length text.now }
    ensures { ShowsToken text.now result
        (Tokens.quoted_at place (quotation_at text.now place)).first }
{
    let mut at = place + 1;
    let mut count = 0;
    // Each character begins where the one before it ended, so no `for` counts them.
    loop {
        match next_character(text, at) {
            Character::Given(_, past) => {
                at = past;
                count += 1;
            }
            Character::Nothing(past) => {
                at = past;
            }
            Character::Closed(past) => {
                return Placed {
                    token: Token::Quoted(count),
                    place,
                    past,
                };
            }
            Character::Broken(past) => {
                return Placed {
                    token: Token::Malformed,
                    place,
                    past,
                };
            }
        }
    }
}

// `<` has a letter right after it.
fn bracket_at(text: &[u8], at: usize) -> Placed
    requires { at < length text.now }
    ensures { ShowsToken text.now result (Tokens.bracket_at at (drop (suc at) text.now)
        (Tokens.ahead (in_class alphabetic) (drop (suc at) text.now))).first }
{
    let token = if letter_ahead(text, at + 1) {
        Token::Sign(b'<')
    } else {
        Token::Malformed
    };
    Placed {
        token,
        place: at,
        past: at + 1,
    }
}

// The token that begins at a place.
fn token_at(text: &[u8], at: usize, mode: Mode) -> Placed
    ensures { ShowsToken text.now result
        (Tokens.token_at (mode_of mode) at (drop at text.now)).first }
{
    let Some(&byte) = text.get(at) else {
        return Placed {
            token: Token::End,
            place: at,
            past: at,
        };
    };
    match byte {
        _ if is_letter(byte) => word_at(text, at, mode),
        b'\'' => quoted_at(text, at),
        b'<' => bracket_at(text, at),
        _ => Placed {
            token: Token::Sign(byte),
            place: at,
            past: at + 1,
        },
    }
}

// The first token from a place on.
pub fn lex(text: &[u8], from: usize, mode: Mode) -> Placed
    ensures { ShowsToken text.now result
        (Tokens.lex (mode_of mode) from (drop from text.now)).first }
{
    match skip(text, from) {
        Ok(at) => token_at(text, at, mode),
        Err(Unclosed { slash, past }) => Placed {
            token: Token::Malformed,
            place: slash,
            past,
        },
    }
}
