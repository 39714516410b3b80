// How far a reader has come, and what a single token is good for.
ghost use Rattle.std.specs.Prelude.{◌≡◌, ◌≤◌, length, IfErr};
ghost use Rattle.meaning.specs.Choice.{pick};
ghost use Rattle.read_tokens.specs.View.{mode_of};
ghost use Rattle.answers.specs.Numbers.{refusal_number, fault_number};
ghost use Rattle.read_bookkeeping.specs.Tokened.{token_fault, sign_is, word_is, Passes};

use answers::{Fault, Refusal};
use read_tokens::{Mode, Placed, Token, lex};

// The place in the text, and the words on the tape. A reader that counts something has a struct of its own.
#[derive(Clone, Copy)]
pub struct Progress {
    pub at: usize,
    pub words: usize,
}

// Refuses a place where something is wrong with it.
pub fn refuse_if(wrong: bool, refusal: Refusal, place: usize) -> Result<(), Fault>
    ensures number { fault_number result ≡ pick wrong (refusal_number refusal) 0 }
    ensures place { IfErr result (λ fault. fault.place ≡ place) }
{
    if wrong {
        Err(Fault { refusal, place })
    } else {
        Ok(())
    }
}

// A token that may not stand here, or is malformed.
pub fn refuse(t: Placed) -> Fault
    ensures { (refusal_number result.refusal ≡ token_fault t.token) × (result.place ≡ t.place) }
{
    let refusal = match t.token {
        Token::Malformed => Refusal::MalformedToken,
        _ => Refusal::NotAllowedHere,
    };
    Fault {
        refusal,
        place: t.place,
    }
}

// Whether a token is a certain byte.
pub fn is_sign(t: Placed, byte: u8) -> bool
    ensures { result ≡ sign_is byte t.token }
{
    matches!(t.token, Token::Sign(b) if b == byte)
}

// Whether a token is a word inside a sentence, which must be a variable.
pub fn is_word(t: Placed) -> bool
    ensures { result ≡ word_is t.token }
{
    matches!(t.token, Token::Symbol(_) | Token::Part(_) | Token::Word)
}

// The place after a byte that stands for itself.
pub fn pass(text: &[u8], at: usize, mode: Mode, byte: u8) -> Result<usize, Fault>
    requires { at ≤ length text.now }
    ensures { Passes text.now (mode_of mode) byte at result }
{
    let t = lex(text, at, mode);
    if is_sign(t, byte) {
        Ok(t.past)
    } else {
        Err(refuse(t))
    }
}
