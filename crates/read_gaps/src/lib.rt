// What stands between tokens: blanks and comments.
#![tactic(auto)]

ghost use Rattle.std.specs.Prelude.{◌≡◌, false, ◌+◌, ◌≤◌, eqb, length, drop};
ghost use Rattle.meaning.specs.Tokens as Tokens;
ghost use Rattle.read_gaps.specs.View.{skipped_of, compared_at_once, Plain, Ends};

use byte_classes::is_blank;

// So many bytes of a comment are compared at once.
const COMPARED_AT_ONCE: usize = 16;

// The bytes of `/*`, and of `*/`.
const MARK_SIZE: usize = 2;

// A comment without an end: the place of its `/*`, and the end of the text.
#[derive(Clone, Copy)]
pub struct Unclosed {
    pub slash: usize,
    pub past: usize,
}

// Whether the byte at a place is this one.
fn byte_ahead(text: &[u8], at: usize, byte: u8) -> bool
    ensures { result ≡ Tokens.ahead (eqb byte) (drop at text.now) }
{
    text.get(at).is_some_and(|next| *next == byte)
}

// Whether one of the next bytes is a `*`: no byte ends the loop early, so that all are compared at once.
fn star_within(text: &[u8], from: usize) -> bool
    requires { from + compared_at_once ≤ length text.now }
    ensures { result ≡ false → Plain text.now from (from + compared_at_once) }
{
    let mut any = false;
    for byte in &text[from..from + COMPARED_AT_ONCE] {
        any |= *byte == b'*';
    }
    any
}

// The place after the bytes without a `*`, so many at a time. A `for` over chunks would count the place beside them.
fn plain_past(text: &[u8], from: usize) -> usize
    requires { from ≤ length text.now }
    ensures { (result ≤ length text.now) × Plain text.now from result }
{
    let mut at = from;
    while COMPARED_AT_ONCE <= text.len() - at && !star_within(text, at) {
        at += COMPARED_AT_ONCE;
    }
    at
}

// The place after a comment's `*/`, from the place after its `/*` on; none where the text ends first.
fn comment_past(text: &[u8], from: usize) -> Option<usize>
    requires { from ≤ length text.now }
    ensures { Ends text.now from result }
{
    let mut at = from;
    while let Some(&byte) = text.get(at) {
        if byte != b'*' {
            at = plain_past(text, at + 1);
        } else if byte_ahead(text, at + 1, b'/') {
            return Some(at + MARK_SIZE);
        } else {
            at += 1;
        }
    }
    None
}

// Passes blanks and comments, up to the place where a token begins.
pub fn skip(text: &[u8], from: usize) -> Result<usize, Unclosed>
    ensures { skipped_of text.now result ≡
        Tokens.skip Tokens.between from (drop from text.now) }
{
    let mut at = from;
    while let Some(&byte) = text.get(at) {
        if is_blank(byte) {
            at += 1;
        } else if byte == b'/' && byte_ahead(text, at + 1, b'*') {
            let unclosed = Unclosed {
                slash: at,
                past: text.len(),
            };
            at = comment_past(text, at + MARK_SIZE).ok_or(unclosed)?;
        } else {
            return Ok(at);
        }
    }
    Ok(at)
}
