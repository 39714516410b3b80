// The readers of a function and of a table's next function.
ghost use Rattle.std.specs.Prelude.{◌≡◌, ◌≤◌, length, take};
ghost use Rattle.meaning.specs.Tokens as Tokens;
ghost use Rattle.meaning.specs.Reading as Reading;
ghost use Rattle.read_tokens.specs.View.{span_text, stream};
ghost use Rattle.read_bookkeeping.specs.Answered.{Agrees};
ghost use Rattle.tape_words.specs.Words.{head_names};
ghost use Rattle.read_functions.specs.Functions.{from_brace, Declarable, BodyRead, Opening, name_fault};
ghost use Rattle.read_functions.specs.Functions.{DeclaredRead};
ghost use Rattle.read_functions.specs.Functions.{SpareTo, is_end_token, new_tally, Underway};
ghost use Rattle.read_functions.specs.Functions.{Declares};

use crate::fault_at;
use crate::sentences::{SentencesEnd, sentences};
use answers::{Fault, Refusal};
use read_bookkeeping::names::check_called;
use read_bookkeeping::progress::{is_sign, pass, refuse};
use read_bookkeeping::writing::{put_bytes, put_name};
use read_tokens::{Mode, Placed, Span, Token, lex};
use std::ops::ControlFlow;
use tape_words::limits::{MAX_FUNCTIONS, MAX_SENTENCES};
use tape_words::names::is_known;
use tape_words::wide::FUNCTION_WORD;

// The words on the tape, the functions that were read, and the sentences that may still come.
#[derive(Clone, Copy)]
pub struct Tally {
    pub words: usize,
    pub functions: usize,
    pub left: usize,
}

impl Tally {
    // Before the first function.
    pub fn new() -> Tally
        ensures { result ≡ new_tally }
    {
        Tally {
            words: 0,
            functions: 0,
            left: MAX_SENTENCES,
        }
    }
}

// How the reading of a table's functions stands: another may come, or it is over, and what it came to.
pub type Stage = ControlFlow<Result<Tally, Fault>, Tally>;

// What was read with one function more, and the place in the text where the next may come.
#[derive(Clone, Copy)]
pub struct Reached {
    pub tally: Tally,
    pub at: usize,
}

// A function after its name: `{`, sentences, of which so many may still come, and `}`.
fn body(
    text: &[u8],
    tape: &mut [u32],
    name: Span,
    limit: usize,
    words: usize,
) -> Result<SentencesEnd, Fault>
    requires { Declarable text.now words name }
    ensures { Agrees (BodyRead text.now limit name.from words
        (span_text text.now name) tape.old tape.new)
        (from_brace limit (stream text.now Tokens.outside name.past)) result }
{
    let at = pass(text, name.past, Mode::Outside, b'{')?;
    let to = put_name(text, tape, words, FUNCTION_WORD, name);
    sentences(text, tape, limit, at, to)
}

// A function from its name to its `}`; its head is noted. Once its name is known to be short it is copied to the tape's
// end, since what a name means is asked of the tape.
fn function(
    text: &[u8],
    tape: &mut [u32],
    heads: &mut [usize; MAX_FUNCTIONS],
    functions: usize,
    limit: usize,
    t: Placed,
    words: usize,
) -> Result<SentencesEnd, Fault>
    requires { Opening text.now tape.old heads.old functions words t }
    ensures { Agrees (DeclaredRead text.now limit t.place words functions
        tape.old tape.new heads.old heads.new)
        (Reading.parse_function (name_fault functions (head_names tape.old (take functions
        heads.old))) limit (stream text.now Tokens.outside t.place)) result }
{
    let token = t.token;
    let Token::Name(name) = token else {
        return Err(refuse(t));
    };
    if MAX_FUNCTIONS <= functions {
        return Err(fault_at(Refusal::OverLimit, t.place));
    }
    check_called(text, name, t.place)?;
    let to = put_bytes(text, tape, words, name);
    let written = &tape[..];
    if is_known(written, &heads[..functions], &written[words..to]) {
        return Err(fault_at(Refusal::WrongName, t.place));
    }
    heads[functions] = words;
    body(text, tape, name, limit, words)
}

// The place after a spare `;`, or of the token that stands there.
fn pass_spare(text: &[u8], at: usize) -> usize
    requires { at ≤ length text.now }
    ensures { SpareTo text.now at result }
{
    let t = lex(text, at, Mode::Outside);
    if is_sign(t, b';') { t.past } else { t.place }
}

fn is_end_token(t: Placed) -> bool
    ensures { result ≡ is_end_token t.token }
{
    matches!(t.token, Token::End)
}

// Reads the declaration that comes at a place, with a spare `;` after it, and notes its head. A reading that is over is
// handed back as it is.
pub fn declaration(
    text: &[u8],
    at: usize,
    tape: &mut [u32],
    heads: &mut [usize; MAX_FUNCTIONS],
    stage: Stage,
) -> ControlFlow<Result<Tally, Fault>, Reached>
    requires { Underway text.now tape.old heads.old at stage }
    ensures { Declares text.now tape.old heads.old at stage tape.new
        heads.new result }
{
    let n = match stage {
        ControlFlow::Continue(n) => n,
        ControlFlow::Break(read) => return ControlFlow::Break(read),
    };
    let t = lex(text, at, Mode::Outside);
    if is_end_token(t) {
        return ControlFlow::Break(Ok(n));
    }
    match function(text, tape, heads, n.functions, n.left, t, n.words) {
        Err(fault) => ControlFlow::Break(Err(fault)),
        Ok(f) => {
            let tally = Tally {
                words: f.words,
                functions: n.functions + 1,
                left: f.left,
            };
            let past = pass_spare(text, f.at);
            ControlFlow::Continue(Reached { tally, at: past })
        }
    }
}
