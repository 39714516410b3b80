// The readers of a sentence and of a function's sentences.
ghost use Rattle.std.specs.Prelude.{◌≡◌, ◌≤◌, length};
ghost use Rattle.meaning.specs.Tokens as Tokens;
ghost use Rattle.meaning.specs.Reading as Reading;
ghost use Rattle.read_tokens.specs.View.{stream};
ghost use Rattle.read_bookkeeping.specs.Answered.{Agrees};
ghost use Rattle.read_bookkeeping.specs.Tokened.{unless_word};
ghost use Rattle.read_bookkeeping.specs.Written.{Ready};
ghost use Rattle.read_bookkeeping.specs.Items.{Known, symbol_names, part_names};
ghost use Rattle.read_functions.specs.Sentences.{from_equals, EqualsRead, SentenceRead, begins_sentence};
ghost use Rattle.read_functions.specs.Sentences.{first_sentence, FirstRead, Follows};
ghost use Rattle.read_functions.specs.Sentences.{SentencesRead};

use crate::expressions::{ExpressionCounts, expression};
use crate::fault_at;
use answers::{Fault, Refusal};
use read_bookkeeping::progress::{Progress, is_sign, pass, refuse};
use read_bookkeeping::variables::Variables;
use read_bookkeeping::writing::put;
use read_conditions::conditions;
use read_patterns::pattern;
use read_tokens::{Mode, Placed, Token, lex};
use tape_words::kinds::{END_WORD, EQUALS_WORD, NEXT_WORD};

// Where the sentences of a function end: the place in the text and the words on the tape, and how many more sentences
// the table may have.
#[derive(Clone, Copy)]
pub struct SentencesEnd {
    pub at: usize,
    pub words: usize,
    pub left: usize,
}

// A sentence from its `=` on.
fn sentence_end(
    text: &[u8],
    tape: &mut [u32],
    v: &Variables,
    from: usize,
    words: usize,
) -> Result<Progress, Fault>
    requires { Known text.now v.now × Ready text.now from words }
    ensures { Agrees (EqualsRead text.now from words tape.old tape.new)
        (from_equals (symbol_names text.now v.now) (part_names text.now v.now)
        (stream text.now Tokens.inside from)) result }
{
    let at = pass(text, from, Mode::Inside, b'=')?;
    put(tape, words, EQUALS_WORD);
    let start = ExpressionCounts {
        at,
        words: words + 1,
        items: 0,
        passed: 0,
    };
    let end = expression(text, tape, v, 0, start)?;
    Ok(Progress::from(end))
}

// A sentence: pattern, conditions, `=` and expression. Its variables are its own.
fn sentence(text: &[u8], tape: &mut [u32], from: usize, words: usize) -> Result<Progress, Fault>
    requires { Ready text.now from words }
    ensures { Agrees (SentenceRead text.now from words tape.old tape.new)
        (unless_word (Reading.parse_sentence (stream text.now Tokens.inside from))) result }
{
    let mut v = Variables::new();
    let p = pattern(text, tape, &mut v, from, words)?;
    let c = conditions(text, tape, &v, p.at, p.words)?;
    sentence_end(text, tape, &v, c.at, c.words)
}

// Whether a sentence can begin with a token.
fn begins(t: Placed) -> bool
    ensures { result ≡ begins_sentence t.token }
{
    matches!(
        t.token,
        Token::Quoted(_) | Token::Symbol(_) | Token::Part(_) | Token::Sign(b',' | b'=')
    )
}

// The next sentence of a function, of which so many may still come.
fn next_sentence(
    text: &[u8],
    tape: &mut [u32],
    left: usize,
    from: usize,
    words: usize,
) -> Result<Progress, Fault>
    requires { Ready text.now from words }
    ensures { Agrees (FirstRead text.now left from words tape.old tape.new)
        (first_sentence left (stream text.now Tokens.inside from)) result }
{
    let t = lex(text, from, Mode::Inside);
    if !begins(t) {
        return Err(refuse(t));
    }
    if left == 0 {
        return Err(fault_at(Refusal::OverLimit, t.place));
    }
    sentence(text, tape, t.place, words)
}

// What comes after a sentence: `}` with a spare `;` before it or not, or another sentence.
#[derive(Clone, Copy)]
pub enum Sequel {
    Ends(usize),
    Another(usize),
}

fn after_sentence(text: &[u8], from: usize) -> Result<Sequel, Fault>
    requires { from ≤ length text.now }
    ensures { Follows text.now from result }
{
    let t = lex(text, from, Mode::Inside);
    if is_sign(t, b'}') {
        return Ok(Sequel::Ends(t.past));
    }
    if !is_sign(t, b';') {
        return Err(refuse(t));
    }
    let next = lex(text, t.past, Mode::Inside);
    if is_sign(next, b'}') {
        return Ok(Sequel::Ends(next.past));
    }
    Ok(Sequel::Another(next.place))
}

// Reads the sentences of a function from its `{` to its `}`, of which so many may still come.
pub fn sentences(
    text: &[u8],
    tape: &mut [u32],
    limit: usize,
    from: usize,
    words: usize,
) -> Result<SentencesEnd, Fault>
    requires { Ready text.now from words }
    ensures { Agrees
        (SentencesRead text.now limit from words tape.old tape.new)
        (Reading.parse_sentences limit (stream text.now Tokens.inside from)) result }
{
    let mut at = from;
    let mut to = words;
    let mut left = limit;
    // Each sentence begins where the one before it ended, so no `for` counts them.
    loop {
        let s = next_sentence(text, tape, left, at, to)?;
        left -= 1;
        to = s.words + 1;
        match after_sentence(text, s.at)? {
            Sequel::Ends(past) => {
                put(tape, s.words, END_WORD);
                return Ok(SentencesEnd {
                    at: past,
                    words: to,
                    left,
                });
            }
            Sequel::Another(place) => {
                put(tape, s.words, NEXT_WORD);
                at = place;
            }
        }
    }
}
