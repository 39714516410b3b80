// The readers of an expression and of a call, which call each other.
ghost use Rattle.std.specs.Prelude.{◌≡◌, ℕ, ◌+◌, ◌-◌, ◌*◌, ◌≤◌, ◌<◌, T, length, ◌∷◌};
ghost use Rattle.meaning.specs.Choice.{every};
ghost use Rattle.meaning.specs.Grammar.{standing};
ghost use Rattle.meaning.specs.Tokens as Tokens;
ghost use Rattle.meaning.specs.Reading as Reading;
ghost use Rattle.read_tokens.specs.View.{characters_in, quotation_at, span_text, stream, Comes};
ghost use Rattle.read_bookkeeping.specs.Answered.{Agrees};
ghost use Rattle.meaning.specs.Allowed.{max_table, max_name, max_items};
ghost use Rattle.tape_layout.specs.Tape.{tape_word, part_word, call_kind};
ghost use Rattle.read_bookkeeping.specs.Tables.{Inside};
ghost use Rattle.read_bookkeeping.specs.Tokened.{unless_word};
ghost use Rattle.read_bookkeeping.specs.Written.{WroteOnTape, is_quiet, Ready};
ghost use Rattle.read_bookkeeping.specs.Items.{symbol_names, Identifier, StringAt};
ghost use Rattle.read_functions.specs.Expressions.{uncounted, progress_at, Going};
ghost use Rattle.read_functions.specs.Expressions.{VariableTaken, JoinsItem, JoinsToken, ExpressionRead};
ghost use Rattle.read_functions.specs.Expressions.{call_opening, OpeningRead, CallRead, Closes};

use crate::fault_at;
use answers::{Fault, Refusal};
use read_bookkeeping::names::{check_called, check_later, find};
use read_bookkeeping::progress::{Progress, is_sign, is_word, pass, refuse};
use read_bookkeeping::variables::Variables;
use read_bookkeeping::writing::{put, put_characters, put_name, put_named};
use read_tokens::{Mode, Placed, Span, Token, lex};
use tape_words::kinds::CLOSE_WORD;
use tape_words::limits::{MAX_IDENTIFIER, MAX_ITEMS, MAX_NESTING};
use tape_words::wide::{CALL_KIND, KIND_WIDTH, PART_WORD, SYMBOL_WORD};

// An expression so far: the place in the text and the words on the tape, its items, and how many of the pattern's
// e-variables can't come any more.
#[derive(Clone, Copy)]
pub struct ExpressionCounts {
    pub at: usize,
    pub words: usize,
    pub items: usize,
    pub passed: usize,
}

// Where nothing is counted.
impl From<ExpressionCounts> for Progress {
    ghost from_gives = { λ counts progress. progress ≡ uncounted counts };

    fn from(e: ExpressionCounts) -> Progress {
        Progress {
            at: e.at,
            words: e.words,
        }
    }
}

// A string joined to an expression.
fn join_string(
    text: &[u8],
    tape: &mut [u32],
    v: &Variables,
    s: ExpressionCounts,
    place: usize,
    past: usize,
    count: usize,
) -> Result<ExpressionCounts, Fault>
    requires { Going text.now v.now s × StringAt text.now s.at place past count }
    ensures { JoinsItem text.now v.now s tape.old
        (Reading.characters (characters_in (quotation_at text.now place))) place past tape.new
        result }
{
    if MAX_ITEMS < s.items + count {
        return Err(fault_at(Refusal::OverLimit, place));
    }
    let words = put_characters(text, tape, s.words, place + 1);
    Ok(ExpressionCounts {
        at: past,
        words,
        items: s.items + count,
        ..s
    })
}

// A variable taken into an expression: its word, `base` plus the identifier's length, and the identifier. `passed`
// e-variables can't come any more then.
fn take_variable(
    text: &[u8],
    tape: &mut [u32],
    s: ExpressionCounts,
    x: Span,
    base: usize,
    passed: usize,
) -> ExpressionCounts
    requires { Ready text.now s.at s.words × Identifier text.now s.at x × (s.items < max_items)
        × (base ≤ part_word) }
    ensures { VariableTaken text.now s x base passed tape.old tape.new result }
{
    let words = put_name(text, tape, s.words, base, x);
    ExpressionCounts {
        at: x.past,
        words,
        items: s.items + 1,
        passed,
    }
}

// An s-variable joined to an expression.
fn join_symbol(
    text: &[u8],
    tape: &mut [u32],
    v: &Variables,
    s: ExpressionCounts,
    x: Span,
    place: usize,
) -> Result<ExpressionCounts, Fault>
    requires { Going text.now v.now s × Identifier text.now s.at x }
    ensures { JoinsItem text.now v.now s tape.old
        (Reading.symbol_item (span_text text.now x)) place x.past tape.new result }
{
    if MAX_ITEMS <= s.items {
        return Err(fault_at(Refusal::OverLimit, place));
    }
    check_later(text, v.symbols(), x, place)?;
    Ok(take_variable(text, tape, s, x, SYMBOL_WORD, s.passed))
}

// An e-variable joined to an expression: those of the pattern that came before it can't come any more.
fn join_part(
    text: &[u8],
    tape: &mut [u32],
    v: &Variables,
    s: ExpressionCounts,
    x: Span,
    place: usize,
) -> Result<ExpressionCounts, Fault>
    requires { Going text.now v.now s × Identifier text.now s.at x }
    ensures { JoinsItem text.now v.now s tape.old
        (Reading.part_item (span_text text.now x)) place x.past tape.new result }
{
    if MAX_IDENTIFIER < x.past - x.from || MAX_ITEMS <= s.items {
        return Err(fault_at(Refusal::OverLimit, place));
    }
    let coming = &v.parts()[s.passed..];
    let Some(found) = find(text, coming, x) else {
        return Err(fault_at(Refusal::WrongLaterVariable, place));
    };
    let passed = s.passed + found + 1;
    Ok(take_variable(text, tape, s, x, PART_WORD, passed))
}

// A token joined to an expression, by the item that it is; nothing where it is neither an item nor a word.
fn join(
    text: &[u8],
    tape: &mut [u32],
    v: &Variables,
    s: ExpressionCounts,
    t: Placed,
) -> Result<Option<ExpressionCounts>, Fault>
    requires { Going text.now v.now s × Comes text.now Tokens.inside s.at t }
    ensures { JoinsToken text.now v.now s tape.old t
        tape.new result }
{
    let token = t.token;
    if let Token::Quoted(count) = token {
        let next = join_string(text, tape, v, s, t.place, t.past, count)?;
        return Ok(Some(next));
    }
    if !is_word(t) {
        return Ok(None);
    }
    if let Token::Symbol(x) = token {
        return Ok(Some(join_symbol(text, tape, v, s, x, t.place)?));
    }
    let Token::Part(x) = token else {
        return Err(Fault {
            refusal: Refusal::NotAllowedHere,
            place: t.place,
        });
    };
    Ok(Some(join_part(text, tape, v, s, x, t.place)?))
}

// The word of a call and its name, which stands at a place.
fn put_call(text: &[u8], tape: &mut [u32], words: usize, place: usize, name: Span) -> usize
    requires { Inside text.now name × (words + 1 + (name.past - name.from) ≤ max_table)
        × (name.past - name.from ≤ max_name) × (place ≤ max_table) }
    ensures { WroteOnTape tape.old words
        (tape_word (call_kind + place) (name.past - name.from) ∷ span_text text.now name) result tape.new
        × T (every is_quiet (span_text text.now name)) }
{
    let word = ((CALL_KIND + place) * KIND_WIDTH + (name.past - name.from)) as u32;
    put_named(text, tape, words, word, name)
}

// The `>` of a call.
fn close_call(text: &[u8], tape: &mut [u32], s: ExpressionCounts) -> Result<ExpressionCounts, Fault>
    requires { Ready text.now s.at s.words }
    ensures { Closes text.now s tape.old tape.new result }
{
    let at = pass(text, s.at, Mode::Inside, b'>')?;
    put(tape, s.words, CLOSE_WORD);
    Ok(ExpressionCounts {
        at,
        words: s.words + 1,
        ..s
    })
}

// What comes before a call's argument, after its `<`, which stands at a place: its name, and the word for it.
fn open_call(
    text: &[u8],
    tape: &mut [u32],
    depth: usize,
    s: ExpressionCounts,
    place: usize,
) -> Result<ExpressionCounts, Fault>
    requires { Ready text.now s.at s.words × (s.words < s.at) }
    ensures { Agrees
        (OpeningRead text.now depth s tape.old tape.new)
        (call_opening depth s.items (standing (Tokens.sign Tokens.less_than) place s.at)
        (stream text.now Tokens.naming s.at)) result }
{
    if MAX_NESTING <= depth || MAX_ITEMS <= s.items {
        return Err(fault_at(Refusal::OverLimit, place));
    }
    let t = lex(text, s.at, Mode::Naming);
    let token = t.token;
    let Token::Name(name) = token else {
        return Err(refuse(t));
    };
    check_called(text, name, t.place)?;
    let words = put_call(text, tape, s.words, t.place, name);
    Ok(ExpressionCounts {
        at: t.past,
        words,
        items: s.items + 1,
        ..s
    })
}

// A call that so many calls stand round, after its `<`, which stands at a place.
#[cycle(call_expression)]
fn call(
    text: &[u8],
    tape: &mut [u32],
    v: &Variables,
    depth: usize,
    s: ExpressionCounts,
    place: usize,
) -> Result<ExpressionCounts, Fault>
    requires { Going text.now v.now s × (s.words < s.at) }
    ensures { (bound : ℕ) → length (stream text.now Tokens.naming s.at) ≤ bound
        → Agrees
        (CallRead text.now v.now s tape.old tape.new)
        (Reading.parse_call
        (Reading.parse_expression bound (symbol_names text.now v.now))
        depth (progress_at text.now v.now s)
        (standing (Tokens.sign Tokens.less_than) place s.at)
        (stream text.now Tokens.naming s.at)) result }
{
    let start = open_call(text, tape, depth, s, place)?;
    let argument = expression(text, tape, v, depth + 1, start)?;
    close_call(text, tape, argument)
}

// An expression that so many calls stand round.
#[cycle(call_expression)]
pub fn expression(
    text: &[u8],
    tape: &mut [u32],
    v: &Variables,
    depth: usize,
    start: ExpressionCounts,
) -> Result<ExpressionCounts, Fault>
    requires { Going text.now v.now start }
    ensures { (bound : ℕ) → length (stream text.now Tokens.inside start.at) ≤ bound
        → Agrees
        (ExpressionRead text.now v.now start tape.old
        tape.new)
        (unless_word (Reading.parse_expression bound (symbol_names text.now v.now) depth
        (progress_at text.now v.now start)
        (stream text.now Tokens.inside start.at))) result }
{
    let mut s = start;
    // Each item begins where the one before it ended, so no `for` counts them.
    loop {
        let t = lex(text, s.at, Mode::Inside);
        match join(text, tape, v, s, t)? {
            Some(next) => {
                s = next;
            }
            None => {
                if !is_sign(t, b'<') {
                    return Ok(ExpressionCounts { at: t.place, ..s });
                }
                let opened = ExpressionCounts { at: t.past, ..s };
                s = call(text, tape, v, depth, opened, t.place)?;
            }
        }
    }
}
