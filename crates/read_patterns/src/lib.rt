// The pattern's reader.
#![tactic(auto)]

ghost use Rattle.std.specs.Prelude.{◌≡◌, ◌+◌, ◌≤◌, ◌<◌, [], ◌∷◌, ◌++◌, false, ltb, length, IfErr};
ghost use Rattle.std.specs.List.{All};
ghost use Rattle.meaning.specs.Choice.{pick, either};
ghost use Rattle.meaning.specs.Tokens as Tokens;
ghost use Rattle.meaning.specs.Reading as Reading;
ghost use Rattle.meaning.specs.Allowed.{member, max_symbols};
ghost use Rattle.read_tokens.specs.View.{characters_in, quotation_at, span_text, stream, Comes};
ghost use Rattle.answers.specs.Numbers.{fault_number};
ghost use Rattle.read_bookkeeping.specs.Answered.{Agrees};
ghost use Rattle.read_bookkeeping.specs.Tables.{Inside, names_in};
ghost use Rattle.read_bookkeeping.specs.Tokened.{unless_word};
ghost use Rattle.read_bookkeeping.specs.Written.{Ready};
ghost use Rattle.read_bookkeeping.specs.Items.{symbol_spans, part_spans, symbol_names, part_names};
ghost use Rattle.read_bookkeeping.specs.Items.{Known, Identifier, StringAt};
ghost use Rattle.read_patterns.specs.Patterns.{PatternGoing, pattern_symbol_fault, pattern_part_fault};
ghost use Rattle.read_patterns.specs.Patterns.{AddsString, AddsItem, AddsToken, PatternRead};

use answers::{Fault, Refusal};
use read_bookkeeping::names::find;
use read_bookkeeping::progress::{is_word, refuse_if};
use read_bookkeeping::variables::{MAX_PARTS, Variables};
use read_bookkeeping::writing::{put_characters, put_name};
use read_tokens::{Mode, Placed, Span, Token, lex};
use tape_words::limits::{MAX_IDENTIFIER, MAX_LETTERS, MAX_SYMBOLS};
use tape_words::wide::{PART_WORD, SYMBOL_WORD};

// A pattern so far: the place in the text and the words on the tape, its letters, and whether it ends in an e-variable.
#[derive(Clone, Copy)]
pub struct Counts {
    pub at: usize,
    pub words: usize,
    pub letters: usize,
    pub ending: bool,
}

// A string added to a pattern.
fn add_string(
    text: &[u8],
    tape: &mut [u32],
    p: Counts,
    place: usize,
    past: usize,
    count: usize,
) -> Result<Counts, Fault>
    requires { PatternGoing text.now p × StringAt text.now p.at place past count }
    ensures { AddsString text.now p tape.old
        (Reading.characters (characters_in (quotation_at text.now place))) place past tape.new result }
{
    refuse_if(MAX_LETTERS < p.letters + count, Refusal::OverLimit, place)?;
    let words = put_characters(text, tape, p.words, place + 1);
    Ok(Counts {
        at: past,
        words,
        letters: p.letters + count,
        ending: p.ending && count == 0,
    })
}

// Whether text[x] is one of these names.
fn is_among(text: &[u8], names: &[Span], x: Span) -> bool
    requires { Inside text.now x × All (Inside text.now) names.now }
    ensures { result ≡ member (span_text text.now x) (names_in text.now names.now) }
{
    find(text, names, x).is_some()
}

// Whether a pattern with these variables may have an s-variable, which is known or new there.
fn has_room(variables: &Variables, known: bool) -> bool
    ensures { result ≡ either known (ltb (length (symbol_spans variables.now)) max_symbols) }
{
    known || variables.symbols().len() < MAX_SYMBOLS
}

// Refuses an s-variable of a pattern with so many letters, which is known or new there, where something is wrong with
// it. Its token stands at a place.
fn check_symbol(
    text: &[u8],
    variables: &Variables,
    letters: usize,
    known: bool,
    x: Span,
    place: usize,
) -> Result<(), Fault>
    requires { Known text.now variables.now × Inside text.now x
        × (known ≡ member (span_text text.now x) (symbol_names text.now variables.now)) }
    ensures number { fault_number result ≡ pattern_symbol_fault letters
        (symbol_names text.now variables.now) (part_names text.now variables.now)
        (span_text text.now x) }
    ensures place { IfErr result (λ fault. fault.place ≡ place) }
{
    refuse_if(MAX_IDENTIFIER < x.len(), Refusal::OverLimit, place)?;
    refuse_if(MAX_LETTERS <= letters, Refusal::OverLimit, place)?;
    refuse_if(!has_room(variables, known), Refusal::OverLimit, place)?;
    let shared = is_among(text, variables.parts(), x);
    refuse_if(shared, Refusal::WrongPatternVariable, place)
}

// Adds an s-variable to those of a pattern unless it is known there.
fn remember(variables: &mut Variables, known: bool, x: Span)
    requires { known ≡ false → length (symbol_spans variables.old) < max_symbols }
    ensures symbols { symbol_spans variables.new
        ≡ pick known (symbol_spans variables.old) (symbol_spans variables.old ++ x ∷ []) }
    ensures parts { part_spans variables.new ≡ part_spans variables.old }
{
    if !known {
        variables.add_symbol(x);
    }
}

// An s-variable added to a pattern, and to its variables if it is new there. Its token stands at a place.
fn add_symbol(
    text: &[u8],
    tape: &mut [u32],
    variables: &mut Variables,
    p: Counts,
    x: Span,
    place: usize,
) -> Result<Counts, Fault>
    requires { Known text.now variables.old × PatternGoing text.now p × Identifier text.now p.at x }
    ensures { AddsItem text.now variables.old p tape.old
        (Reading.symbol_item (span_text text.now x)) place x.past variables.new
        tape.new result }
{
    let known = is_among(text, variables.symbols(), x);
    check_symbol(text, variables, p.letters, known, x, place)?;
    remember(variables, known, x);
    let words = put_name(text, tape, p.words, SYMBOL_WORD, x);
    Ok(Counts {
        at: x.past,
        words,
        letters: p.letters + 1,
        ending: false,
    })
}

// Refuses an e-variable of a pattern, which ends in one before it or not, where something is wrong with it. Its token
// stands at a place.
fn check_part(
    text: &[u8],
    variables: &Variables,
    ending: bool,
    x: Span,
    place: usize,
) -> Result<(), Fault>
    requires { Known text.now variables.now × Inside text.now x }
    ensures number { fault_number result ≡ pattern_part_fault
        (symbol_names text.now variables.now) (part_names text.now variables.now)
        ending (span_text text.now x) }
    ensures place { IfErr result (λ fault. fault.place ≡ place) }
{
    let full = MAX_PARTS <= variables.parts().len();
    refuse_if(full, Refusal::NotAllowedHere, place)?;
    refuse_if(MAX_IDENTIFIER < x.len(), Refusal::OverLimit, place)?;
    let shared = is_among(text, variables.symbols(), x);
    refuse_if(shared, Refusal::WrongPatternVariable, place)?;
    let known = is_among(text, variables.parts(), x);
    refuse_if(known, Refusal::WrongPatternVariable, place)?;
    refuse_if(ending, Refusal::WrongPatternVariable, place)
}

// An e-variable added to a pattern and to its variables. Its token stands at a place.
fn add_part(
    text: &[u8],
    tape: &mut [u32],
    variables: &mut Variables,
    p: Counts,
    x: Span,
    place: usize,
) -> Result<Counts, Fault>
    requires { Known text.now variables.old × PatternGoing text.now p × Identifier text.now p.at x }
    ensures { AddsItem text.now variables.old p tape.old
        (Reading.part_item (span_text text.now x)) place x.past variables.new
        tape.new result }
{
    check_part(text, variables, p.ending, x, place)?;
    variables.add_part(x);
    let words = put_name(text, tape, p.words, PART_WORD, x);
    Ok(Counts {
        at: x.past,
        words,
        ending: true,
        ..p
    })
}

// A token added to a pattern, by the item that it is; nothing where it is neither an item nor a word.
fn add(
    text: &[u8],
    tape: &mut [u32],
    variables: &mut Variables,
    p: Counts,
    t: Placed,
) -> Result<Option<Counts>, Fault>
    requires { Known text.now variables.old × PatternGoing text.now p
        × Comes text.now Tokens.inside p.at t }
    ensures { AddsToken text.now variables.old p tape.old t variables.new
        tape.new result }
{
    let token = t.token;
    if let Token::Quoted(count) = token {
        let next = add_string(text, tape, p, t.place, t.past, count)?;
        return Ok(Some(next));
    }
    if !is_word(t) {
        return Ok(None);
    }
    if let Token::Symbol(x) = token {
        return Ok(Some(add_symbol(text, tape, variables, p, x, t.place)?));
    }
    let Token::Part(x) = token else {
        return Err(Fault {
            refusal: Refusal::NotAllowedHere,
            place: t.place,
        });
    };
    Ok(Some(add_part(text, tape, variables, p, x, t.place)?))
}

// Reads a pattern, and its variables into what is lent for them, whatever that held.
pub fn pattern(
    text: &[u8],
    tape: &mut [u32],
    variables: &mut Variables,
    at: usize,
    words: usize,
) -> Result<Counts, Fault>
    requires { Ready text.now at words }
    ensures { Agrees (PatternRead text.now at words tape.old variables.new
        tape.new) (unless_word (Reading.parse_pattern [] (stream text.now Tokens.inside at)))
        result }
{
    variables.clear();
    let mut p = Counts {
        at,
        words,
        letters: 0,
        ending: false,
    };
    // Each token begins where the one before it ended, so no `for` counts them.
    loop {
        let t = lex(text, p.at, Mode::Inside);
        match add(text, tape, variables, p, t)? {
            Some(next) => p = next,
            None => {
                return Ok(Counts { at: t.place, ..p });
            }
        }
    }
}
