// Names and identifiers: parts of the text, and what is wrong with them.
ghost use Rattle.std.specs.Prelude.{◌≡◌, IfErr};
ghost use Rattle.std.specs.List.{All};
ghost use Rattle.meaning.specs.Choice.{same_bytes};
ghost use Rattle.meaning.specs.Names.{predicate_of};
ghost use Rattle.meaning.specs.Reading.{called_fault, subject_fault};
ghost use Rattle.byte_classes.specs.Classed.{class_found};
ghost use Rattle.read_tokens.specs.View.{span_text};
ghost use Rattle.answers.specs.Numbers.{fault_number};
ghost use Rattle.read_bookkeeping.specs.Tables.{Inside, names_in, place_in};

use crate::progress::refuse_if;
use answers::{Fault, Refusal};
use byte_classes::Class;
use read_tokens::Span;
use tape_words::limits::{MAX_IDENTIFIER, MAX_NAME};

// Whether text[x] is `word`.
pub fn spells(text: &[u8], x: Span, word: &[u8]) -> bool
    requires { Inside text.now x }
    ensures { result ≡ same_bytes (span_text text.now x) word.now }
{
    x.of(text) == word
}

// The index of the first of these names that is text[x].
pub fn find(text: &[u8], names: &[Span], x: Span) -> Option<usize>
    requires { Inside text.now x × All (Inside text.now) names.now }
    ensures { result ≡ place_in (span_text text.now x) (names_in text.now names.now) }
{
    for (i, y) in names.iter().enumerate() {
        if spells(text, x, y.of(text)) {
            return Some(i);
        }
    }
    None
}

// The class that text[x] asks for as a predicate's name, if it is one's. A chain of tests: of a `match` on byte strings
// the goals stay open.
#[tactic(auto, unfolding(meaning::specs::Names::class_named))]
pub fn class_named(text: &[u8], x: Span) -> Option<Class>
    requires { Inside text.now x }
    ensures { class_found result ≡ predicate_of (span_text text.now x) }
{
    if spells(text, x, b"IsDigit") {
        Some(Class::Digit)
    } else if spells(text, x, b"IsUpper") {
        Some(Class::Upper)
    } else if spells(text, x, b"IsLower") {
        Some(Class::Lower)
    } else if spells(text, x, b"IsLetter") {
        Some(Class::Letter)
    } else if spells(text, x, b"IsBlank") {
        Some(Class::Blank)
    } else {
        None
    }
}

// Refuses the called name text[x], which stands at a place, where something is wrong with it.
pub fn check_called(text: &[u8], x: Span, place: usize) -> Result<(), Fault>
    requires { Inside text.now x }
    ensures number { fault_number result ≡ called_fault (span_text text.now x) }
    ensures place { IfErr result (λ fault. fault.place ≡ place) }
{
    refuse_if(MAX_NAME < x.len(), Refusal::OverLimit, place)?;
    refuse_if(class_named(text, x).is_some(), Refusal::WrongName, place)
}

// Refuses the variable text[x] after the pattern, whose own of its kind are these, where something is wrong with it.
// Its token stands at a place.
pub fn check_later(text: &[u8], names: &[Span], x: Span, place: usize) -> Result<(), Fault>
    requires { Inside text.now x × All (Inside text.now) names.now }
    ensures number { fault_number result
        ≡ subject_fault (names_in text.now names.now) (span_text text.now x) }
    ensures place { IfErr result (λ fault. fault.place ≡ place) }
{
    refuse_if(MAX_IDENTIFIER < x.len(), Refusal::OverLimit, place)?;
    let known = find(text, names, x).is_some();
    refuse_if(!known, Refusal::WrongLaterVariable, place)
}
