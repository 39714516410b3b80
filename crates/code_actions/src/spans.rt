// Spans: from where p stands to an e-variable, the e-variable itself, and the rest of the field.
ghost use Rattle.std.specs.Prelude.{◌≡◌, ◌+◌, ◌≤◌};
ghost use Rattle.meaning.specs.Allowed.{max_letters};
ghost use Rattle.meaning.specs.Packing.{length_number};
ghost use Rattle.code_actions.specs.Spanning.{length_meant, code_span, gap_by, piece_span, stand_after, rest_by};
ghost use Rattle.code_actions.specs.Spanning.{ends_by};

use code_numbers::wide::{LEFT, NULL, RIGHT, WHOLE};
use code_patterns::pattern::Lengths;
use tape_words::tape::Parts;

// Where p stands: at the field's start, or just after its first or second e-variable.
#[derive(Clone, Copy)]
pub enum Stand {
    AtStart,
    AfterFirst,
    AfterSecond,
}

// A length of the field, which a span counts from.
#[derive(Clone, Copy)]
pub enum FieldLength {
    Null,
    Whole,
    Left,
    Right,
}

impl FieldLength {
    // Its number in a word.
    pub fn number(self) -> usize
        ensures { result ≡ length_number (length_meant self) }
    {
        match self {
            FieldLength::Null => NULL,
            FieldLength::Whole => WHOLE,
            FieldLength::Left => LEFT,
            FieldLength::Right => RIGHT,
        }
    }
}

// A length of the field, what is added to it and what stays back.
#[derive(Clone, Copy)]
pub struct Span {
    pub register: FieldLength,
    pub add: usize,
    pub back: usize,
}

fn span_of(register: FieldLength, add: usize, back: usize) -> Span
    ensures { result ≡ code_span register add back }
{
    Span {
        register,
        add,
        back,
    }
}

// From where p stands to an e-variable, which is the pattern's first or not. Here and below `first` is a `bool`: it is
// what a comparison of two names answers.
pub fn gap_of(lengths: Lengths, first: bool, stand: Stand) -> Span
    ensures { result ≡ gap_by lengths.parts lengths first stand }
{
    match lengths.parts {
        Parts::Zero => span_of(FieldLength::Null, 0, 0),
        Parts::One => span_of(FieldLength::Null, lengths.first, 0),
        Parts::Two if first => span_of(FieldLength::Null, lengths.first, 0),
        Parts::Two => match stand {
            Stand::AtStart => span_of(FieldLength::Left, lengths.second, 0),
            Stand::AfterFirst => span_of(FieldLength::Null, lengths.second, 0),
            Stand::AfterSecond => span_of(FieldLength::Null, 0, 0),
        },
    }
}

// The e-variable itself.
pub fn piece_span(lengths: Lengths, first: bool) -> Span
    requires { lengths.first + lengths.second + lengths.third ≤ max_letters }
    ensures { result ≡ piece_span lengths.parts lengths first }
{
    match lengths.parts {
        Parts::Zero => span_of(FieldLength::Null, 0, 0),
        Parts::One => span_of(FieldLength::Whole, 0, lengths.first + lengths.second),
        Parts::Two if first => span_of(FieldLength::Left, 0, lengths.first),
        Parts::Two => span_of(FieldLength::Right, 0, lengths.second + lengths.third),
    }
}

// Where p stands after it.
pub fn stand_after(parts: Parts, first: bool, stand: Stand) -> Stand
    ensures { result ≡ stand_after parts first stand }
{
    match parts {
        Parts::Zero => stand,
        Parts::One => Stand::AfterFirst,
        Parts::Two if first => Stand::AfterFirst,
        Parts::Two => Stand::AfterSecond,
    }
}

// The rest of the field from where p stands.
pub fn rest_of(lengths: Lengths, stand: Stand) -> Span
    ensures { result ≡ rest_by lengths.parts lengths stand }
{
    match (lengths.parts, stand) {
        (Parts::Zero, _) | (_, Stand::AtStart) => span_of(FieldLength::Whole, 0, 0),
        (Parts::One, Stand::AfterFirst) => span_of(FieldLength::Null, lengths.second, 0),
        (Parts::One, Stand::AfterSecond) => span_of(FieldLength::Null, 0, 0),
        (Parts::Two, Stand::AfterFirst) => span_of(FieldLength::Right, 0, 0),
        (Parts::Two, Stand::AfterSecond) => span_of(FieldLength::Null, lengths.third, 0),
    }
}

// An e-variable ends the pattern: it is the last, and no template comes after it.
pub fn ends_pattern(lengths: Lengths, first: bool) -> bool
    ensures { result ≡ ends_by lengths.parts lengths first }
{
    match lengths.parts {
        Parts::Zero => false,
        Parts::One => lengths.second == 0,
        Parts::Two => !first && lengths.third == 0,
    }
}
