// The lengths of a pattern's templates, and where its first e-variable stands.
ghost use Rattle.std.specs.Prelude.{◌≡◌, ◌+◌, ◌≤◌, ◌<◌, ◌^◌, length};
ghost use Rattle.meaning.specs.Allowed.{max_letters};
ghost use Rattle.meaning.specs.Choice.{same_bytes};
ghost use Rattle.tape_words.specs.Words.{head_name};
ghost use Rattle.code_patterns.specs.Scans.{one_more};
ghost use Rattle.code_patterns.specs.Measuring.{longer_lengths, cut_lengths, variable_place, past_letter, past_part};
ghost use Rattle.code_patterns.specs.Measuring.{InPattern, MeasuresOn, MeasuresAll};

use tape_words::names::name_is;
use tape_words::tape::{Parts, Piece, name_size, piece_at};

// How many e-variables there are, and the length of the template before, between and after them.
#[derive(Clone, Copy)]
pub struct Lengths {
    pub parts: Parts,
    pub first: usize,
    pub second: usize,
    pub third: usize,
}

impl Lengths {
    // One letter more in the last template.
    fn longer(self) -> Lengths
        requires { self.first + self.second + self.third < max_letters }
        ensures { result ≡ longer_lengths self }
    {
        match self.parts {
            Parts::Zero => Lengths {
                first: self.first + 1,
                ..self
            },
            Parts::One => Lengths {
                second: self.second + 1,
                ..self
            },
            Parts::Two => Lengths {
                third: self.third + 1,
                ..self
            },
        }
    }

    // The last template ends at an e-variable.
    fn cut(self) -> Lengths
        ensures { result ≡ cut_lengths self }
    {
        Lengths {
            parts: one_more(self.parts),
            ..self
        }
    }
}

pub fn one_more(parts: Parts) -> Parts
    ensures { result ≡ one_more parts }
{
    match parts {
        Parts::Zero => Parts::One,
        Parts::One | Parts::Two => Parts::Two,
    }
}

// What is measured so far: `variable` is the place of the first e-variable, `next` the next word.
#[derive(Clone, Copy)]
pub struct Pattern {
    pub lengths: Lengths,
    pub variable: usize,
    pub letters: usize,
    pub next: usize,
}

impl Pattern {
    // Its first e-variable has this name.
    pub fn is_first(self, tape: &[u32], name: &[u32]) -> bool
        ensures { result ≡ same_bytes name.now (head_name tape.now self.variable) }
    {
        name_is(tape, self.variable, name)
    }

    // Past a letter whose name is of so many words.
    fn past_letter(self, size: usize) -> Pattern
        requires third_bound { self.lengths.first + self.lengths.second + self.lengths.third < max_letters }
        requires letters_lt_max_letters { (self.letters < max_letters) × (self.next + 1 + size < 2 ^ 62) }
        ensures { result ≡ past_letter self size }
    {
        Pattern {
            lengths: self.lengths.longer(),
            letters: self.letters + 1,
            next: self.next + 1 + size,
            ..self
        }
    }

    // Past an e-variable.
    fn past_part(self, size: usize) -> Pattern
        requires { self.next + 1 + size < 2 ^ 62 }
        ensures { result ≡ past_part self size }
    {
        Pattern {
            lengths: self.lengths.cut(),
            variable: first_variable(self.lengths.parts, self.variable, self.next),
            next: self.next + 1 + size,
            ..self
        }
    }
}

// The place of the first e-variable, where the one at `next` comes after so many.
fn first_variable(parts: Parts, variable: usize, next: usize) -> usize
    ensures { result ≡ variable_place parts variable next }
{
    match parts {
        Parts::Zero => next,
        Parts::One | Parts::Two => variable,
    }
}

// One piece further; none where the pattern ends.
fn measure_piece(tape: &[u32], m: Pattern) -> Option<Pattern>
    requires { InPattern tape.now m }
    ensures { MeasuresOn tape.now m result }
{
    match piece_at(tape, m.next, m.letters, m.lengths.parts) {
        Piece::Character => Some(m.past_letter(0)),
        Piece::SVariable => Some(m.past_letter(name_size(tape, m.next))),
        Piece::EVariable => Some(m.past_part(name_size(tape, m.next))),
        Piece::PatternEnd => None,
    }
}

// The pattern that begins at `start`.
pub fn measure(tape: &[u32], start: usize) -> Pattern
    requires { start ≤ length tape.now }
    ensures { MeasuresAll tape.now start result }
{
    let lengths = Lengths {
        parts: Parts::Zero,
        first: 0,
        second: 0,
        third: 0,
    };
    let mut m = Pattern {
        lengths,
        variable: start,
        letters: 0,
        next: start,
    };
    while let Some(further) = measure_piece(tape, m) {
        m = further;
    }
    m
}
