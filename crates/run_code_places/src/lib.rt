// A place in the code, places in a field, a number of the code's words as a place or a count, and what a word is
// refused with that asks for what isn't there.
#![tactic(auto)]

ghost use Rattle.std.specs.Prelude.{◌≡◌};

// A place in the code. It is counted apart from the cells of in and of out.
#[derive(Clone, Copy)]
pub struct CodePlace(pub usize);

// Places in a field one after another: the first, and how many there are.
#[derive(Clone, Copy)]
pub struct Places {
    pub first: usize,
    pub count: usize,
}

// A word asks for what isn't there: the run ends with 18.
#[derive(Clone, Copy)]
pub struct Wrong;

// A word's number as a place or a count.
pub fn wide(word: u32) -> usize
    ensures { result ≡ word }
{
    word as usize
}
