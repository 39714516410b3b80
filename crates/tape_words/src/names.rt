// Names, as slices of the tape: finding one in a list of heads, telling how a call is done, and finding who recovers a
// function.
ghost use Rattle.std.specs.Prelude.{◌≡◌, ◌++◌, ◌<◌, ◌≤◌, length, IsTrue, IfSome};
ghost use Rattle.meaning.specs.Choice.{same_bytes, starts_with};
ghost use Rattle.meaning.specs.Names.{is_emission, calling_of, is_built_in, is_recovering};
ghost use Rattle.tape_words.specs.Words.{head_name, head_names};
ghost use Rattle.tape_words.specs.Finding.{place_number, number_among, calling_in, is_known_among, recoverer_among};

use crate::tape::name_at;
use code_numbers::operations::Operation;

// How a call of a name is done: as an emission, as an angle call, or by applying the function declared under it.
#[derive(Clone, Copy)]
pub enum Calling {
    Emission,
    Angles(Operation),
    Function,
}

// The names are the same.
fn same_name(name: &[u32], other: &[u32]) -> bool
    ensures { result ≡ same_bytes name.now other.now }
{
    name == other
}

// The name after the word at `head` is this.
pub fn name_is(tape: &[u32], head: usize, name: &[u32]) -> bool
    ensures { result ≡ same_bytes name.now (head_name tape.now head) }
{
    same_name(name, name_at(tape, head))
}

// The name begins with a prefix.
fn starts_with(name: &[u32], prefix: &[u8]) -> bool
    ensures value { result ≡ starts_with prefix.now name.now }
    ensures bound { IsTrue result → length prefix.now ≤ length name.now }
{
    prefix.len() <= name.len()
        && prefix
            .iter()
            .zip(name)
            .all(|(byte, word)| u32::from(*byte) == *word)
}

// It is a word.
fn spells(name: &[u32], word: &[u8]) -> bool
    ensures { result ≡ same_bytes name.now word.now }
{
    name.len() == word.len() && starts_with(name, word)
}

// It is a prefix, and then another name.
fn is_prefixed(name: &[u32], prefix: &[u8], other: &[u32]) -> bool
    ensures { result ≡ same_bytes (prefix.now ++ other.now) name.now }
{
    starts_with(name, prefix) && same_name(other, &name[prefix.len()..])
}

// The place in a list of heads, counted from 0, of the first whose name it is.
pub fn find(tape: &[u32], heads: &[usize], name: &[u32]) -> Option<usize>
    ensures number { place_number result ≡ number_among 0 (head_names tape.now heads.now) name.now }
    ensures bound { IfSome result (λ k. k < length heads.now) }
{
    heads.iter().position(|head| name_is(tape, *head, name))
}

// It begins with Emit.
fn is_emission(name: &[u32]) -> bool
    ensures { result ≡ is_emission name.now }
{
    starts_with(name, b"Emit")
}

// How a call of it is done.
pub fn calling_of(name: &[u32]) -> Calling
    ensures { result ≡ calling_in (calling_of name.now) }
{
    if is_emission(name) {
        return Calling::Emission;
    }
    if spells(name, b"DmAdd") {
        return Calling::Angles(Operation::Plus);
    }
    if spells(name, b"DmSub") {
        return Calling::Angles(Operation::Minus);
    }
    Calling::Function
}

// A call of it needs no declaration. It asks no more than that, and is short, so that the compiler puts it where it is
// asked.
pub fn is_built_in(name: &[u32]) -> bool
    ensures { result ≡ is_built_in name.now }
{
    is_emission(name) || spells(name, b"DmAdd") || spells(name, b"DmSub")
}

// A call of it can be done: it is built in, or one of the heads has it.
pub fn is_known(tape: &[u32], heads: &[usize], name: &[u32]) -> bool
    ensures { result ≡ is_known_among (head_names tape.now heads.now) name.now }
{
    is_built_in(name) || find(tape, heads, name).is_some()
}

// It begins with Recover.
fn is_recovering(name: &[u32]) -> bool
    ensures { result ≡ is_recovering name.now }
{
    starts_with(name, b"Recover")
}

// The place of the function that recovers the one with this name.
pub fn find_recoverer(tape: &[u32], heads: &[usize], name: &[u32]) -> Option<usize>
    ensures number { place_number result ≡ recoverer_among (head_names tape.now heads.now) name.now }
    ensures bound { IfSome result (λ k. k < length heads.now) }
{
    if is_recovering(name) {
        return None;
    }
    heads
        .iter()
        .position(|head| is_prefixed(name_at(tape, *head), b"Recover", name))
}
