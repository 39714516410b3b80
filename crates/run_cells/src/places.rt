// The places of the three kinds of cells: a cell of in, a cell of out, a byte of the record. They are one type, told
// apart by a marker, so that a cell of one stack can't be used on the other.
ghost use Rattle.std.specs.Prelude.{◌+◌, ◌-◌, ◌≤◌, ◌<◌, ◌^◌, min, max, ◌≡◌, length, take, drop, set};
ghost use Rattle.run_cells.specs.Places.{place};

use std::marker::PhantomData;

// The cells of in, those of out, and the bytes of the record. A place in the code is `run_code_places`'s CodePlace.
#[derive(Clone, Copy)]
pub struct In;

#[derive(Clone, Copy)]
pub struct Out;

#[derive(Clone, Copy)]
pub struct Record;

// A place among the cells of a kind: how many of them stand before it.
#[derive(Clone, Copy)]
pub struct Place<S: Copy>(pub usize, pub PhantomData<S>);

pub type InCell = Place<In>;

pub type OutCell = Place<Out>;

pub type RecordByte = Place<Record>;

impl<S: Copy> Place<S> {
    pub fn new(index: usize) -> Place<S>
        ensures { result ≡ place index }
    {
        Place(index, PhantomData)
    }

    pub fn after(self, count: usize) -> Place<S>
        requires { self.0 + count < 2 ^ 64 }
        ensures { result ≡ place (self.0 + count) }
    {
        Place::new(self.0 + count)
    }

    pub fn before(self, count: usize) -> Place<S>
        requires { count ≤ self.0 }
        ensures { result ≡ place (self.0 - count) }
    {
        Place::new(self.0 - count)
    }

    // How many cells stand before it.
    pub fn count_before(self) -> usize
        ensures { result ≡ self.0 }
    {
        self.0
    }

    // How many cells there are up to another place, and from this one on.
    pub fn until(self, end: Place<S>) -> usize
        requires { self.0 ≤ end.0 }
        ensures { result ≡ end.0 - self.0 }
    {
        end.0 - self.0
    }

    pub fn room(self, cells: &[u8]) -> usize
        requires { self.0 ≤ length cells.now }
        ensures { result ≡ length cells.now - self.0 }
    {
        cells.len() - self.0
    }

    // The one of two places that stands further to the right, and the one further to the left.
    pub fn later(self, other: Place<S>) -> Place<S>
        ensures { result.0 ≡ max self.0 other.0 }
    {
        if self.0 < other.0 { other } else { self }
    }

    pub fn earlier(self, other: Place<S>) -> Place<S>
        ensures { result.0 ≡ min self.0 other.0 }
    {
        if self.0 < other.0 { self } else { other }
    }
}

// The bytes from one place up to another.
pub fn part<'a, S: Copy>(cells: &'a [u8], from: Place<S>, to: Place<S>) -> &'a [u8]
    requires from_le_to { from.0 ≤ to.0 }
    requires to_in_bounds { to.0 ≤ length cells.now }
    ensures { result.now ≡ take (to.0 - from.0) (drop from.0 cells.now) }
{
    &cells[from.0..to.0]
}

pub fn put<S: Copy>(cells: &mut [u8], at: Place<S>, byte: u8)
    requires { at.0 < length cells.old }
    ensures { cells.new ≡ set cells.old at.0 byte }
{
    cells[at.0] = byte;
}
