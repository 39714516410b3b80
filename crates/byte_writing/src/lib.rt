// Writing bytes of a listing, each only where the buffer has a cell for it, so that writing into no cells counts them.
#![tactic(auto)]

ghost use Rattle.std.specs.Prelude.{◌≡◌, ◌+◌, ◌<◌, [], ◌∷◌, length};
ghost use Rattle.meaning.specs.Listing.{decimal};
ghost use Rattle.meaning.specs.Numerals.{two_digits};
ghost use Rattle.byte_writing.specs.Put.{farthest, zero_digit, backslash};
ghost use Rattle.byte_writing.specs.Wrote.{Begins, BeginsAt, Wrote};

// Cells that are lent, and the place of the next byte, which may lie past their end.
#[derive(Drop)]
pub struct ByteWriter<'a> {
    cells: &'a mut [u8],
    at: usize,
}

// The byte of one decimal digit.
fn digit(number: u32) -> u8
    requires { number < 10 }
    ensures { result ≡ zero_digit + number }
{
    b'0' + number as u8
}

impl<'a> ByteWriter<'a> {
    // A writer at the first of these cells.
    pub fn new(cells: &'a mut [u8]) -> ByteWriter<'a>
        ensures { Begins cells.entry result }
    {
        ByteWriter { cells, at: 0 }
    }

    // A writer at this place of these cells, which may lie past their end.
    pub fn at(cells: &'a mut [u8], at: usize) -> ByteWriter<'a>
        ensures { BeginsAt cells.entry at result }
    {
        ByteWriter { cells, at }
    }

    // How many bytes were put.
    pub fn count(&self) -> usize
        ensures { result ≡ self.now.at }
    {
        self.at
    }

    // One byte.
    pub fn put(&mut self, byte: u8)
        requires { self.old.at < farthest }
        ensures { Wrote self.old (byte ∷ []) self.new }
    {
        if self.at < self.cells.len() {
            self.cells[self.at] = byte;
        }
        self.at += 1;
    }

    // All bytes of a text.
    pub fn put_all(&mut self, text: &[u8])
        requires { self.old.at + length text.now < farthest }
        ensures { Wrote self.old text.now self.new }
    {
        for &byte in text {
            self.put(byte);
        }
    }

    // A byte with a backslash before it.
    pub fn put_escape(&mut self, byte: u8)
        requires { self.old.at + 1 < farthest }
        ensures { Wrote self.old (backslash ∷ byte ∷ []) self.new }
    {
        self.put(b'\\');
        self.put(byte);
    }

    // The two digits of a number below 100.
    pub fn put_two_digits(&mut self, number: u32)
        requires { (number < 100) × (self.old.at + 1 < farthest) }
        ensures { Wrote self.old (two_digits number) self.new }
    {
        self.put(digit(number / 10));
        self.put(digit(number % 10));
    }

    // The digits of a number below 1,000, with no leading zeros.
    pub fn put_decimal(&mut self, number: u32)
        requires { (number < 1000) × (self.old.at + 2 < farthest) }
        ensures { Wrote self.old (decimal number) self.new }
    {
        if number < 10 {
            return self.put(digit(number));
        }
        if number < 100 {
            return self.put_two_digits(number);
        }
        self.put(digit(number / 100));
        self.put_two_digits(number % 100);
    }
}
