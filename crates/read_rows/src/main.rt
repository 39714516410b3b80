// Reads each line of standard input as a table text, and prints the number and place that it is answered with.
// In a line `^` is byte 10, `%` byte 13 and `#` byte 9; `[` marks a place, each `+` doubles what stands from there on,
// and `!` takes the last byte away: `=[ab++!` is `=abababa`. What must come out, `stdout`, is worked out by hand from
// the paper.
#![tactic(auto)]

ghost use Rattle.std.specs.Prelude.{◌≤◌};

use std::io;
use std::io::Read;

// The bytes of input that are read, and those that a line may have.
const INPUT_BYTES: u64 = 65536;

const TEXT_BYTES: usize = 65536;

// The text of a line so far, which are the first `length` bytes of `text`, and the place that is marked in it.
#[derive(Drop)]
struct Line {
    text: [u8; TEXT_BYTES],
    length: usize,
    mark: usize,
    ghost fits: { length ≤ 65536 },
}

impl Line {
    fn new() -> Self {
        Line {
            text: [0; TEXT_BYTES],
            length: 0,
            mark: 0,
        }
    }

    fn clear(&mut self) {
        self.length = 0;
        self.mark = 0;
    }

    fn bytes(&self) -> &[u8] {
        &self.text[..self.length]
    }

    // A byte more; a text that is full takes none.
    fn put(&mut self, byte: u8) {
        if self.length < TEXT_BYTES {
            self.text[self.length] = byte;
            self.length += 1;
        }
    }

    // The bytes from the mark on stand there twice.
    fn double(&mut self) {
        for from in self.mark..self.length {
            let byte = self.text[from];
            self.put(byte);
        }
    }

    // What a byte of a line says.
    fn add(&mut self, byte: u8) {
        match byte {
            b'[' => self.mark = self.length,
            b'+' => self.double(),
            b'!' => self.length = self.length.saturating_sub(1),
            b'^' => self.put(b'\n'),
            b'%' => self.put(b'\r'),
            b'#' => self.put(b'\t'),
            _ => self.put(byte),
        }
    }
}

// The tape, in a function of its own, so that no caller's facts hold its elements.
fn tape_room() -> [u32; 32768] {
    [0; 32768]
}

fn row(rt: &impl Print, text: &[u8]) -> io::Result<()> {
    let mut tape = tape_room();
    let (number, place) = match read_table::read(text, &mut tape) {
        Ok(_) => (0, 0),
        Err(fault) => (u64::from(fault.refusal), fault.place),
    };
    println!(rt; "{number} {place}")
}

fn rows<R: Input + Print>(rt: &R) -> io::Result<()> {
    let input = rt.reader().take(INPUT_BYTES);
    let mut line = Line::new();
    for byte in input.bytes() {
        let byte = byte?;
        if byte == b'\n' {
            row(rt, line.bytes())?;
            line.clear();
        } else {
            line.add(byte);
        }
    }
    Ok(())
}

fn main(rt: HostRuntime) -> io::Result<()> {
    rows(&rt)
}
