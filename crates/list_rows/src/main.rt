// Lists stored tapes and prints what is handed back: the listing's length, or 17, and the whole buffer as it is left.
// What must come out, `stdout`, is worked out by hand from the paper. A tape's words are written as the definition of
// the tape lays them down: a character is its byte; 0x10n and 0x20n begin an s-variable and an e-variable of n bytes;
// 0x300 and 20 for each byte, 10 for an e-variable, 5 for 'T' and the class begin a condition; 0x400 is `=`, 0x500 `>`,
// 0x600 the end of a sentence and 0x700 of a function; 0x80n begins a function, and 0x90n and more a call, with the
// place of its name above that.
#![tactic(auto)]

mod codes;
mod items;
mod room;

use room::show;
use std::io;

// G { s1 e2 = <G e2> s1; = }
fn reversal(rt: &impl Print, out: &mut [u8]) -> io::Result<()> {
    show(
        rt,
        &[
            0x801, 71, 0x101, 49, 0x201, 50, 0x400, 0x1601, 71, 0x201, 50, 0x500, 0x101, 49, 0x600,
            0x400, 0x700,
        ],
        out,
    )
}

// P { e1 = <Q 'ab' e1> } Q { e1 = e1 }
fn two_functions(rt: &impl Print, out: &mut [u8]) -> io::Result<()> {
    show(
        rt,
        &[
            0x801, 80, 0x201, 49, 0x400, 0x1301, 81, 97, 98, 0x201, 49, 0x500, 0x700, 0x801, 81,
            0x201, 49, 0x400, 0x201, 49, 0x700,
        ],
        out,
    )
}

fn list_all(rt: &impl Print) -> io::Result<()> {
    reversal(rt, &mut [b'.'; 30])?;
    reversal(rt, &mut [b'.'; 28])?;
    reversal(rt, &mut [b'.'; 27])?;
    reversal(rt, &mut [b'.'; 0])?;
    two_functions(rt, &mut [b'.'; 41])?;
    show(rt, &[], &mut [b'.'; 4])?;
    codes::list_codes(rt)?;
    items::list_items(rt)
}

fn main(rt: HostRuntime) -> io::Result<()> {
    list_all(&rt)
}
