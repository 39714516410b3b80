// Variables, conditions and calls.
use crate::room::show;
use std::io;

// H { e1 s2 e3, <IsDigit s2>: 'T' = s2 }
fn condition(rt: &impl Print, out: &mut [u8]) -> io::Result<()> {
    show(
        rt,
        &[
            0x801, 72, 0x201, 49, 0x101, 50, 0x201, 51, 0x319, 50, 0x400, 0x101, 50, 0x700,
        ],
        out,
    )
}

// K { 'a' sx1 'b', <IsUpper sx1>: 'F', <IsLower sx1>: 'T', <IsLetter sx1>: 'F', <IsBlank sx1>: 'T' = 'c' }
fn conditions(rt: &impl Print, out: &mut [u8]) -> io::Result<()> {
    show(
        rt,
        &[
            0x801, 75, 97, 0x102, 120, 49, 98, 0x329, 120, 49, 0x32f, 120, 49, 0x32b, 120, 49,
            0x331, 120, 49, 0x400, 99, 0x700,
        ],
        out,
    )
}

// F { e1 'x' eFraction, <IsBlank eFraction>: 'T', <IsDigit e1>: 'F' = e1 }
// The word of the first condition carries the most that one can.
const ON_PARTS: [u32; 29] = [
    0x801, 70, 0x201, 49, 120, 0x208, 70, 114, 97, 99, 116, 105, 111, 110, 0x3b3, 70, 114, 97, 99,
    116, 105, 111, 110, 0x31e, 49, 0x400, 0x201, 49, 0x700,
];

fn conditions_on_parts(rt: &impl Print, out: &mut [u8]) -> io::Result<()> {
    show(rt, &ON_PARTS, out)
}

// Main { e1 = <F <G 'a' <H>> e1> <EmitA 'x'> <H> 'y'; s1 = s1 }
const NESTED_CALLS: [u32; 39] = [
    0x804, 77, 97, 105, 110, 0x201, 49, 0x400, 0x1601, 70, 0x1901, 71, 97, 0x2001, 72, 0x500,
    0x500, 0x201, 49, 0x500, 0x2905, 69, 109, 105, 116, 65, 120, 0x500, 0x3501, 72, 0x500, 121,
    0x600, 0x101, 49, 0x400, 0x101, 49, 0x700,
];

fn nested_calls(rt: &impl Print, out: &mut [u8]) -> io::Result<()> {
    show(rt, &NESTED_CALLS, out)
}

// F { = <F> }: an empty pattern, and an empty call
fn empty_call(rt: &impl Print, out: &mut [u8]) -> io::Result<()> {
    show(rt, &[0x801, 70, 0x400, 0x1001, 70, 0x500, 0x700], out)
}

pub fn list_items(rt: &impl Print) -> io::Result<()> {
    condition(rt, &mut [b'.'; 42])?;
    conditions(rt, &mut [b'.'; 108])?;
    conditions_on_parts(rt, &mut [b'.'; 76])?;
    nested_calls(rt, &mut [b'.'; 65])?;
    empty_call(rt, &mut [b'.'; 15])
}
