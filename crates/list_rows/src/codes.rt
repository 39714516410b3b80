// Characters: bare, escaped, and written as codes.
use crate::room::show;
use std::io;

// F { '\5\55' = '\0\49\50a3' }: a digit right after a code is a code too, and so on until another byte comes
fn digits_after_codes(rt: &impl Print, out: &mut [u8]) -> io::Result<()> {
    show(
        rt,
        &[0x801, 70, 5, 55, 0x400, 0, 49, 50, 97, 51, 0x700],
        out,
    )
}

// F { '\t7\n8' = '\31 ~\127\255\128\48' }: `\t` and `\n` are no codes; 32 to 126 stand bare
fn ends_of_the_range(rt: &impl Print, out: &mut [u8]) -> io::Result<()> {
    show(
        rt,
        &[
            0x801, 70, 9, 55, 10, 56, 0x400, 31, 32, 126, 127, 255, 128, 48, 0x700,
        ],
        out,
    )
}

// F { '\'\"\\' = '\5\'7\13\n6' }: an escape after a code ends it
fn quotes(rt: &impl Print, out: &mut [u8]) -> io::Result<()> {
    show(
        rt,
        &[0x801, 70, 39, 34, 92, 0x400, 5, 39, 55, 13, 10, 54, 0x700],
        out,
    )
}

// F { '\5' e1 '7' = '\200' e1 '89' }: an item after a code ends it
fn code_and_item(rt: &impl Print, out: &mut [u8]) -> io::Result<()> {
    show(
        rt,
        &[
            0x801, 70, 5, 0x201, 49, 55, 0x400, 200, 0x201, 49, 56, 57, 0x700,
        ],
        out,
    )
}

// F { '\7' = '1'; '2' = '\1'; '3' = '4' }: the end of a pattern or of a sentence ends a code
fn code_and_end(rt: &impl Print, out: &mut [u8]) -> io::Result<()> {
    show(
        rt,
        &[
            0x801, 70, 7, 0x400, 49, 0x600, 50, 0x400, 1, 0x600, 51, 0x400, 52, 0x700,
        ],
        out,
    )
}

// F { = '..' }, with all bytes in order
fn every_byte() -> [u32; 260] {
    let mut row = [0u32; 260];
    row[0] = 0x801;
    row[1] = 70;
    row[2] = 0x400;
    for byte in 0..256u32 {
        row[3 + byte as usize] = byte;
    }
    row[259] = 0x700;
    row
}

pub fn list_codes(rt: &impl Print) -> io::Result<()> {
    digits_after_codes(rt, &mut [b'.'; 32])?;
    ends_of_the_range(rt, &mut [b'.'; 43])?;
    quotes(rt, &mut [b'.'; 34])?;
    code_and_item(rt, &mut [b'.'; 38])?;
    code_and_end(rt, &mut [b'.'; 43])?;
    show(rt, &every_byte(), &mut [b'.'; 713])
}
