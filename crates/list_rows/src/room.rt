// A row's words, listed and printed.
use std::io;

// Prints the length or 17, a line end, the whole buffer and a line end.
pub fn show(rt: &impl Print, row: &[u32], out: &mut [u8]) -> io::Result<()> {
    match list_table::list(row, out) {
        Some(length) => rt.println(length)?,
        None => rt.println("17")?,
    }
    rt.write_all(out)?;
    rt.println("")
}
