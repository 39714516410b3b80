// From the tape of a table to packed code words.
#![tactic(auto)]

pub mod functions;

ghost use Rattle.std.specs.Prelude.{length};
ghost use Rattle.code_table.specs.Leaves.{code_of, LeavesCode};

use code_words::clear_from;
use functions::write_table;

// The code of a tape: how many words it has, or nothing where the lent code doesn't hold them all (the answer is 17).
// Words after it are zero, and where it doesn't fit all are.
pub fn translate(tape: &[u32], code: &mut [u32]) -> Option<usize>
    ensures { LeavesCode (code_of tape.now) (length code.old) result code.new }
{
    clear_from(code, 0); // words after the code are zero
    let written = write_table(tape, code);
    if code.len() < written {
        clear_from(code, 0);
        return None;
    }
    Some(written)
}
