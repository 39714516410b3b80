// From the tape to the listing text. The listing is written word by word of the tape; its length is found first, by
// writing into no cells.
#![tactic(auto)]

mod words;

ghost use Rattle.std.specs.Prelude.{take};
ghost use Rattle.list_table.specs.Words.{most_words, list_from};
ghost use Rattle.list_table.specs.Leaves.{LeavesListing};
ghost use Rattle.list_strings.specs.declared.State.TheVariants.{Start};

use tape_words::limits::MAX_TABLE;
use words::{list_length, list_words};

// The listing of a tape's words, and its length; none where the lent buffer is shorter (the answer is then 17). A tape
// has at most as many words as a table text has bytes. No byte is written before it is known that all have a cell.
pub fn list(tape: &[u32], out: &mut [u8]) -> Option<usize>
    ensures { LeavesListing (list_from Start (take most_words tape.now)) out.old result out.new }
{
    let words = &tape[..tape.len().min(MAX_TABLE)];
    let length = list_length(words);
    if length > out.len() {
        return None;
    }
    Some(list_words(words, out))
}
