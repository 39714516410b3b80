// Whether a table calls declared functions only by tail calls: 02's T-06.
ghost use Rattle.std.specs.Prelude.{◌≡◌};
ghost use Rattle.meaning.specs.Reading.{read};
ghost use Rattle.meaning.specs.Entries.{flat_answer};

use crate::answer_words;
use engine_tables::flat_table;

// Number, place, functions: 19 with the place of the name of the leftmost declared call that is no tail call.
pub fn refal0_flat(table: &[u8], answer: &mut [u64; 3])
    ensures { answer.new ≡ flat_answer (read table.now) }
{
    *answer = answer_words(flat_table(table));
}
