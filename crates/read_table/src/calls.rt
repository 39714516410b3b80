// The called names of a table, once it is read.
ghost use Rattle.std.specs.Prelude.{◌≡◌, ◌≤◌, length, drop};
ghost use Rattle.meaning.specs.Tree.{Table};
ghost use Rattle.meaning.specs.Reading.{unknown_in};
ghost use Rattle.tape_words.specs.Words.{head_names};
ghost use Rattle.read_table.specs.Calls.{unknown_as, NameFollows, NamesFollow, word_known, Holds};

use tape_words::names::is_known;
use tape_words::wide::{CALL_KIND, CALL_WORD, KIND_WIDTH};

// Whether `word`, which stands before `after` on the tape, opens no call, or one of a name that is built in or that one
// of the heads has.
fn calls_known(tape: &[u32], heads: &[usize], word: usize, after: usize) -> bool
    requires { NameFollows word (drop after tape.now) × (after ≤ length tape.now) }
    ensures { result ≡ word_known (head_names tape.now heads.now) word (drop after tape.now) }
{
    word < CALL_WORD || is_known(tape, heads, &tape[after..after + word % KIND_WIDTH])
}

// Where the first name is called that is neither built in nor declared, by the words of a tape. A word of CALL_WORD or
// more opens a call.
pub fn unknown_call(tape: &[u32], heads: &[usize]) -> Option<usize>
    requires { NamesFollow tape.now }
    ensures { (t : Table) → Holds tape.now heads.now t → result ≡ unknown_as (unknown_in t t) }
{
    for (i, &w) in tape.iter().enumerate() {
        let word = w as usize;
        if !calls_known(tape, heads, word, i + 1) {
            let place = word / KIND_WIDTH - CALL_KIND;
            return Some(place);
        }
    }
    None
}
