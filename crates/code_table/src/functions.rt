// The functions of a tape, and the table of their places before them.
ghost use Rattle.std.specs.Prelude.{◌≡◌, ◌+◌, ◌≤◌, ◌<◌, ◌^◌, length, take};
ghost use Rattle.meaning.specs.Allowed.{max_functions};
ghost use Rattle.code_sentences.specs.Trees.{is_function_word};
ghost use Rattle.code_words.specs.Writing.{Wrote};
ghost use Rattle.code_table.specs.Leaves.{code_of};
ghost use Rattle.code_table.specs.Declaring.{HeadsInside, HeadsOn, HeadsAll, EntryAll, FunctionsAll};

use code_sentences::write_function;
use code_words::put;
use tape_words::limits::MAX_FUNCTIONS;
use tape_words::names::find_recoverer;
use tape_words::tape::{name_at, of_kind, room, word_at};
use tape_words::wide::FUNCTION_WORD;

fn is_function(word: usize) -> bool
    ensures { result ≡ is_function_word word }
{
    of_kind(word, FUNCTION_WORD)
}

// The tape's word `i` is noted if it is a function's and there were not as many as a table may have.
fn note_head(tape: &[u32], i: usize, heads: &mut [usize], count: usize) -> usize
    requires { (i < length tape.now) × (length heads.old ≡ max_functions) × (count ≤ max_functions) ×
        HeadsInside tape.now heads.old count }
    ensures { HeadsOn tape.now i heads.old count heads.new result }
{
    if MAX_FUNCTIONS <= count {
        return count;
    }
    if is_function(word_at(tape, i)) {
        heads[count] = i;
        return count + 1;
    }
    count
}

// The places of the functions' words, and how many they are: nothing is allocated, so they go into a lent array.
pub fn find_heads(tape: &[u32], heads: &mut [usize]) -> usize
    requires { length heads.old ≡ max_functions }
    ensures { HeadsAll tape.now heads.new result }
{
    let mut count = 0;
    for i in 0..tape.len() {
        count = note_head(tape, i, heads, count);
    }
    count
}

// The function of the k-th head, from the word `at` of the code on. `part` is the code from the function's entry in the
// table on: the entry is patched there, and what comes from `at` on is lent on. Handed back: the place after the
// function.
fn write_entry(tape: &[u32], heads: &[usize], k: usize, part: &mut [u32], at: usize) -> usize
    requires { (k < length heads.now) × (length heads.now ≤ max_functions) ×
        HeadsInside tape.now heads.now (length heads.now) × (k < at) × (at < 2 ^ 31) }
    ensures { EntryAll tape.now heads.now k part.old at part.new result }
{
    let head = heads[k];
    let name = name_at(tape, head);
    let start = head + 1 + name.len();
    let recoverer = find_recoverer(tape, heads, name);
    put(part, 0, at);
    let from = (at - (k + 1)).min(part.len());
    let words = write_function(tape, heads, start, recoverer, &mut part[from..]);
    at + words
}

// The number of functions, the table of their places, whose entries are patched one by one, and the functions.
fn write_functions(tape: &[u32], heads: &[usize], code: &mut [u32]) -> usize
    requires { (length heads.now ≤ max_functions) × HeadsInside tape.now heads.now (length heads.now) }
    ensures { FunctionsAll tape.now heads.now code.old code.new result }
{
    let count = heads.len();
    let mut at = put(code, 0, count) + count;
    for k in 0..count {
        let entry = (k + 1).min(code.len());
        at = write_entry(tape, heads, k, &mut code[entry..], at);
    }
    at
}

// The code of a tape.
pub fn write_table(tape: &[u32], code: &mut [u32]) -> usize
    ensures { Wrote code.old 0 (code_of tape.now) code.new result }
{
    let mut heads = room();
    let count = find_heads(tape, &mut heads);
    write_functions(tape, &heads[..count], code)
}
