// A sentence's conditions as tests.
ghost use Rattle.std.specs.Prelude.{◌≡◌, true, ◌+◌, ◌≤◌, ◌<◌, ◌^◌, length, drop};
ghost use Rattle.meaning.specs.Allowed.{max_letters};
ghost use Rattle.meaning.specs.Packing.{test_word};
ghost use Rattle.tape_layout.specs.Tape.{kind_width};
ghost use Rattle.code_patterns.specs.Testing.{total};
ghost use Rattle.code_patterns.specs.Scans.{condition_of};
ghost use Rattle.code_patterns.specs.Conditioning.{located, condition_test_by, condition_at, InConditions};
ghost use Rattle.code_patterns.specs.Conditioning.{ConditionsOn, ConditionsAll};

use crate::bounds::part_bounds;
use crate::pattern::Pattern;
use crate::sites::Site;
use crate::symbols::{Symbol, find_site};
use code_words::CodeWriter;
use tape_words::limits::MAX_CONDITIONS;
use tape_words::tape::{of_kind, reach, word_at};
use tape_words::wide::{CONDITION_PART, CONDITION_SIZE, CONDITION_WORD, KIND_WIDTH};

// Where the writing of conditions stands: how many, and the tape's next word.
#[derive(Clone, Copy)]
pub struct Conditions {
    pub count: usize,
    pub next: usize,
}

fn is_condition(tape: &[u32], i: usize, count: usize) -> bool
    ensures { result ≡ condition_at count (drop i tape.now) }
{
    count < MAX_CONDITIONS && of_kind(word_at(tape, i), CONDITION_WORD)
}

// The test of a condition on the variable with this name: over an e-variable's part, or at an s-variable's cell.
fn condition_word(
    tape: &[u32],
    m: Pattern,
    symbols: &[Symbol],
    name: &[u32],
    carried: usize,
) -> usize
    requires { (total m.lengths ≤ max_letters) × (carried < kind_width) }
    ensures { (result ≡ test_word (condition_test_by (located tape.now m symbols.now)
        (condition_of carried name.now))) × (result < 2 ^ 32) }
{
    let over_part = carried / CONDITION_PART % 2 == 1;
    if over_part {
        return part_bounds(m.lengths, m.is_first(tape, name)).predicate_word(carried);
    }
    let site = find_site(tape, symbols, name).unwrap_or(Site::start());
    site.predicate_word(carried)
}

fn write_condition(
    tape: &[u32],
    m: Pattern,
    symbols: &[Symbol],
    code: &mut CodeWriter,
    c: Conditions,
) -> Conditions
    requires short { total m.lengths ≤ max_letters }
    requires in_conditions { InConditions tape.now c code.old.at ×
        (condition_at c.count (drop c.next tape.now) ≡ true) }
    ensures { ConditionsOn tape.now (located tape.now m symbols.now) code.old c code.new result }
{
    let carried = word_at(tape, c.next) % KIND_WIDTH;
    let from = c.next + 1;
    let size = reach(tape, from, carried / CONDITION_SIZE);
    let name = &tape[from..from + size];
    code.put(condition_word(tape, m, symbols, name, carried));
    Conditions {
        count: c.count + 1,
        next: from + size,
    }
}

pub fn write_conditions(
    tape: &[u32],
    m: Pattern,
    symbols: &[Symbol],
    start: usize,
    code: &mut CodeWriter,
) -> Conditions
    requires short { total m.lengths ≤ max_letters }
    requires start_in_bounds { (start ≤ length tape.now) × (code.old.at < 2 ^ 60) }
    ensures { ConditionsAll tape.now (located tape.now m symbols.now) start code.old code.new result }
{
    let mut c = Conditions {
        count: 0,
        next: start,
    };
    // Each step begins where the one before it ended, so no `for` counts them.
    while is_condition(tape, c.next, c.count) {
        c = write_condition(tape, m, symbols, code, c);
    }
    c
}
