// How far the bytes of a part pass a test, from its beginning on and up to its end.
#![tactic(auto)]

ghost use Rattle.std.specs.Prelude.{ℕ, Bool, ◌≡◌};
ghost use Rattle.meaning.specs.Choice.{every};
ghost use Rattle.meaning.specs.Classes.{in_class};
ghost use Rattle.byte_classes.specs.Classed.{class_meant};
ghost use Rattle.run_class_runs.specs.Runs.{IsTest, Leads, Trails};

use byte_classes::{Class, ClassTable};

// How many bytes of a part, from its first on, pass a test.
pub fn leading<F: Fn(u8) -> bool>(part: &[u8], fits: F) -> usize
    requires { F.IsAlwaysCallable fits }
    ensures { (test : ℕ → Bool) → IsTest (F.post fits) test → Leads test part.now result }
{
    for (at, &byte) in part.iter().enumerate() {
        if !fits(byte) {
            return at;
        }
    }
    part.len()
}

// After how many bytes of a part the rest of it passes a test.
pub fn trailing<F: Fn(u8) -> bool>(part: &[u8], fits: F) -> usize
    requires { F.IsAlwaysCallable fits }
    ensures { (test : ℕ → Bool) → IsTest (F.post fits) test → Trails test part.now result }
{
    for at in (0..part.len()).rev() {
        if !fits(part[at]) {
            return at + 1;
        }
    }
    0
}

// Every byte of a part is in a class.
pub fn every_in_class(classes: &ClassTable, part: &[u8], class: Class) -> bool
    ensures { result ≡ every (in_class (class_meant class)) part.now }
{
    leading(part, |byte| classes.passes(byte, class)) == part.len()
}
