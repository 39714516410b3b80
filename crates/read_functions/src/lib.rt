// The readers of a table's functions, of their sentences and of expressions.
#![tactic(auto)]

pub mod expressions;
pub mod functions;
pub mod sentences;

ghost use Rattle.std.specs.Prelude.{◌≡◌};
ghost use Rattle.read_functions.specs.Expressions.{fault_at};

use answers::{Fault, Refusal};

// `refusal` at `place`.
pub fn fault_at(refusal: Refusal, place: usize) -> Fault
    ensures { result ≡ fault_at refusal place }
{
    Fault { refusal, place }
}
