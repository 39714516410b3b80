// The angle call: what the two selected angles come to goes to out.
ghost use Rattle.std.specs.Prelude.{ℕ, ◌≤◌, List, length};
ghost use Rattle.meaning.specs.Choice.{Bytes};
ghost use Rattle.code_numbers.specs.Operations.{operation_meant};
ghost use Rattle.meaning.specs.Instructions.{compute as computing};
ghost use Rattle.run_actions.specs.States.{memory, SelectionWithin, ImplementsAction};

use crate::moving::write_text;
use crate::registers::{Next, Registers};
use answers::Ending;
use code_numbers::operations::Operation;
use run_angles::{ANGLE_BYTES, AngleFault, compute_angles};
use run_cells::places::part;

pub fn compute(g: Registers, operation: Operation, input: &[u8], output: &mut [u8]) -> Next
    requires selection_within { SelectionWithin g.p.0 g.q.0 input.now }
    requires r_in_bounds { g.r.0 ≤ length output.old }
    ensures implements { («record» values : Bytes) (frames : List ℕ) →
        let m = memory input.now output.old «record» frames values in
        let n = memory input.now output.new «record» frames values in
        ImplementsAction (computing (operation_meant operation)) g.at.0 g m result n }
{
    let argument = part(input, g.p, g.q);
    let mut result = [0u8; ANGLE_BYTES];
    match compute_angles(operation, argument, &mut result) {
        Ok(count) => write_text(g, &result[0..count], output),
        Err(AngleFault::NotAngles) => g.stopped(Ending::ArgumentNotAngles),
        Err(AngleFault::OutOfRange) => g.stopped(Ending::AngleOutOfRange),
    }
}
