// Moving an argument's bytes from out to just below p on in, one by one, from the last down to the first.
ghost use Rattle.std.specs.Prelude.{◌+◌, ◌-◌, ◌≤◌, ◌<◌, ◌≡◌, length};
ghost use Rattle.meaning.specs.Choice.{Bytes};
ghost use Rattle.run_cells.specs.Moved.{moved, FewToMove, MovedFew};
ghost use Rattle.run_cells.specs.Copied.{few};
ghost use Rattle.run_cells.specs.Places.{place};

use crate::copying::{FEW, HALF, QUARTER};
use crate::places::{InCell, OutCell};

// The byte that stands so many cells before r moved to as many before p, once those after it are moved.
fn move_before(input: &mut [u8], p: InCell, output: &[u8], r: OutCell, back: usize)
    requires back_nonzero { 0 < back }
    requires back_le_p { back ≤ p.0 }
    requires p_in_bounds { p.0 ≤ length input.old }
    requires back_le_r { back ≤ r.0 }
    requires r_in_bounds { r.0 ≤ length output.now }
    ensures { (before : Bytes) →
        input.old ≡ moved (back - 1) before p.0 output.now r.0 →
        input.new ≡ moved back before p.0 output.now r.0 }
{
    let to = p.0 - back;
    let from = r.0 - back;
    input[to] = output[from];
}

// N bytes of out moved to just below p, where so many are left; how many are moved. As N is a constant, the compiler
// writes the stores out.
fn move_part<const N: usize>(
    input: &mut [u8],
    p: InCell,
    output: &[u8],
    first: OutCell,
    r: OutCell,
) -> usize
    requires { FewToMove (N + N) input.old p.0 output.now first.0 r.0 }
    ensures { MovedFew N input.old p.0 output.now first.0 r.0 result
        input.new }
{
    if first.until(r) < N {
        return 0;
    }
    for k in 0..N {
        move_before(input, p, output, r, k + 1);
    }
    N
}

// Fewer than FEW bytes of out moved so; where the first of them stands then.
fn move_few(input: &mut [u8], p: InCell, output: &[u8], first: OutCell, r: OutCell) -> InCell
    requires { FewToMove few input.old p.0 output.now first.0 r.0 }
    ensures value { result ≡ place (p.0 - (r.0 - first.0)) }
    ensures input_after { input.new ≡
        moved (r.0 - first.0) input.old p.0 output.now r.0 }
{
    let four = move_part::<HALF>(input, p, output, first, r);
    let p = p.before(four);
    let r = r.before(four);
    let two = move_part::<QUARTER>(input, p, output, first, r);
    let p = p.before(two);
    let r = r.before(two);
    let one = move_part::<1>(input, p, output, first, r);
    p.before(one)
}

// The bytes of out from one up to r moved to just below p; where the first of them stands then.
pub fn move_down(input: &mut [u8], p: InCell, output: &[u8], first: OutCell, r: OutCell) -> InCell
    requires first_le_r { first.0 ≤ r.0 }
    requires r_in_bounds { r.0 ≤ length output.now }
    requires first_bound { r.0 - first.0 ≤ p.0 }
    requires p_in_bounds { p.0 ≤ length input.old }
    ensures value { result ≡ place (p.0 - (r.0 - first.0)) }
    ensures input_after { input.new ≡
        moved (r.0 - first.0) input.old p.0 output.now r.0 }
{
    let count = first.until(r);
    if count < FEW {
        return move_few(input, p, output, first, r);
    }
    for done in 0..count {
        move_before(input, p, output, r, done + 1);
    }
    p.before(count)
}
