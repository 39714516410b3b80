// Copying bytes onto in, onto out and into the record.
ghost use Rattle.std.specs.Prelude.{◌≡◌, ◌+◌, ◌≤◌, ◌<◌, length};
ghost use Rattle.std.proofs.Math.Seq.{paste};
ghost use Rattle.run_cells.specs.Copied.{few, FewToCopy, CopiedFew};

use crate::places::Place;

// Fewer bytes than these are copied and moved without a loop, which for them would cost more than the copying: half as
// many first, where so many are left, then a quarter, then one.
pub const FEW: usize = 8;

pub const HALF: usize = FEW / 2;

pub const QUARTER: usize = HALF / 2;

// N bytes more, where so many are left; how many are copied. As N is a constant, the compiler writes the stores out.
fn copy_part<const N: usize>(to: &mut [u8], at: usize, from: &[u8], i: usize) -> usize
    requires { FewToCopy (N + N) to.old at from.now i }
    ensures { CopiedFew N to.old at from.now i result to.new }
{
    if from.len() - i < N {
        return 0;
    }
    for k in i..i + N {
        to[at + k] = from[k];
    }
    N
}

// Fewer than FEW bytes.
fn copy_few(to: &mut [u8], at: usize, from: &[u8])
    requires from_in_bounds { at + length from.now ≤ length to.old }
    requires from_len_bound { length from.now < few }
    ensures { to.new ≡
        paste to.old at from.now (length from.now) }
{
    let mut i = copy_part::<HALF>(to, at, from, 0);
    i += copy_part::<QUARTER>(to, at, from, i);
    copy_part::<1>(to, at, from, i);
}

// Bytes copied over those from an index on.
pub fn copy_over(to: &mut [u8], at: usize, from: &[u8])
    requires { at + length from.now ≤ length to.old }
    ensures { to.new ≡
        paste to.old at from.now (length from.now) }
{
    if from.len() < FEW {
        copy_few(to, at, from);
        return;
    }
    for i in 0..from.len() {
        to[at + i] = from[i];
    }
}

// The same from a place of its kind on.
pub fn copy_to<S: Copy>(cells: &mut [u8], at: Place<S>, from: &[u8])
    requires { at.0 + length from.now ≤ length cells.old }
    ensures { cells.new ≡
        paste cells.old at.0 from.now (length from.now) }
{
    copy_over(cells, at.0, from);
}
