// What a run reads and never changes.
ghost use Rattle.std.specs.Prelude.{◌<◌, length};
ghost use Rattle.run_applications.specs.Waiting.{count_in};

use byte_classes::ClassTable;

// The classes of the bytes, the code, which has a word for each function that it counts, and how many steps are
// allowed.
#[derive(Clone, Copy)]
pub struct Program<'a> {
    pub classes: &'a ClassTable,
    pub code: &'a [u32],
    pub allowance: u32,
    ghost counted: { count_in code.now < length code.now },
}
