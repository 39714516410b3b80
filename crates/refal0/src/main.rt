// The program: `table.rf` of the current folder, run on standard input. Its stored run is 01's row R on `abc`.
#![tactic(auto)]

use std::io;

fn main(rt: HostRuntime) -> io::Result<()> {
    program::run_program(&rt)
}
