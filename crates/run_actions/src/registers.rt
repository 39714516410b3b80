// The registers of one run, and how a run goes on.
ghost use Rattle.std.specs.Prelude.{◌≡◌};
ghost use Rattle.run_actions.specs.declared.registers.Next.TheVariants.{Stopped};

use answers::Ending;
use run_cells::places::{InCell, OutCell};
use run_code_places::CodePlace;

// 000's p, q and r; the current frame, as the number of frames that wait below it; the next code word; the steps made
// and the length of the emissions; and the function whose application is to begin, 0 while the actions of one are done.
// The function is a number and no Option, which would take one machine register more in each step; 0 is no function's.
#[derive(Clone, Copy)]
pub struct Registers {
    pub p: InCell,
    pub q: InCell,
    pub r: OutCell,
    pub frame: usize,
    pub at: CodePlace,
    pub steps: usize,
    pub emitted: usize,
    pub callee: usize,
}

impl Registers {
    // The run stops here, with an answer that names no function.
    #[inline]
    pub fn stopped(self, ending: Ending) -> Next
        ensures { result ≡ Stopped self ending 0 }
    {
        Next::Stopped(self, ending, 0)
    }
}

// A run goes on, is done, stops with an answer and a function number, or goes on where there is room for a frame more.
#[derive(Clone, Copy)]
pub enum Next {
    Onward(Registers),
    Done(Registers),
    Stopped(Registers, Ending, usize),
    Deeper(Registers),
}

// The same, without the registers, which are then lent.
#[derive(Clone, Copy)]
pub enum Status {
    Onward,
    Done,
    Stopped(Ending, usize),
    Deeper,
}

// What a run answers: the ending, the function that fits nothing, the steps, and the lengths of the text on out and of
// the emissions.
#[derive(Clone, Copy)]
pub struct Ran {
    pub ending: Ending,
    pub function: usize,
    pub steps: u32,
    pub text: usize,
    pub emissions: usize,
}
