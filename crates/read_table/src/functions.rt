// A table's functions, read through a reader of its text.
ghost use Rattle.read_functions.specs.Functions.{FunctionsAgree, Underway};
ghost use Rattle.read_table.specs.Through.{Readable, GoesOn};

use answers::Fault;
use read_functions::functions::{Stage, Tally, declaration};
use read_tokens::reader::Reader;
use std::ops::ControlFlow;
use tape_words::limits::MAX_FUNCTIONS;

// Reads the next declaration, and the reader goes on to the place that was reached; a reading that is over stays so.
fn next_declaration<'s, 'a, 't, 'n>(
    reader: &'s mut Reader<'a>,
    tape: &'t mut [u32],
    heads: &'n mut [usize; MAX_FUNCTIONS],
    stage: Stage,
) -> Stage
    requires { Underway reader.old.text.now tape.old heads.old reader.old.at stage }
    ensures { GoesOn reader.old tape.old heads.old stage reader.new
        tape.new heads.new result }
{
    match declaration(reader.text, reader.at, tape, heads, stage) {
        ControlFlow::Continue(reached) => {
            reader.at = reached.at;
            ControlFlow::Continue(reached.tally)
        }
        ControlFlow::Break(read) => ControlFlow::Break(read),
    }
}

// Reads the functions of a text and notes their heads.
pub fn functions(
    text: &[u8],
    tape: &mut [u32],
    heads: &mut [usize; MAX_FUNCTIONS],
) -> Result<Tally, Fault>
    requires { Readable text.now tape.old heads.old }
    ensures { FunctionsAgree text.now tape.old tape.new heads.new result }
{
    let mut reader = Reader::new(text);
    let mut n = Tally::new();
    // Each declaration begins where the one before it ended, so no `for` counts them.
    loop {
        match next_declaration(&mut reader, tape, heads, ControlFlow::Continue(n)) {
            ControlFlow::Continue(next) => n = next,
            ControlFlow::Break(read) => return read,
        }
    }
}
