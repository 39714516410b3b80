// A run with the applications of each function: 02's T-01.
ghost use Rattle.meaning.specs.Leaving.{leaving};
ghost use Rattle.run_code.specs.Leaving.{cells};
ghost use Rattle.engine.specs.Told.{Profiles};

use run_actions::frames::COUNTED;

// As `refal0_run`, and in `counts` the applications of functions 1 to 64.
pub fn refal0_profile(
    code: &[u32],
    start: usize,
    text: &[u8],
    stack_in: &mut [u8],
    stack_out: &mut [u8],
    record: &mut [u8],
    allowance: u32,
    answer: &mut [u64; 5],
    counts: &mut [u64; COUNTED],
)
    ensures { Profiles answer.new counts.new
        (cells stack_in.new stack_out.new «record».new)
        (leaving code.now start text.now
        (cells stack_in.old stack_out.old «record».old) allowance) }
{
    let ran = run_code::run(
        code, start, text, stack_in, stack_out, record, allowance, counts,
    );
    let ending = ran.ending;
    *answer = [
        u64::from(ending),
        ran.function as u64,
        ran.steps as u64,
        ran.text as u64,
        ran.emissions as u64,
    ];
}
