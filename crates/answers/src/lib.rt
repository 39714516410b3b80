// The engine's answers: what refuses a table text and where, how a run ends, 01's number of each, and which numbers
// refuse a table.
#![tactic(auto)]

ghost use Rattle.std.specs.Prelude.{◌≡◌};
ghost use Rattle.answers.specs.Numbers.{refusal_number, ending_number, is_refusal};

// What a table text is refused with, by its number.
#[derive(Clone, Copy, PartialEq, Eq)]
pub enum Refusal {
    TableTooLong = 1,
    MalformedToken = 2,
    NotAllowedHere = 3,
    OverLimit = 4,
    WrongName = 5,
    WrongPatternVariable = 6,
    WrongLaterVariable = 7,
    UndeclaredName = 8,
    // The lent buffer is too short for the code or the listing.
    BufferTooShort = 17,
    // A declared call is no tail call.
    NotTailCall = 19,
}

// A refusal, and the place in the text that is refused.
#[derive(Clone, Copy)]
pub struct Fault {
    pub refusal: Refusal,
    pub place: usize,
}

// What a run is answered with, by its number.
#[derive(Clone, Copy, PartialEq, Eq)]
pub enum Ending {
    Finished = 0,
    NoSuchStart = 9,
    TextTooLong = 10,
    NoSentenceFits = 11,
    AllowanceSpent = 12,
    InFull = 13,
    OutFull = 14,
    FramesFull = 15,
    RecordFull = 16,
    NoInstruction = 18,
    ArgumentNotAngles = 20,
    AngleOutOfRange = 21,
}

impl From<Refusal> for u64 {
    ghost from_gives = { λ refusal number. number ≡ refusal_number refusal };

    fn from(refusal: Refusal) -> u64 {
        refusal as u64
    }
}

impl From<Ending> for u64 {
    ghost from_gives = { λ ending number. number ≡ ending_number ending };

    fn from(ending: Ending) -> u64 {
        ending as u64
    }
}

// Whether a number refuses a table: 1 to 8 and 17 are answered before any run.
pub fn is_refusal(number: u64) -> bool
    ensures { result ≡ is_refusal number }
{
    (1..9).contains(&number) || number == u64::from(Refusal::BufferTooShort)
}
