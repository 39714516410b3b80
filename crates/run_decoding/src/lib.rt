// Code words as instructions.
#![tactic(auto)]

ghost use Rattle.std.specs.Prelude.{◌≡◌};
ghost use Rattle.run_decoding.specs.declared.Instruction.TheVariants.{Call as Calls};
ghost use Rattle.run_decoding.specs.Decoded.{call_in, computation_in, instruction_in, FindsWord};

use code_numbers::operations::Operation;
use code_numbers::wide::{MINUS, PLUS};
use code_numbers::words::CodeWord;
use code_numbers::{
    ACTIONS_END, BEGIN_SEQ, CALL, COMPUTE, EMISSION, GO, OUT, OUT_C, OUT_V, SELECT, TAIL_CALL,
    USE_SEQ,
};
use run_code_places::{CodePlace, wide};

// What writes to out: the selected cells, a character, a stored value.
#[derive(Clone, Copy, PartialEq, Eq)]
pub enum Write {
    Out,
    OutC(u8),
    OutV(usize),
}

// Whether a call adds a frame, or takes its caller's, as a tail call does.
#[derive(Clone, Copy, PartialEq, Eq)]
pub enum CallKind {
    Framed,
    Tail,
}

// A call of a function by its number.
#[derive(Clone, Copy, PartialEq, Eq)]
pub struct Call {
    pub kind: CallKind,
    pub function: usize,
}

// An instruction of the Process part. Go and Select hold their words, an emission the length of its name.
#[derive(Clone, Copy, PartialEq, Eq)]
pub enum Instruction {
    Go(CodeWord),
    Select(CodeWord),
    Write(Write),
    BeginSeq,
    UseSeq,
    Call(Call),
    Emit(usize),
    Compute(Operation),
    End,
    Unknown,
}

fn call_of(kind: CallKind, word: CodeWord) -> Instruction
    ensures { result ≡ Calls (call_in kind word.0) }
{
    Instruction::Call(Call {
        kind,
        function: wide(word.operands()),
    })
}

// An angle call, where the operand is one.
fn computation_of(operand: usize) -> Instruction
    ensures { result ≡ computation_in operand }
{
    match operand {
        PLUS => Instruction::Compute(Operation::Plus),
        MINUS => Instruction::Compute(Operation::Minus),
        _ => Instruction::Unknown,
    }
}

// The instruction of a word; an emission's name stands in the words after it.
pub fn decode(word: u32) -> Instruction
    ensures { result ≡ instruction_in word }
{
    let word = CodeWord(word);
    let first = word.first();
    match word.number() {
        GO => Instruction::Go(word),
        SELECT => Instruction::Select(word),
        OUT => Instruction::Write(Write::Out),
        OUT_C => Instruction::Write(Write::OutC(first as u8)),
        OUT_V => Instruction::Write(Write::OutV(wide(first))),
        BEGIN_SEQ => Instruction::BeginSeq,
        USE_SEQ => Instruction::UseSeq,
        CALL => call_of(CallKind::Framed, word),
        TAIL_CALL => call_of(CallKind::Tail, word),
        EMISSION => Instruction::Emit(wide(first)),
        ACTIONS_END => Instruction::End,
        COMPUTE => computation_of(wide(first)),
        _ => Instruction::Unknown,
    }
}

// The word at a place, where it has a number, and the place after it.
pub fn find_word(code: &[u32], at: CodePlace, number: u32) -> Option<(CodeWord, CodePlace)>
    ensures { FindsWord code.now at.0 number result }
{
    let from = at.0;
    let word = CodeWord(*code.get(from)?);
    if word.number() != number {
        return None;
    }
    Some((word, CodePlace(from + 1)))
}
