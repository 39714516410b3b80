// The code words of an e-variable's actions, and of what follows a call's argument.
ghost use Rattle.std.specs.Prelude.{◌≡◌, [], ◌∷◌, ◌+◌, ◌*◌, ◌≤◌, ◌<◌, ◌^◌, length, take, drop};
ghost use Rattle.meaning.specs.Allowed.{max_functions, max_letters};
ghost use Rattle.meaning.specs.Packing.{code_word, actions_end, call_number, emission_number, tail_call_number};
ghost use Rattle.code_numbers.specs.Numbers.{operand};
ghost use Rattle.code_numbers.specs.Operations.{operation_meant};
ghost use Rattle.code_words.specs.Writer.{Written};
ghost use Rattle.code_patterns.specs.Testing.{total};
ghost use Rattle.code_actions.specs.Spanning.{SmallSpan};
ghost use Rattle.code_actions.specs.ActionWords.{span_words, part_words, rest_word, ready_words, left_words};
ghost use Rattle.code_actions.specs.ActionWords.{computation_word};

use crate::spans::{Span, Stand, gap_of, piece_span, rest_of};
use code_numbers::operations::Operation;
use code_numbers::wide::{
    ACTIONS_END, CALL, COMPUTE, EMISSION, FIRST, GO, NULL, OUT, SELECT, TAIL_CALL, USE_SEQ,
};
use code_patterns::pattern::Lengths;
use code_words::CodeWriter;

pub fn put_span(code: &mut CodeWriter, number: usize, span: Span)
    requires { SmallSpan span × (number < operand) × (code.old.at < 2 ^ 62) }
    ensures { Written code.old (span_words number span ∷ []) code.new }
{
    code.put_operands(number, span.register.number(), span.add, span.back);
}

// Go to an e-variable, Select it, Out of it.
pub fn put_part(lengths: Lengths, first: bool, stand: Stand, code: &mut CodeWriter)
    requires { (total lengths ≤ max_letters) × (code.old.at < 2 ^ 61) }
    ensures { Written code.old (part_words lengths first stand) code.new }
{
    put_span(code, GO, gap_of(lengths, first, stand));
    put_span(code, SELECT, piece_span(lengths, first));
    code.put_operands(OUT, 0, 0, 0);
}

// UseSeq, and Select of nothing more.
fn argument_ready(code: &mut CodeWriter)
    requires { code.old.at + 1 < 2 ^ 62 }
    ensures { Written code.old (ready_words []) code.new }
{
    code.put_operands(USE_SEQ, 0, 0, 0);
    code.put_operands(SELECT, NULL, 0, 0);
}

pub fn write_emission(name: &[u32], code: &mut CodeWriter)
    requires { (length name.now < operand) × (code.old.at < 2 ^ 61) }
    ensures { Written code.old (ready_words (code_word emission_number (length name.now) 0 0 ∷ name.now)) code.new }
{
    argument_ready(code);
    code.put_operands(EMISSION, name.len(), 0, 0);
    code.put_name(name);
}

// DmAdd or DmSub.
pub fn write_computation(operation: Operation, code: &mut CodeWriter)
    requires { code.old.at < 2 ^ 61 }
    ensures { Written code.old (ready_words (computation_word (operation_meant operation) ∷ [])) code.new }
{
    argument_ready(code);
    code.put_operands(COMPUTE, operation.number() as usize, 0, 0);
}

pub fn write_tail_call(lengths: Lengths, stand: Stand, number: usize, code: &mut CodeWriter)
    requires { (total lengths ≤ max_letters) × (number ≤ max_functions) × (code.old.at < 2 ^ 61) }
    ensures { Written code.old
        (rest_word lengths stand ∷ ready_words ((tail_call_number + operand * number) ∷ actions_end ∷ []))
        code.new }
{
    put_span(code, GO, rest_of(lengths, stand));
    argument_ready(code);
    let call = TAIL_CALL + FIRST * number;
    code.put(call);
    code.put(ACTIONS_END);
}

pub fn write_call(number: usize, code: &mut CodeWriter)
    requires { (number ≤ max_functions) × (code.old.at < 2 ^ 61) }
    ensures { Written code.old (ready_words ((call_number + operand * number) ∷ [])) code.new }
{
    argument_ready(code);
    code.put(CALL + FIRST * number);
}

// A tail call's last e-variable stays on in: Go to it, UseSeq below it, Select it, the call.
pub fn write_left(lengths: Lengths, first: bool, stand: Stand, number: usize, code: &mut CodeWriter)
    requires { (total lengths ≤ max_letters) × (number ≤ max_functions) × (code.old.at < 2 ^ 61) }
    ensures { Written code.old (left_words lengths first stand number) code.new }
{
    let gap = gap_of(lengths, first, stand);
    put_span(code, GO, gap);
    code.put_operands(USE_SEQ, 0, 0, 0);
    put_span(code, SELECT, piece_span(lengths, first));
    code.put(TAIL_CALL + FIRST * number);
    code.put(ACTIONS_END);
}
