// The conditions' reader.
#![tactic(auto)]

ghost use Rattle.std.specs.Prelude.{◌≡◌, ◌+◌, ◌-◌, ◌*◌, ◌≤◌, IfErr};
ghost use Rattle.meaning.specs.Classes.{class_number};
ghost use Rattle.meaning.specs.Allowed.{max_conditions, max_identifier};
ghost use Rattle.tape_layout.specs.Tape.{condition_truth, condition_part, condition_size, condition_word, truth_number};
ghost use Rattle.meaning.specs.Tokens.{inside};
ghost use Rattle.meaning.specs.Reading as Reading;
ghost use Rattle.byte_classes.specs.Classed.{class_meant};
ghost use Rattle.read_tokens.specs.View.{span_text, stream};
ghost use Rattle.answers.specs.Numbers.{fault_number};
ghost use Rattle.read_bookkeeping.specs.Answered.{Agrees};
ghost use Rattle.read_bookkeeping.specs.Tables.{Inside};
ghost use Rattle.read_bookkeeping.specs.Written.{Ready};
ghost use Rattle.read_bookkeeping.specs.Items.{Known, symbol_names, part_names};
ghost use Rattle.tape_words.specs.Words.{subject_of};
ghost use Rattle.read_conditions.specs.Conditions.{variable_in, variable_names, is_part, kind_number};
ghost use Rattle.read_conditions.specs.Conditions.{condition_end, condition_on, truth_found, truth_between, truth_said};
ghost use Rattle.read_conditions.specs.Conditions.{Standing, Before, ConditionRead, ConditionsRead};

use answers::{Fault, Refusal};
use byte_classes::Class;
use read_bookkeeping::names::{check_later, class_named};
use read_bookkeeping::progress::{Progress, is_sign, pass, refuse, refuse_if};
use read_bookkeeping::variables::Variables;
use read_bookkeeping::writing::put_named;
use read_tokens::{Mode, Placed, Span, Token, lex};
use tape_words::limits::{MAX_CONDITIONS, MAX_NAME};
use tape_words::wide::{CONDITION_PART, CONDITION_SIZE, CONDITION_TRUTH, CONDITION_WORD};

// The bytes of `'T'`, and of `'F'`.
const TRUTH_SIZE: usize = 3;

#[derive(Clone, Copy, PartialEq, Eq)]
pub enum VariableKind {
    Symbol,
    Part,
}

impl VariableKind {
    // On the tape.
    fn number(self) -> usize
        ensures { (result ≡ kind_number self) × (result ≤ condition_part) }
    {
        match self {
            VariableKind::Symbol => 0,
            VariableKind::Part => CONDITION_PART,
        }
    }
}

// A condition's variable: its kind, and its identifier.
#[derive(Clone, Copy)]
pub struct Variable {
    kind: VariableKind,
    identifier: Span,
}

// A token as a variable, if it is one.
fn variable_in(token: Token) -> Option<Variable>
    ensures { result ≡ variable_in token }
{
    match token {
        Token::Symbol(identifier) => Some(Variable {
            kind: VariableKind::Symbol,
            identifier,
        }),
        Token::Part(identifier) => Some(Variable {
            kind: VariableKind::Part,
            identifier,
        }),
        _ => None,
    }
}

// Refuses a condition's variable, whose token stands at a place, where something is wrong with it.
fn check_subject(text: &[u8], variables: &Variables, v: Variable, place: usize) -> Result<(), Fault>
    requires { Inside text.now v.identifier × Known text.now variables.now }
    ensures number { fault_number result
        ≡ Reading.subject_fault (variable_names text.now variables.now v.kind)
        (span_text text.now v.identifier) }
    ensures place { IfErr result (λ fault. fault.place ≡ place) }
{
    match v.kind {
        VariableKind::Symbol => check_later(text, variables.symbols(), v.identifier, place),
        VariableKind::Part => check_later(text, variables.parts(), v.identifier, place),
    }
}

// A truth value by its number on the tape.
fn truth_number(truth: bool) -> usize
    ensures { (result ≡ truth_number truth) × (result ≤ condition_truth) }
{
    if truth { CONDITION_TRUTH } else { 0 }
}

// The word of a condition on the tape.
fn condition_word(class: Class, v: Variable, expected: bool) -> u32
    requires { (v.identifier.from ≤ v.identifier.past)
        × (v.identifier.past - v.identifier.from ≤ max_identifier) }
    ensures { result ≡ condition_word + (v.identifier.past - v.identifier.from) * condition_size
        + kind_number v.kind + truth_number expected + class_number (class_meant class) }
{
    let size = v.identifier.len() * CONDITION_SIZE;
    (CONDITION_WORD + size + v.kind.number() + truth_number(expected) + class.number()) as u32
}

// What a closing string says with `byte` between its quotes.
fn truth_between(byte: u8) -> Option<bool>
    ensures { result ≡ truth_found (truth_between byte) }
{
    match byte {
        b'T' => Some(true),
        b'F' => Some(false),
        _ => None,
    }
}

// The truth value that the token `t` says as a closing string, if it says one.
fn truth_said(text: &[u8], t: Placed) -> Option<bool>
    requires { Standing text.now t }
    ensures { result ≡ truth_found (truth_said text.now t) }
{
    let Token::Quoted(_) = t.token else {
        return None;
    };
    let end = t.place + TRUTH_SIZE;
    if t.past != end {
        return None;
    }
    truth_between(text[t.place + 1])
}

// A condition after its variable: `>`, `:` and the closing string.
fn condition_end(
    text: &[u8],
    tape: &mut [u32],
    from: usize,
    words: usize,
    class: Class,
    v: Variable,
) -> Result<Progress, Fault>
    requires { Ready text.now from words × Before text.now words from v.identifier }
    ensures { Agrees (ConditionRead text.now from words tape.old tape.new)
        (condition_end (class_meant class) (subject_of (is_part v.kind) (span_text text.now v.identifier))
        (stream text.now inside from)) result }
{
    let close = pass(text, from, Mode::Inside, b'>')?;
    let colon = pass(text, close, Mode::Inside, b':')?;
    let t = lex(text, colon, Mode::Inside);
    let Some(expected) = truth_said(text, t) else {
        return Err(refuse(t));
    };
    let word = condition_word(class, v, expected);
    let after = put_named(text, tape, words, word, v.identifier);
    Ok(Progress {
        at: t.past,
        words: after,
    })
}

// A condition after its predicate. Inside a sentence a word that is no variable is refused with 3.
fn condition_on(
    text: &[u8],
    tape: &mut [u32],
    variables: &Variables,
    from: usize,
    words: usize,
    class: Class,
) -> Result<Progress, Fault>
    requires { Ready text.now from words × Known text.now variables.now }
    ensures { Agrees (ConditionRead text.now from words tape.old tape.new)
        (condition_on (symbol_names text.now variables.now)
        (part_names text.now variables.now) (class_meant class)
        (stream text.now inside from)) result }
{
    let t = lex(text, from, Mode::Inside);
    let Some(v) = variable_in(t.token) else {
        return Err(refuse(t));
    };
    check_subject(text, variables, v, t.place)?;
    condition_end(text, tape, t.past, words, class, v)
}

// A condition after its `,`.
fn condition(
    text: &[u8],
    tape: &mut [u32],
    variables: &Variables,
    from: usize,
    words: usize,
) -> Result<Progress, Fault>
    requires { Ready text.now from words × Known text.now variables.now }
    ensures { Agrees (ConditionRead text.now from words tape.old tape.new)
        (Reading.parse_condition (symbol_names text.now variables.now)
        (part_names text.now variables.now) (stream text.now inside from)) result }
{
    let open = pass(text, from, Mode::Inside, b'<')?;
    let t = lex(text, open, Mode::Naming);
    let Token::Name(name) = t.token else {
        return Err(refuse(t));
    };
    refuse_if(MAX_NAME < name.len(), Refusal::OverLimit, t.place)?;
    let Some(class) = class_named(text, name) else {
        return Err(Fault {
            refusal: Refusal::WrongName,
            place: t.place,
        });
    };
    condition_on(text, tape, variables, t.past, words, class)
}

// Reads conditions, at most eight.
pub fn conditions(
    text: &[u8],
    tape: &mut [u32],
    variables: &Variables,
    from: usize,
    words: usize,
) -> Result<Progress, Fault>
    requires { Ready text.now from words × Known text.now variables.now }
    ensures { Agrees (ConditionsRead text.now from words tape.old tape.new)
        (Reading.parse_conditions max_conditions (symbol_names text.now variables.now)
        (part_names text.now variables.now) (stream text.now inside from)) result }
{
    let mut s = Progress { at: from, words };
    // How many may still come. No `for` counts them: the place of one too many is refused.
    let mut left = MAX_CONDITIONS;
    loop {
        let t = lex(text, s.at, Mode::Inside);
        if !is_sign(t, b',') {
            return Ok(Progress { at: t.place, ..s });
        }
        refuse_if(left == 0, Refusal::OverLimit, t.place)?;
        s = condition(text, tape, variables, t.past, s.words)?;
        left -= 1;
    }
}
