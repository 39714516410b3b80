// A sentence's expression as actions: item by item, with the open calls in an array.
ghost use Rattle.std.specs.Prelude.{◌≡◌, true, false, [], ◌∷◌, ◌+◌, ◌-◌, ◌≤◌, ◌<◌, ◌^◌, length, drop, get_or, set};
ghost use Rattle.meaning.specs.Allowed.{max_functions, max_items, max_letters};
ghost use Rattle.meaning.specs.Translation.{value_number};
ghost use Rattle.meaning.specs.Packing.{code_word, actions_end, begin_seq_number, out_c_number, out_v_number};
ghost use Rattle.tape_words.specs.Words.{head_name, head_names};
ghost use Rattle.tape_layout.specs.Tape.{symbol_word};
ghost use Rattle.code_words.specs.Writer.{Written};
ghost use Rattle.tape_words.specs.Finding.{number_among};
ghost use Rattle.code_patterns.specs.Testing.{total, held};
ghost use Rattle.code_actions.specs.Spanning.{stand_after};
ghost use Rattle.code_actions.specs.ActionWords.{part_words, rest_word, left_words};
ghost use Rattle.code_expressions.specs.Resuming.{item_done, word_done, call_done, call_words, last_call};
ghost use Rattle.code_expressions.specs.Resuming.{manner_by, manner_now, continues, ending_words, past_ending};
ghost use Rattle.code_expressions.specs.Resuming.{past_name, is_first, stays, all_done, InItems, Innermost, ItemsOn};
ghost use Rattle.code_expressions.specs.Resuming.{ItemsAll};

use code_actions::spans::{Stand, ends_pattern, rest_of, stand_after};
use code_actions::words::{
    put_part, put_span, write_call, write_computation, write_emission, write_left, write_tail_call,
};
use code_numbers::operations::Operation;
use code_numbers::wide::{ACTIONS_END, BEGIN_SEQ, GO, OUT_C, OUT_V};
use code_patterns::pattern::{Lengths, Pattern};
use code_patterns::symbols::{Symbol, value_number};
use code_words::CodeWriter;
use tape_words::limits::MAX_NESTING;
use tape_words::names::{Calling, calling_of, find};
use tape_words::tape::{Item, item_at, name_at, name_size, word_at};

// Where the writing of an expression stands: the tape's next word, the items so far, how many calls are open,
// where p stands, and whether more is to be written. That is a field, since the last step too says where the writing
// stands: an enum round the walk would only hold the same answer.
#[derive(Clone, Copy)]
pub struct Walk {
    pub next: usize,
    pub items: usize,
    pub depth: usize,
    pub stand: Stand,
    pub more: bool,
}

// How a call is done: as an emission, as an angle call, as a tail call, or in a frame of its own.
#[derive(Clone, Copy)]
pub enum Manner {
    Emits,
    Computes(Operation),
    Replaces,
    Nests,
}

impl Walk {
    // Past an item whose name has so many words.
    fn past_item(self, size: usize) -> Walk
        requires { (self.next + 1 + size < 2 ^ 62) × (self.items < 2 ^ 62) }
        ensures { result ≡ item_done self size self.depth self.stand }
    {
        Walk {
            next: self.next + 1 + size,
            items: self.items + 1,
            more: true,
            ..self
        }
    }

    fn past_word(self) -> Walk
        requires { self.next < 2 ^ 62 }
        ensures { result ≡ word_done self }
    {
        Walk {
            next: self.next + 1,
            more: true,
            ..self
        }
    }

    // Past the end of a call, or past all actions.
    fn past_call(self, next: usize, more: bool) -> Walk
        ensures { result ≡ call_done self next more }
    {
        Walk {
            next,
            depth: self.depth.saturating_sub(1),
            more,
            ..self
        }
    }

    // Nothing more is to be written.
    fn all_done(self) -> Walk
        ensures { result ≡ all_done self }
    {
        Walk {
            more: false,
            ..self
        }
    }
}

impl Manner {
    fn goes_on(self) -> bool
        ensures { result ≡ continues self }
    {
        !matches!(self, Manner::Replaces)
    }
}

// The number of the function with this name, counted from 1; 0 where there is none.
fn function_number(tape: &[u32], heads: &[usize], name: &[u32]) -> usize
    ensures { (result ≡ number_among 0 (head_names tape.now heads.now) name.now) × (result ≤ length heads.now) }
{
    match find(tape, heads, name) {
        Some(k) => k + 1,
        None => 0,
    }
}

fn write_character(tape: &[u32], code: &mut CodeWriter, walk: Walk) -> Walk
    requires { (get_or tape.now walk.next 0 < symbol_word) × (walk.next < length tape.now) ×
        (walk.items < max_items) × (code.old.at < 2 ^ 61) }
    ensures wrote { Written code.old
        (code_word out_c_number (get_or tape.now walk.next 0) 0 0 ∷ []) code.new }
    ensures value { result ≡ item_done walk 0 walk.depth walk.stand }
{
    code.put_operands(OUT_C, word_at(tape, walk.next), 0, 0);
    walk.past_item(0)
}

fn write_value(tape: &[u32], symbols: &[Symbol], code: &mut CodeWriter, walk: Walk) -> Walk
    requires { (walk.next < length tape.now) × (walk.items < max_items) × (code.old.at < 2 ^ 61) ×
        (length symbols.now ≤ max_letters) }
    ensures wrote { Written code.old
        (code_word out_v_number (value_number (held tape.now symbols.now) (head_name tape.now walk.next)) 0 0 ∷ [])
        code.new }
    ensures value { result ≡ item_done walk (length (head_name tape.now walk.next)) walk.depth
        walk.stand }
{
    let name = name_at(tape, walk.next);
    let value = value_number(tape, symbols, name);
    code.put_operands(OUT_V, value, 0, 0);
    walk.past_item(name.len())
}

// The e-variable where the walk stands is the pattern's first.
fn is_first(tape: &[u32], m: Pattern, walk: Walk) -> bool
    ensures { result ≡ is_first tape.now m walk }
{
    m.is_first(tape, name_at(tape, walk.next))
}

// The e-variable goes to out.
fn write_part(tape: &[u32], m: Pattern, code: &mut CodeWriter, walk: Walk) -> Walk
    requires { (total m.lengths ≤ max_letters) × (walk.next < length tape.now) × (walk.items < max_items) ×
        (code.old.at < 2 ^ 61) }
    ensures wrote { Written code.old
        (part_words m.lengths (is_first tape.now m walk) walk.stand) code.new }
    ensures value { result ≡ item_done walk (length (head_name tape.now walk.next)) walk.depth
        (stand_after m.lengths.parts (is_first tape.now m walk) walk.stand) }
{
    let first = is_first(tape, m, walk);
    put_part(m.lengths, first, walk.stand, code);
    let stand = stand_after(m.lengths.parts, first, walk.stand);
    Walk { stand, ..walk }.past_item(name_size(tape, walk.next))
}

fn open_call(tape: &[u32], calls: &mut [usize], code: &mut CodeWriter, walk: Walk) -> Walk
    requires { (walk.depth < length calls.old) × (walk.next < length tape.now) × (walk.items < max_items) ×
        (code.old.at < 2 ^ 61) }
    ensures wrote { Written code.old (code_word begin_seq_number 0 0 0 ∷ []) code.new }
    ensures value { result ≡ item_done walk (length (head_name tape.now walk.next)) (walk.depth + 1)
        walk.stand }
    ensures calls_after { calls.new ≡ set calls.old walk.depth walk.next }
{
    calls[walk.depth] = walk.next;
    code.put_operands(BEGIN_SEQ, 0, 0, 0);
    let depth = walk.depth + 1;
    Walk { depth, ..walk }.past_item(name_size(tape, walk.next))
}

// The call that ends is the last item outermost: none is open round it, and no item follows.
fn is_last(tape: &[u32], next: usize, depth: usize, items: usize) -> bool
    ensures { result ≡ last_call depth (drop next tape.now) items }
{
    depth == 0 && matches!(item_at(tape, next, 0, items), Item::Stop)
}

fn manner_of(calling: Calling, last: bool) -> Manner
    ensures { result ≡ manner_by calling last }
{
    match calling {
        Calling::Emission => Manner::Emits,
        Calling::Angles(operation) => Manner::Computes(operation),
        Calling::Function if last => Manner::Replaces,
        Calling::Function => Manner::Nests,
    }
}

// How the innermost open call is done, where the tape goes on at `next` after it.
fn manner_now(tape: &[u32], calls: &[usize], next: usize, walk: Walk) -> Manner
    requires { Innermost tape.now calls.now walk }
    ensures { result ≡ manner_now tape.now calls.now next walk }
{
    let depth = walk.depth - 1;
    let calling = calling_of(name_at(tape, calls[depth]));
    manner_of(calling, is_last(tape, next, depth, walk.items))
}

// Go passes the rest of the field, and the actions end.
fn end_actions(lengths: Lengths, code: &mut CodeWriter, walk: Walk) -> Walk
    requires { (total lengths ≤ max_letters) × (code.old.at < 2 ^ 61) }
    ensures wrote { Written code.old (rest_word lengths walk.stand ∷ actions_end ∷ [])
        code.new }
    ensures value { result ≡ call_done walk walk.next false }
{
    put_span(code, GO, rest_of(lengths, walk.stand));
    code.put(ACTIONS_END);
    walk.past_call(walk.next, false)
}

// What follows the argument of the call whose word stands at `head`.
fn write_ending(
    tape: &[u32],
    heads: &[usize],
    lengths: Lengths,
    head: usize,
    manner: Manner,
    stand: Stand,
    code: &mut CodeWriter,
)
    requires { (length heads.now ≤ max_functions) × (total lengths ≤ max_letters) × (code.old.at < 2 ^ 61) }
    ensures { Written code.old (call_words manner lengths stand
        (number_among 0 (head_names tape.now heads.now) (head_name tape.now head))
        (head_name tape.now head)) code.new }
{
    let name = name_at(tape, head);
    let number = function_number(tape, heads, name);
    match manner {
        Manner::Emits => write_emission(name, code),
        Manner::Computes(operation) => write_computation(operation, code),
        Manner::Replaces => write_tail_call(lengths, stand, number, code),
        Manner::Nests => write_call(number, code),
    }
}

// The innermost open call ends, and the tape goes on at `next`.
fn close_call(
    tape: &[u32],
    heads: &[usize],
    lengths: Lengths,
    calls: &[usize],
    next: usize,
    code: &mut CodeWriter,
    walk: Walk,
) -> Walk
    requires innermost { Innermost tape.now calls.now walk }
    requires heads_len_bound { (length heads.now ≤ max_functions) × (total lengths ≤ max_letters) ×
        (code.old.at < 2 ^ 61) }
    ensures wrote { Written code.old
        (ending_words tape.now heads.now lengths calls.now next walk)
        code.new }
    ensures value { result ≡ call_done walk next
        (continues (manner_now tape.now calls.now next walk)) }
{
    let manner = manner_now(tape, calls, next, walk);
    let head = calls[walk.depth - 1];
    write_ending(tape, heads, lengths, head, manner, walk.stand, code);
    walk.past_call(next, manner.goes_on())
}

// Past the innermost open call, with nothing written for it.
fn past_argument(tape: &[u32], calls: &[usize], next: usize, walk: Walk) -> Walk
    requires { Innermost tape.now calls.now walk }
    ensures { result ≡ call_done walk next
        (continues (manner_now tape.now calls.now next walk)) }
{
    walk.past_call(next, manner_now(tape, calls, next, walk).goes_on())
}

// The same where its argument ends; nothing more is to come where it is a tail call.
fn past_ending(tape: &[u32], calls: &[usize], walk: Walk) -> Walk
    requires { InItems tape.now calls.now walk }
    ensures { result ≡ past_ending tape.now calls.now walk }
{
    match item_at(tape, walk.next, walk.depth, walk.items) {
        Item::Close => past_argument(tape, calls, walk.next + 1, walk),
        Item::Unclosed => past_argument(tape, calls, walk.next, walk),
        _ => walk,
    }
}

// Past the e-variable where the walk stands, and past the call whose argument it ends.
fn past_part(tape: &[u32], calls: &[usize], walk: Walk) -> Walk
    requires { InItems tape.now calls.now walk × (walk.next < length tape.now) × (walk.items < max_items) }
    ensures { result ≡ past_ending tape.now calls.now (past_name tape.now walk) }
{
    let size = name_size(tape, walk.next);
    past_ending(tape, calls, walk.past_item(size))
}

// The e-variable where the walk stands stays on in: it ends a tail call's argument, and the pattern.
fn part_stays(tape: &[u32], m: Pattern, calls: &[usize], walk: Walk) -> bool
    requires { InItems tape.now calls.now walk × (walk.next < length tape.now) × (walk.items < max_items) }
    ensures { result ≡ stays tape.now calls.now m walk }
{
    !past_part(tape, calls, walk).more && ends_pattern(m.lengths, is_first(tape, m, walk))
}

// It is left there, and the tail call ends the actions.
fn leave_part(
    tape: &[u32],
    heads: &[usize],
    m: Pattern,
    calls: &[usize],
    code: &mut CodeWriter,
    walk: Walk,
) -> Walk
    requires in_items { InItems tape.now calls.now walk × (walk.next < length tape.now) × (walk.items < max_items) ×
        Innermost tape.now calls.now walk }
    requires heads_len_bound { (length heads.now ≤ max_functions) × (total m.lengths ≤ max_letters) ×
        (code.old.at < 2 ^ 61) }
    ensures wrote { Written code.old
        (left_words m.lengths (is_first tape.now m walk) walk.stand
        (number_among 0 (head_names tape.now heads.now)
        (head_name tape.now (get_or calls.now (walk.depth - 1) 0)))) code.new }
    ensures value { result ≡ all_done (past_ending tape.now calls.now
        (past_name tape.now walk)) }
{
    let past = past_part(tape, calls, walk);
    let first = is_first(tape, m, walk);
    let number = function_number(tape, heads, name_at(tape, calls[walk.depth - 1]));
    write_left(m.lengths, first, walk.stand, number, code);
    past.all_done()
}

fn write_item(
    tape: &[u32],
    heads: &[usize],
    symbols: &[Symbol],
    m: Pattern,
    calls: &mut [usize],
    code: &mut CodeWriter,
    walk: Walk,
) -> Walk
    requires { (length heads.now ≤ max_functions) × (length symbols.now ≤ max_letters) ×
        (total m.lengths ≤ max_letters) × InItems tape.now calls.old walk × (code.old.at < 2 ^ 61) }
    ensures { ItemsOn tape.now heads.now symbols.now m calls.old
        code.old walk
        calls.new code.new result }
{
    match item_at(tape, walk.next, walk.depth, walk.items) {
        Item::Byte => write_character(tape, code, walk),
        Item::Symbol => write_value(tape, symbols, code, walk),
        Item::Part => {
            if part_stays(tape, m, calls, walk) {
                return leave_part(tape, heads, m, calls, code, walk);
            }
            write_part(tape, m, code, walk)
        }
        Item::Call => open_call(tape, calls, code, walk),
        Item::Pass => walk.past_word(),
        Item::Close => close_call(tape, heads, m.lengths, calls, walk.next + 1, code, walk),
        Item::Unclosed => close_call(tape, heads, m.lengths, calls, walk.next, code, walk),
        Item::Stop => end_actions(m.lengths, code, walk),
    }
}

pub fn write_expression(
    tape: &[u32],
    heads: &[usize],
    symbols: &[Symbol],
    m: Pattern,
    start: usize,
    code: &mut CodeWriter,
) -> Walk
    requires { (length heads.now ≤ max_functions) × (length symbols.now ≤ max_letters) ×
        (total m.lengths ≤ max_letters) × (start ≤ length tape.now + 1) × (code.old.at < 2 ^ 60) }
    ensures { ItemsAll tape.now heads.now symbols.now m start code.old code.new result }
{
    let mut calls = [0usize; MAX_NESTING]; // the open calls' words, in fixed memory: `depth` counts them
    let mut walk = Walk {
        next: start,
        items: 0,
        depth: 0,
        stand: Stand::AtStart,
        more: true,
    };
    while walk.more {
        walk = write_item(tape, heads, symbols, m, &mut calls, code, walk);
    }
    walk
}
