// Choosing a function's sentence for a field, read-only: the sentence and where its middle template lies.
#![tactic(auto)]

ghost use Rattle.std.specs.Prelude.{◌+◌, ◌<◌, ◌^◌, ◌≡◌, length, drop};
ghost use Rattle.meaning.specs.Matching.{choose_from};
ghost use Rattle.meaning.specs.Packing.{metric_in, unpack_sentences};
ghost use Rattle.code_numbers.specs.Numbers.{sentence_head};
ghost use Rattle.run_searching.specs.Searches.{found_meant};
ghost use Rattle.run_matching.specs.Matched.{places_for, tried, Chooses};

use byte_classes::ClassTable;
use code_numbers::wide::SENTENCE_HEAD;
use code_numbers::words::CodeWord;
use code_numbers::{ENDS, EXACTLY, MAX_STORED, MIDDLE, SECOND, SENTENCES_END};
use run_code_places::{CodePlace, Places, Wrong, wide};
use run_placing::find_place;

// The place of the sentence's middle template, the place of its stores and how many there are; its actions follow them.
// Nothing names the function that recovers, 0 for none, as the function's word does.
#[derive(Clone, Copy)]
pub enum Choice {
    Sentence {
        place: usize,
        stores: CodePlace,
        stored: usize,
    },
    Nothing(usize),
}

// The places that a sentence's first word leaves for a field of a length, if it is one.
pub fn places_of(word: CodeWord, whole: usize) -> Option<Places>
    requires { whole < 2 ^ 63 }
    ensures { result ≡ places_for (metric_in word.0) whole }
{
    let a = wide(word.first());
    let b = wide(word.second());
    let c = wide(word.third());
    match word.number() {
        EXACTLY => Some(Places {
            first: 0,
            count: usize::from(whole == a),
        }),
        ENDS => Some(Places {
            first: 0,
            count: usize::from(a + b <= whole),
        }),
        MIDDLE => Some(Places {
            first: a,
            count: (whole + 1).saturating_sub(a + b + c),
        }),
        _ => None,
    }
}

// A sentence tried at its two first words; none where it doesn't fit.
fn try_sentence(
    classes: &ClassTable,
    code: &[u32],
    at: CodePlace,
    word: CodeWord,
    counts: CodeWord,
    field: &[u8],
) -> Result<Option<usize>, Wrong>
    requires at_in_bounds { at.0 < length code.now }
    ensures { found_meant result ≡
        tried (metric_in word.0) counts.0 (drop (at.0 + sentence_head) code.now) field.now }
{
    let Some(places) = places_of(word, field.len()) else {
        return Err(Wrong);
    };
    if MAX_STORED < counts.first() {
        return Err(Wrong);
    }
    find_place(
        classes,
        code,
        CodePlace(at.0 + SENTENCE_HEAD),
        wide(counts.number()),
        field,
        places.first,
        places.count,
    )
}

// The sentence chosen for a field among those from a place on.
pub fn choose(
    classes: &ClassTable,
    code: &[u32],
    entry: CodePlace,
    field: &[u8],
) -> Result<Choice, Wrong>
    ensures { Chooses code.now result
        (choose_from (unpack_sentences 0 (drop entry.0 code.now)) field.now) }
{
    // Each step begins where the sentence before it ended, so no `for` counts them.
    let mut at = entry.0;
    while at < code.len() {
        let word = CodeWord(code[at]);
        if word.number() == SENTENCES_END {
            return Ok(Choice::Nothing(wide(word.operands())));
        }
        if code.len() - at < SENTENCE_HEAD {
            return Err(Wrong);
        }
        let counts = CodeWord(code[at + 1]);
        if let Some(place) = try_sentence(classes, code, CodePlace(at), word, counts, field)? {
            return Ok(Choice::Sentence {
                place,
                stores: CodePlace(at + SENTENCE_HEAD + wide(counts.number())),
                stored: wide(counts.first()),
            });
        }
        at += SENTENCE_HEAD + wide(counts.0 / SECOND);
    }
    Err(Wrong)
}
