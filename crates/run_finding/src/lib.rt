// The leftmost place of a string in a text, in one pass: a bit for each beginning of the string that ends here.
#![tactic(auto)]

ghost use Rattle.std.specs.Prelude.{ℕ, ◌+◌, ◌≤◌, ◌<◌, ◌-◌, ◌^◌, ◌≡◌, length, get_or, replicate, Ok};
ghost use Rattle.byte_classes.specs.Tests.{byte_count};
ghost use Rattle.run_finding.specs.Occurrences.{occurrence, suited, occurrence_of, leftmost_occurrence, Marks};
ghost use Rattle.run_finding.specs.Occurrences.{word_bits};

use byte_classes::BYTE_COUNT;

// How many bits a word has.
const WORD_BITS: usize = 64;

// A string isn't looked for: it is empty or longer than a word has bits, or the places run past the text.
#[derive(Clone, Copy)]
pub struct Unsuited;

// A power of two in a word.
fn power(exponent: usize) -> u64
    requires { exponent < word_bits }
    ensures { result ≡ 2 ^ exponent }
{
    1u64 << exponent
}

fn no_marks() -> [u64; BYTE_COUNT]
    ensures { result ≡ replicate byte_count 0 }
{
    [0u64; BYTE_COUNT]
}

// For each byte the places of the string at which it stands, as bits: the last place is bit 0.
fn mark(string: &[u8], marks: &mut [u64])
    requires in_bounds { 1 ≤ length string.now }
    requires string_len_bound { length string.now ≤ word_bits }
    requires marks_value { marks.old ≡ replicate byte_count 0 }
    ensures { Marks string.now marks.new }
{
    let mut unit = power(string.len() - 1);
    for &byte in string {
        marks[byte as usize] += unit;
        unit /= 2;
    }
}

// Each byte of the text takes the bits of all beginnings one place on, where the string has that byte there.
// Bit 0 is the whole string.
fn pass(
    marks: &[u64; BYTE_COUNT],
    string: &[u8],
    text: &[u8],
    first: usize,
    places: usize,
) -> Option<usize>
    requires marks { Marks string.now marks.now }
    requires in_bounds { 1 ≤ length string.now }
    requires string_len_bound { length string.now ≤ word_bits }
    requires string_in_bounds { first + places + length string.now ≤ length text.now + 1 }
    requires le_places { 1 ≤ places }
    ensures { Ok result ≡ occurrence_of (leftmost_occurrence string.now text.now places first) }
{
    let most = string.len();
    let top = power(most - 1);
    let last = places + most - 1;
    let mut state = 0u64;
    for read in 0..last {
        let byte = text[first + read];
        state = (state / 2 + top) & marks[byte as usize];
        if state % 2 == 1 {
            return Some(first + (read + 1) - most);
        }
    }
    None
}

// The leftmost of so many places of a text at which a string stands.
pub fn find(
    string: &[u8],
    text: &[u8],
    first: usize,
    places: usize,
) -> Result<Option<usize>, Unsuited>
    ensures { result ≡ occurrence string.now text.now places first }
{
    let most = string.len();
    if most == 0 || WORD_BITS < most || text.len() < most {
        return Err(Unsuited);
    }
    let room = text.len() - most + 1;
    if room < first || room - first < places {
        return Err(Unsuited);
    }
    if places == 0 {
        return Ok(None);
    }
    let mut marks = no_marks();
    mark(string, &mut marks);
    Ok(pass(&marks, string, text, first, places))
}
