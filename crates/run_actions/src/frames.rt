// The frames, and the words that each keeps: written and read here alone, each as what it is.
ghost use Rattle.std.specs.Prelude.{◌+◌, ◌*◌, ◌-◌, ◌≤◌, ◌<◌, ◌^◌, ◌≡◌, ◌++◌, length, take, drop};
ghost use Rattle.meaning.specs.Outcome.{max_counted, uncounted};
ghost use Rattle.meaning.specs.Leaving.{max_frames};
ghost use Rattle.meaning.specs.Machine.{max_opened};
ghost use Rattle.run_actions.specs.States.{frame_words, first_frames, words_for, values_for, FrameWithin};
ghost use Rattle.run_actions.specs.States.{crowded_at, with_word, frame_word};
ghost use Rattle.run_actions.specs.States.{counts_in, counted_in, CountsWithin, begun, calling_from};
ghost use Rattle.run_actions.specs.States.{length_count, opened_slot, return_slot, selection_slot, stored_slot};

use code_numbers::wide::{LEFT, MAX_STORED, NULL, RIGHT, WHOLE};
use run_cells::places::{InCell, OutCell};
use run_code_places::CodePlace;

// The start is frame 0.
pub const FRAMES: usize = 256;
// How many lengths a span may name, by their numbers: 0, d, dl and dr.
pub const LENGTH_COUNT: usize = RIGHT + 1;
// How many sequences may be open in one frame.
pub const OPEN_SEQUENCES: usize = 16;
// How many values a frame stores.
pub const FRAME_VALUES: usize = MAX_STORED;

// A frame's words: the lengths by their numbers, how many values are stored, how many sequences are open, where its
// call returns to, q as the call was made; and r at each open BeginSeq, the latest first, up to the end.
const FRAME_WORDS: usize = SELECTION + 1 + OPEN_SEQUENCES;

const STORED: usize = LENGTH_COUNT;

const OPENED: usize = STORED + 1;

const RETURN: usize = OPENED + 1;

const SELECTION: usize = RETURN + 1;

// How many functions are counted, before the frames.
pub const COUNTED: usize = 64;

// How many frames a run has room for at first; few runs need more, and clearing all takes longer than a short run.
const FIRST_FRAMES: usize = 8;

const FIRST_WORDS: usize = COUNTED + FIRST_FRAMES * FRAME_WORDS;

const FIRST_VALUES: usize = FIRST_FRAMES * FRAME_VALUES;

const ALL_WORDS: usize = COUNTED + FRAMES * FRAME_WORDS;

const ALL_VALUES: usize = FRAMES * FRAME_VALUES;

// Nothing is counted yet.
pub fn first_words() -> [usize; FIRST_WORDS]
    ensures { (length result ≡ words_for first_frames) × (counts_in result ≡ uncounted) }
{
    [0usize; FIRST_WORDS]
}

pub fn first_values() -> [u8; FIRST_VALUES]
    ensures { length result ≡ values_for first_frames }
{
    [0u8; FIRST_VALUES]
}

pub fn all_words() -> [usize; ALL_WORDS]
    ensures { length result ≡ words_for max_frames }
{
    [0usize; ALL_WORDS]
}

pub fn all_values() -> [u8; ALL_VALUES]
    ensures { length result ≡ values_for max_frames }
{
    [0u8; ALL_VALUES]
}

// Whether a frame more may be added, but isn't there.
pub fn crowded(frames: &[usize], frame: usize) -> bool
    requires { frame < max_frames }
    ensures result { result ≡ crowded_at frame frames.now }
{
    frame + 1 < FRAMES && frames.len() < COUNTED + FRAME_WORDS * (frame + 2)
}

// The first words copied to the beginning of others.
pub fn copy_words(from: &[usize], count: usize, to: &mut [usize])
    requires count_in_bounds { count ≤ length from.now }
    requires count_in_bounds_2 { count ≤ length to.old }
    ensures leaves { to.new ≡ take count from.now ++ drop count to.old }
{
    for i in 0..count {
        to[i] = from[i];
    }
}

fn word(frames: &[usize], frame: usize, index: usize) -> usize
    requires frame_within { FrameWithin frame frames.now }
    requires index_lt_frame_words { index < frame_words }
    ensures result { result ≡ frame_word frame index frames.now }
{
    frames[COUNTED + (FRAME_WORDS * frame + index)]
}

fn set_word(frames: &mut [usize], frame: usize, index: usize, value: usize)
    requires frame_within { FrameWithin frame frames.old }
    requires index_lt_frame_words { index < frame_words }
    ensures leaves { frames.new ≡ with_word frame index value frames.old }
{
    frames[COUNTED + (FRAME_WORDS * frame + index)] = value;
}

// A frame's own numbers as its application begins.
pub fn begin_frame(frames: &mut [usize], frame: usize, field: usize, place: usize, stored: usize)
    requires { FrameWithin frame frames.old }
    ensures leaves { frames.new ≡ begun frame field place stored frames.old }
{
    set_word(frames, frame, NULL, 0);
    set_word(frames, frame, WHOLE, field);
    set_word(frames, frame, LEFT, place);
    set_word(frames, frame, RIGHT, field.saturating_sub(place));
    set_word(frames, frame, STORED, stored);
    set_word(frames, frame, OPENED, 0);
}

// The length that has a number.
pub fn length_numbered(frames: &[usize], frame: usize, number: usize) -> usize
    requires frame_within { FrameWithin frame frames.now }
    requires number_in_bounds { number < length_count }
    ensures result { result ≡ frame_word frame number frames.now }
{
    word(frames, frame, number)
}

pub fn stored_values(frames: &[usize], frame: usize) -> usize
    requires { FrameWithin frame frames.now }
    ensures result { result ≡ frame_word frame stored_slot frames.now }
{
    word(frames, frame, STORED)
}

pub fn open_sequences(frames: &[usize], frame: usize) -> usize
    requires { FrameWithin frame frames.now }
    ensures result { result ≡ frame_word frame opened_slot frames.now }
{
    word(frames, frame, OPENED)
}

pub fn set_open_sequences(frames: &mut [usize], frame: usize, opened: usize)
    requires { FrameWithin frame frames.old }
    ensures leaves { frames.new ≡ with_word frame opened_slot opened frames.old }
{
    set_word(frames, frame, OPENED, opened);
}

// Where the latest of so many open sequences begins on out.
pub fn sequence_start(frames: &[usize], frame: usize, opened: usize) -> OutCell
    requires frame_within { FrameWithin frame frames.now }
    requires opened_nonzero { 0 < opened }
    requires opened_le_max_opened { opened ≤ max_opened }
    ensures result { result.0 ≡ frame_word frame (frame_words - opened) frames.now }
{
    OutCell::new(word(frames, frame, FRAME_WORDS - opened))
}

// A further sequence begins, so many being open.
pub fn keep_sequence_start(frames: &mut [usize], frame: usize, opened: usize, r: OutCell)
    requires frame_within { FrameWithin frame frames.old }
    requires opened_lt_max_opened { opened < max_opened }
    ensures leaves { frames.new ≡
        with_word frame (frame_words - 1 - opened) r.0 frames.old }
{
    set_word(frames, frame, FRAME_WORDS - 1 - opened, r.0);
}

// As a frame calls: where the call returns to, and its q.
pub fn keep_caller(frames: &mut [usize], frame: usize, back: CodePlace, q: InCell)
    requires { FrameWithin frame frames.old }
    ensures leaves { frames.new ≡ calling_from frame back.0 q.0 frames.old }
{
    set_word(frames, frame, RETURN, back.0);
    set_word(frames, frame, SELECTION, q.0);
}

pub fn return_place(frames: &[usize], frame: usize) -> CodePlace
    requires { FrameWithin frame frames.now }
    ensures result { result.0 ≡ frame_word frame return_slot frames.now }
{
    CodePlace(word(frames, frame, RETURN))
}

pub fn kept_selection(frames: &[usize], frame: usize) -> InCell
    requires { FrameWithin frame frames.now }
    ensures result { result.0 ≡ frame_word frame selection_slot frames.now }
{
    InCell::new(word(frames, frame, SELECTION))
}

// One application more of a function.
pub fn count_application(frames: &mut [usize], number: usize)
    requires number_nonzero { 0 < number }
    requires max_counted_in_bounds { max_counted ≤ length frames.old }
    requires counts_within { CountsWithin (2 ^ 32) frames.old }
    ensures leaves { frames.new ≡ counted_in number frames.old }
{
    if COUNTED < number {
        return;
    }
    frames[number - 1] += 1;
}

// The applications of each function, as they are handed back.
pub fn copy_counts(frames: &[usize], counts: &mut [u64])
    requires max_counted_in_bounds { max_counted ≤ length frames.now }
    requires counts_len { length counts.old ≡ max_counted }
    ensures leaves { counts.new ≡ counts_in frames.now }
{
    // One index for both: the frames lent are more than the counts, and of other integers.
    for i in 0..COUNTED {
        counts[i] = frames[i] as u64;
    }
}
