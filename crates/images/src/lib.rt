// The state as bytes, for callers in other languages: 716 little-endian words, one for each number.
#![tactic(auto)]

ghost use Rattle.std.specs.Prelude.{true, false, [], ◌∷◌, ◌≡◌, ◌+◌, ◌*◌, ◌≤◌, ◌<◌, length, get_or};
ghost use Rattle.std.proofs.lemmas.List.Edits.{sets};
ghost use Rattle.words.specs.Words.{words as words_of, bytes};
ghost use Rattle.images.specs.Images.{raised, lowered, number_words, listed_words, buffer_words, record_words, partitions_words, last_words, image_of, listed_in, posting_in, buffer_in, record_in, partitions_in, lengths_in, windows_in, merge_in, state_in, wide, image_rule};

use postings::Posting;
use state::{
    Buffer, Lengths, Listed, MOST_BUFFERED, MOST_LISTED, MOST_PARTITIONS, MergeJob, Partition,
    Partitions, State, Windows,
};
use std::array;

// Bytes of a state's image, a word for each number.
pub const BYTES: usize = 2864;

// Whether a place holds a number that may need all 32 bits. Those of the partitions stand at every fifth place, 459 being the first.
fn is_wide(at: usize) -> bool
    ensures { result ≡ wide at }
{
    (at < 2) | ((at >= 714) | ((at >= 457) & ((at < 712) & (at % 5 == 4))))
}

// Whether these bytes are the image of a state, whatever rules that breaks.
pub fn image_ok(image: &[u8]) -> bool
    ensures { result ≡ image_rule image.now }
{
    if image.len() != BYTES {
        return false;
    }
    for at in 0..716 {
        if !(is_wide(at) | (words::word_at(image, at) < 65536)) {
            return false;
        }
    }
    true
}

// A signed count, of which the image holds 32,768 more.
fn lower(x: u16) -> i16
    ensures { result ≡ lowered x }
{
    (x as i32 - 32768) as i16
}

// A signed count raised by 32,768.
fn raise(count: i16) -> u16
    ensures { result ≡ raised count }
{
    (count as i32 + 32768) as u16
}

// Bytes that are the image of a state.
#[derive(Clone, Copy)]
struct Image<'a> {
    bytes: &'a [u8],
    ghost ruled: { image_rule bytes.now ≡ true },
}

impl<'a> Image<'a> {
    // A number.
    fn number(&self, at: usize) -> u32
        requires { at < 716 }
        ensures { result ≡ get_or (words_of self.now.bytes.now) at 0 }
    {
        words::word_at(self.bytes, at)
    }

    // A number that is below 65,536.
    fn narrow(&self, at: usize) -> u16
        requires { (at < 716) × (wide at ≡ false) }
        ensures { result ≡ get_or (words_of self.now.bytes.now) at 0 }
    {
        self.number(at) as u16
    }

    // The lengths of the buffers.
    fn lengths(&self) -> Lengths
        ensures { result ≡ lengths_in (words_of self.now.bytes.now) }
    {
        Lengths {
            card: self.number(0),
            register: self.number(1),
        }
    }

    // The windows' numbers.
    fn windows(&self) -> Windows
        ensures { result ≡ windows_in (words_of self.now.bytes.now) }
    {
        let last = self.narrow(2);
        let live = self.narrow(3);
        let current = self.narrow(4);
        let events = self.narrow(5);
        Windows {
            last,
            live,
            current,
            events,
        }
    }

    // The open window's identifiers.
    fn listed(&self) -> Listed
        ensures { result ≡ listed_in (words_of self.now.bytes.now) }
    {
        Listed {
            used: self.narrow(6),
            ids: array::from_fn(|i| self.narrow(7 + i)),
        }
    }

    // A buffered posting.
    fn posting(&self, i: usize) -> Posting
        requires { i < 128 }
        ensures { result ≡ posting_in (words_of self.now.bytes.now) i }
    {
        let id = self.narrow(72 + 3 * i);
        let window = self.narrow(73 + 3 * i);
        let count = lower(self.narrow(74 + 3 * i));
        Posting { id, window, count }
    }

    // The buffered postings.
    fn buffer(&self) -> Buffer
        ensures { result ≡ buffer_in (words_of self.now.bytes.now) }
    {
        Buffer {
            used: self.narrow(71),
            postings: array::from_fn(|i| self.posting(i)),
        }
    }

    // A finished partition's record.
    fn record(&self, i: usize) -> Partition
        requires { i < 51 }
        ensures { result ≡ record_in (words_of self.now.bytes.now) i }
    {
        let first = self.narrow(457 + 5 * i);
        let level = self.narrow(458 + 5 * i);
        let length = self.number(459 + 5 * i);
        let lowest = self.narrow(460 + 5 * i);
        let highest = self.narrow(461 + 5 * i);
        Partition {
            first,
            level,
            length,
            lowest,
            highest,
        }
    }

    // The finished partitions.
    fn partitions(&self) -> Partitions
        ensures { result ≡ partitions_in (words_of self.now.bytes.now) }
    {
        Partitions {
            used: self.narrow(456),
            records: array::from_fn(|i| self.record(i)),
        }
    }

    // The merge in progress.
    fn merge(&self) -> MergeJob
        ensures { result ≡ merge_in (words_of self.now.bytes.now) }
    {
        MergeJob {
            first: self.narrow(713),
            length: self.number(714),
            steps: self.number(715),
        }
    }
}

// The state of an image.
pub fn read_state(image: &[u8]) -> State
    requires { image_rule image.now ≡ true }
    ensures { result ≡ state_in (words_of image.now) }
{
    let image = Image { bytes: image };
    State {
        lengths: image.lengths(),
        windows: image.windows(),
        listed: image.listed(),
        buffer: image.buffer(),
        partitions: image.partitions(),
        taken: image.narrow(712),
        merge: image.merge(),
    }
}

// Three words into the image from word `at` on.
fn put_three(image: &mut [u8], at: usize, a: u32, b: u32, c: u32)
    requires { (length image.old ≡ 2864) × (at + 3 ≤ 716) }
    ensures { words_of image.new ≡ sets (words_of image.old) at (a ∷ b ∷ c ∷ []) }
{
    words::put_word(image, at, a);
    words::put_word(image, at + 1, b);
    words::put_word(image, at + 2, c);
}

// The open window's identifiers.
fn put_listed(image: &mut [u8], l: Listed)
    requires { length image.old ≡ 2864 }
    ensures { (words_of image.new ≡ sets (words_of image.old) 6 (listed_words l)) × (length l.ids ≡ 64) }
{
    words::put_word(image, 6, l.used as u32);
    for i in 0..MOST_LISTED {
        words::put_word(image, 7 + i, l.ids[i] as u32);
    }
}

// The buffered postings.
fn put_buffer(image: &mut [u8], b: Buffer)
    requires { length image.old ≡ 2864 }
    ensures { (words_of image.new ≡ sets (words_of image.old) 71 (buffer_words b)) × (length b.postings ≡ 128) }
{
    words::put_word(image, 71, b.used as u32);
    for i in 0..MOST_BUFFERED {
        let p = b.postings[i];
        put_three(
            image,
            72 + 3 * i,
            p.id as u32,
            p.window as u32,
            raise(p.count) as u32,
        );
    }
}

// A finished partition's record.
fn put_record(image: &mut [u8], i: usize, p: Partition)
    requires { (length image.old ≡ 2864) × (i < 51) }
    ensures { words_of image.new ≡ sets (words_of image.old) (457 + 5 * i) (record_words p) }
{
    let at = 457 + 5 * i;
    put_three(image, at, p.first as u32, p.level as u32, p.length);
    words::put_word(image, at + 3, p.lowest as u32);
    words::put_word(image, at + 4, p.highest as u32);
}

// The finished partitions.
fn put_partitions(image: &mut [u8], ps: Partitions)
    requires { length image.old ≡ 2864 }
    ensures { (words_of image.new ≡ sets (words_of image.old) 456 (partitions_words ps)) × (length ps.records ≡ 51) }
{
    words::put_word(image, 456, ps.used as u32);
    for i in 0..MOST_PARTITIONS {
        put_record(image, i, ps.records[i]);
    }
}

// The lengths of the buffers and the windows' numbers.
fn put_numbers(image: &mut [u8], l: Lengths, w: Windows)
    requires { length image.old ≡ 2864 }
    ensures { words_of image.new ≡ sets (words_of image.old) 0 (number_words l w) }
{
    put_three(image, 0, l.card, l.register, w.last as u32);
    put_three(image, 3, w.live as u32, w.current as u32, w.events as u32);
}

// The block last taken and the merge in progress.
fn put_last(image: &mut [u8], taken: u16, m: MergeJob)
    requires { length image.old ≡ 2864 }
    ensures { words_of image.new ≡ sets (words_of image.old) 712 (last_words taken m) }
{
    put_three(image, 712, taken as u32, m.first as u32, m.length);
    words::put_word(image, 715, m.steps);
}

// The image of a state.
pub fn write_state(image: &mut [u8], s: State)
    requires { length image.old ≡ 2864 }
    ensures { image.new ≡ bytes (image_of s) }
{
    put_numbers(image, s.lengths, s.windows);
    put_listed(image, s.listed);
    put_buffer(image, s.buffer);
    put_partitions(image, s.partitions);
    put_last(image, s.taken, s.merge);
}
