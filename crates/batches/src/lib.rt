// Removal of several windows together: all or none. All removals are judged before a byte is written, and then made. Both halves read the counts of some windows
// at a time, so that few of them lie on the stack.
#![tactic(auto)]

ghost use Rattle.std.specs.Prelude.{true, cond, ◌&&◌, [], ◌≡◌, ◌+◌, ◌-◌, ◌*◌, ◌≤◌, min, length};
ghost use Rattle.lists.specs.Lists.{every};
ghost use Rattle.words.specs.Words.{words as words_of};
ghost use Rattle.answers.specs.Answers.{answer_of, done, leave, in_turn};
ghost use Rattle.answers.specs.Numbers.{replied};
ghost use Rattle.state.specs.Views.{blocks, finished, buffer_of};
ghost use Rattle.state.specs.Rules.{state_rule};
ghost use Rattle.partitions.specs.Formed.{partitions_formed};
ghost use Rattle.sums.specs.Views.{counts_in};
ghost use Rattle.sums.specs.Tally.{lists_ruled, window_formed};
ghost use Rattle.windows.specs.Promises.{store_of};
ghost use Rattle.removals.specs.Removal.{remove_of};
ghost use Rattle.batches.specs.Batch.{batch_rule, remove_all_of, RemovesAll};
ghost use Rattle.batches.specs.Steps.{Admitted, room_of, Roomy, flush_after, removal_after, Writable, Listed};

use answers::Refusal;
use state::{BLOCK_BYTES, Buffer, Partitions, State, Windows};
use sums::{Counts, MOST_WINDOWS, SLOT};
use windows::After;

// How many windows' counts are held at a time. With those of all 32 the call would take more than 16 KB of stack.
const PORTION: usize = 16;

// The numbers of so many slots.
const SLOTS: usize = 1040;

// How many of the windows left are read together.
fn portion(left: usize) -> usize
    ensures { result ≡ min left 16 }
{
    left.min(PORTION)
}

// Judges what is read of every window named, in as many passes as they need. All lists are judged also where none is named: so one pass is made at least, which
// `chunks` would not make.
fn lists_ok(card: &[u8], s: State, named: &[u32]) -> bool
    requires { (state_rule s ≡ true) × (length (words_of card.now) ≡ 1024 * blocks s)
        × (partitions_formed (words_of card.now) (blocks s) (finished s.partitions) ≡ true) }
    ensures { result ≡ (lists_ruled (words_of card.now) s && every (window_formed (words_of card.now) s) named.now) }
{
    let n = named.len();
    let mut slots = [0u32; SLOTS];
    let mut from: usize = 0;
    loop {
        let count = portion(n - from);
        let to = from + count;
        let end = SLOT * count;
        let fine = sums::read_all(card, s, &named[from..to], &mut slots[0..end]);
        if !fine {
            return false;
        }
        if to == n {
            return true;
        }
        from = to;
    }
}

// Does a list name at least one window, at most 32, and none twice?
fn batch_ok(named: &[u32]) -> bool
    ensures { result ≡ batch_rule named.now }
{
    let n = named.len();
    if (n == 0) | (n > MOST_WINDOWS) {
        return false;
    }
    for (i, window) in named.iter().enumerate() {
        if named[i + 1..].contains(window) {
            return false;
        }
    }
    true
}

// What a flush is judged by besides its free block: partitions of level 0, blocks of finished partitions, blocks of the card.
#[derive(Clone, Copy)]
struct Room {
    pub low: u32,
    pub used: u64,
    pub blocks: u32,
}

// As it is before the first removal.
fn room_of(s: State) -> Room
    requires { state_rule s ≡ true }
    ensures { (result ≡ room_of s) × (result.low ≤ 65535) × (result.used ≤ 219043332045) }
{
    Room {
        low: levels::of_level(s.partitions, 0) as u32,
        used: flushes::finished_blocks(s.partitions),
        blocks: s.lengths.card / BLOCK_BYTES,
    }
}

// Judges a flush that comes after others of the list.
fn judge_flush(card: &[u8], room: Room, taken: u16, before: u32) -> Result<(), Refusal>
    requires { Roomy room taken (words_of card.now) × (before ≤ 32) }
    ensures { replied result ≡ answer_of (flush_after room taken (words_of card.now) before) }
{
    if room.low + before >= 16 {
        return Err(Refusal::LevelFull);
    }
    if 2 * (room.used + before as u64) + 2 > room.blocks as u64 {
        return Err(Refusal::HalfFull);
    }
    if !blocks::enough_free(card, room.blocks, taken, before + 1) {
        return Err(Refusal::TooFewFree);
    }
    Ok(())
}

// Judges a removal that comes after others of the list, by what they leave of window numbers and buffer and the flushes that they make.
fn judge_removal(
    card: &[u8],
    room: Room,
    taken: u16,
    v: Windows,
    b: Buffer,
    before: u32,
    window: u32,
    c: Counts,
) -> Result<(), Refusal>
    requires { Roomy room taken (words_of card.now) × (before ≤ 32) × (b.used ≤ 128) × (c.used ≤ 64) }
    ensures { replied result ≡ answer_of (removal_after room taken (words_of card.now) v b before window (counts_in c)) }
{
    if removals::names_open(v, window) {
        return Err(Refusal::OutOfTurn);
    }
    if removals::not_live(v, window, c) {
        return Err(Refusal::NotLive);
    }
    if !removals::must_flush(b, c) {
        return Ok(());
    }
    judge_flush(card, room, taken, before)
}

// The window numbers after a removal: N is one less.
fn one_less(v: Windows) -> Windows
    requires { 1 ≤ v.live }
    ensures { result ≡ record { last = v.last; live = v.live - 1; current = v.current; events = v.events } }
{
    Windows {
        live: v.live - 1,
        ..v
    }
}

// The buffer with which a removal begins: empty after a flush.
fn begun(b: Buffer, flush: bool) -> Buffer
    ensures { result ≡ cond flush (buffer_of []) b }
{
    if flush { Buffer::new() } else { b }
}

// One flush more where a removal needs it.
fn counted(n: u32, flush: bool) -> u32
    requires { n ≤ 32 }
    ensures { result ≡ cond flush (n + 1) n }
{
    if flush { n + 1 } else { n }
}

// Judges the removals one after another on copies of window numbers and buffer: nothing is written. A window is taken up by its place, since a loop over
// portions would have a loop over their windows inside.
fn judge_all(s: State, card: &[u8], named: &[u32]) -> Result<(), Refusal>
    requires { Admitted s card.now named.now }
    ensures { replied result ≡ answer_of (in_turn remove_of (store_of s card.now) named.now) }
{
    let n = named.len();
    let room = room_of(s);
    let mut slots = [0u32; SLOTS];
    let mut v = s.windows;
    let mut b = s.buffer;
    let mut flushed: u32 = 0;
    for i in 0..n {
        let place = i % PORTION;
        if place == 0 {
            let count = portion(n - i);
            let last = i + count;
            let end = SLOT * count;
            sums::read_all(card, s, &named[i..last], &mut slots[0..end]);
        }
        let from = SLOT * place;
        let to = from + SLOT;
        let c = sums::counts_of(&slots[from..to], named[i]);
        judge_removal(card, room, s.taken, v, b, flushed, named[i], c)?;
        let flush = removals::must_flush(b, c);
        b = removals::take_back(begun(b, flush), c);
        v = one_less(v);
        flushed = counted(flushed, flush);
    }
    Ok(())
}

// What a call for a list answers. Refusals 1 and 2 come by admission, 3 for what is read of the card, 16 for the list; then come the removals in the order given.
pub fn judge(s: State, card: &[u8], named: &[u32]) -> Result<(), Refusal>
    ensures { replied result ≡ answer_of (remove_all_of (store_of s card.now) named.now) }
{
    admission::judge_card(rules::state_ok(s), s.lengths, card)?;
    let ps = s.partitions;
    if !partitions::partitions_ok(card, s.lengths.card / BLOCK_BYTES, ps) {
        return Err(Refusal::Malformed);
    }
    if !lists_ok(card, s, named) {
        return Err(Refusal::Malformed);
    }
    if !batch_ok(named) {
        return Err(Refusal::BadList);
    }
    judge_all(s, card, named)
}

// The finished partitions, and the block last taken.
#[derive(Clone, Copy)]
struct Listing {
    pub partitions: Partitions,
    pub taken: u16,
}

// Both after a flush, where one is needed. It has passed its tests, so that a free block is found.
fn list_flush(
    card: &mut [u8],
    blocks: u32,
    taken: u16,
    b: Buffer,
    ps: Partitions,
    flush: bool,
) -> Listing
    requires { flush ≡ true → Writable card.old blocks taken b ps }
    ensures { Listed card.old blocks taken b ps flush result card.new }
{
    if !flush {
        return Listing {
            partitions: ps,
            taken,
        };
    }
    match blocks::next_free(card, blocks, taken) {
        None => Listing {
            partitions: ps,
            taken,
        },
        Some(block) => {
            let list = flushes::writing::flush(card, block, b, ps);
            Listing {
                partitions: list,
                taken: block,
            }
        }
    }
}

// Makes the removals one after another, of which none is refused. Counts are read from what the removals before have left, which other windows' counts are not
// moved by.
pub fn remove_each(s: State, card: &mut [u8], named: &[u32]) -> State
    requires { answer_of (remove_all_of (store_of s card.old) named.now) ≡ done }
    ensures { remove_all_of (store_of s card.old) named.now ≡ leave done (store_of result card.new) }
{
    let n = named.len();
    let mut slots = [0u32; SLOTS];
    let mut t = s;
    for i in 0..n {
        let place = i % PORTION;
        if place == 0 {
            let count = portion(n - i);
            let last = i + count;
            let end = SLOT * count;
            sums::read_all(card, t, &named[i..last], &mut slots[0..end]);
        }
        let from = SLOT * place;
        let to = from + SLOT;
        let c = sums::counts_of(&slots[from..to], named[i]);
        let flush = removals::must_flush(t.buffer, c);
        let l = list_flush(
            card,
            t.lengths.card / BLOCK_BYTES,
            t.taken,
            t.buffer,
            t.partitions,
            flush,
        );
        let left = removals::take_back(begun(t.buffer, flush), c);
        let list = l.partitions;
        t.windows = one_less(t.windows);
        t.buffer = left;
        t.partitions = list;
        t.taken = l.taken;
    }
    t
}

// Removes closed windows together: judged first, and then made.
pub fn remove_all(s: State, card: &mut [u8], named: &[u32]) -> After<()>
    ensures { RemovesAll s card.old named.now result card.new }
{
    match judge(s, card, named) {
        Err(why) => windows::refuse(s, why),
        Ok(()) => windows::done(remove_each(s, card, named)),
    }
}
