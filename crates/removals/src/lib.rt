// Removal of a window.
#![tactic(auto)]

ghost use Rattle.std.specs.Prelude.{◌&&◌, ◌||◌, not, ◌≡◌, ◌+◌, ◌≤◌, eqb, ltb, length};
ghost use mathlib.Core.List.{foldr};
ghost use Rattle.postings.specs.Merge.{put, nonzero, negated};
ghost use Rattle.state.specs.Views.{buffered, buffer_of};
ghost use Rattle.sums.specs.Views.{counts_in};
ghost use Rattle.removals.specs.Removal.{is_live, removed};
ghost use Rattle.removals.specs.Promises.{Removes};
ghost use Rattle.removals.specs.Taking.{Takeable, Emptiable, emptied, emptied_card, buffer_after};

use answers::Refusal;
use postings::Posting;
use state::{BLOCK_BYTES, Buffer, Partitions, State, Windows};
use sums::Counts;
use windows::After;

// Takes each of a window's counts back: it is added to the buffer negated, and a sum that comes to 0 is dropped.
pub fn take_back(b: Buffer, c: Counts) -> Buffer
    requires { Takeable b c }
    ensures { result ≡ buffer_of (nonzero (foldr put (buffered b) (negated (counts_in c)))) }
{
    let mut left = b;
    for i in (0..c.used as usize).rev() {
        let p = c.postings[i];
        let q = Posting {
            count: buffer::negate(p.count),
            ..p
        };
        left = buffer::add(left, q);
    }
    left
}

// The buffer that counts are taken back from: an empty one after a flush.
fn buffer_after(b: Buffer, block: Option<u16>) -> Buffer
    ensures { result ≡ buffer_after b block }
{
    match block {
        Some(_) => Buffer::new(),
        None => b,
    }
}

// The partitions after the flush to a block, where there is one. Only the list is handed back, so that few copies of the state stand on the stack.
fn list_after(s: State, card: &mut [u8], block: Option<u16>) -> Partitions
    requires { Emptiable s card.old block }
    ensures { (result ≡ (emptied s block).partitions) × (card.new ≡ emptied_card s card.old block) }
{
    match block {
        Some(b) => flushes::writing::flush(card, b, s.buffer, s.partitions),
        None => s.partitions,
    }
}

// The state without the window, after the flush to a block where there is one: its counts are taken back, and N is one less.
fn without(s: State, block: Option<u16>, list: Partitions, c: Counts) -> State
    requires { Takeable (emptied s block).buffer c × (1 ≤ s.windows.live) × (list ≡ (emptied s block).partitions) }
    ensures { result ≡ removed (emptied s block) (counts_in c) }
{
    let left = take_back(buffer_after(s.buffer, block), c);
    let w = Windows {
        live: s.windows.live - 1,
        ..s.windows
    };
    State {
        windows: w,
        buffer: left,
        partitions: list,
        taken: block.unwrap_or(s.taken),
        ..s
    }
}

// Is it the open window's number?
pub fn names_open(w: Windows, window: u32) -> bool
    ensures { result ≡ (not (eqb w.current 0) && eqb window w.current) }
{
    !(w.current == 0) & (window == w.current as u32)
}

// Is a count of the window above 0?
fn is_live(c: Counts) -> bool
    requires { c.used ≤ 64 }
    ensures { result ≡ is_live (counts_in c) }
{
    c.postings[..c.used as usize].iter().any(|p| p.count > 0)
}

// Is there no such window to remove: none that is live, none given yet, or none in N?
pub fn not_live(w: Windows, window: u32, c: Counts) -> bool
    requires { c.used ≤ 64 }
    ensures { result ≡ (not (is_live (counts_in c)) || (ltb w.last window || eqb w.live 0)) }
{
    !is_live(c) | (((w.last as u32) < window) | (w.live == 0))
}

// Do buffered postings and counts together exceed 128?
pub fn must_flush(b: Buffer, c: Counts) -> bool
    requires { (b.used ≤ 128) × (c.used ≤ 64) }
    ensures { result ≡ ltb 128 (length (buffered b) + length (counts_in c)) }
{
    b.used + c.used > 128
}

// Removes a closed window: each of its counts is buffered negated, and N is one less, with a flush first where the buffer has no room for them. Refusals 1 and 2
// come by admission, 3 for what is read of the card. What the call answers is put together here alone, so that few copies of the state stand on the stack.
pub fn remove(s: State, card: &mut [u8], window: u32) -> After<()>
    ensures { Removes s card.old window result card.new }
{
    if let Err(why) = admission::judge_card(rules::state_ok(s), s.lengths, card) {
        return windows::refuse(s, why);
    }
    let ps = s.partitions;
    if !partitions::partitions_ok(card, s.lengths.card / BLOCK_BYTES, ps) {
        return windows::refuse(s, Refusal::Malformed);
    }
    let Some(c) = sums::read(card, s, window) else {
        return windows::refuse(s, Refusal::Malformed);
    };
    if names_open(s.windows, window) {
        return windows::refuse(s, Refusal::OutOfTurn);
    }
    if not_live(s.windows, window, c) {
        return windows::refuse(s, Refusal::NotLive);
    }
    let block = match flushes::target_of(s, card, must_flush(s.buffer, c)) {
        Ok(block) => block,
        Err(why) => return windows::refuse(s, why),
    };
    let list = list_after(s, card, block);
    windows::done(without(s, block, list, c))
}
