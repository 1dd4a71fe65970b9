// The buffered postings: finding a pair, and adding a signed amount to it.
#![tactic(auto)]

ghost use Rattle.std.specs.Prelude.{◌≡◌, ◌≤◌, ◌<◌, neg_ℤ, nat_abs, ◌+ℤ◌, set};
ghost use Rattle.lists.specs.Lists.{any};
ghost use Rattle.postings.specs.Order.{same_pair};
ghost use Rattle.postings.specs.Merge.{put, nonzero};
ghost use Rattle.state.specs.Views.{buffered, buffer_of};
ghost use Rattle.buffer.specs.Places.{pair, places_before, place_of, inserted_at, dropped_at, posting_at, moved_at};
ghost use Rattle.buffer.specs.Canonical.{Canonical, Addable};

use postings::Posting;
use state::Buffer;

// Whether `q` is of the pair.
fn is_pair(q: Posting, id: u16, window: u16) -> bool
    ensures { result ≡ same_pair (pair id window) q }
{
    (id == q.id) & (window == q.window)
}

// Whether the pair is buffered, in whatever order the postings stand.
pub fn holds_pair(b: Buffer, id: u16, window: u16) -> bool
    requires { b.used ≤ 128 }
    ensures { result ≡ any (same_pair (pair id window)) (buffered b) }
{
    b.buffered().iter().any(|q| is_pair(*q, id, window))
}

// How many buffered postings stand before the pair, by halving.
fn rank_of(b: Buffer, id: u16, window: u16) -> usize
    requires { Canonical b }
    ensures { result ≡ places_before (pair id window) (buffered b) }
{
    let p = Posting {
        id,
        window,
        count: 1,
    };
    b.buffered().partition_point(|q| postings::precedes(*q, p))
}

// The place of the pair, or else the place before which it would be put in.
pub fn find_pair(b: Buffer, id: u16, window: u16) -> Result<usize, usize>
    requires { Canonical b }
    ensures { result ≡ place_of (pair id window) (buffered b) }
{
    let k = rank_of(b, id, window);
    if k == b.used as usize {
        return Err(k);
    }
    if is_pair(b.postings[k], id, window) {
        Ok(k)
    } else {
        Err(k)
    }
}

// Puts `p` in before place `k`; the rest moves up by one.
fn insert(b: Buffer, k: usize, p: Posting) -> Buffer
    requires { Canonical b × (b.used < 128) × (k ≤ b.used) }
    ensures { result ≡ buffer_of (inserted_at k p (buffered b)) }
{
    let mut c = b;
    let end = b.used as usize;
    c.postings.copy_within(k..end, k + 1);
    c.postings[k] = p;
    c.used = b.used + 1;
    c
}

// Drops the posting at place `k`; the rest moves down by one, and the place that comes free is cleared.
fn remove(b: Buffer, k: usize) -> Buffer
    requires { Canonical b × (k < b.used) }
    ensures { result ≡ buffer_of (dropped_at k (buffered b)) }
{
    let mut c = b;
    let end = b.used as usize;
    c.postings.copy_within(k + 1..end, k);
    c.postings[end - 1] = Posting::NONE;
    c.used = b.used - 1;
    c
}

// Puts `p` in the place of the posting at `k`.
fn replace(b: Buffer, k: usize, p: Posting) -> Buffer
    requires { Canonical b × (k < b.used) }
    ensures { result ≡ buffer_of (set (buffered b) k p) }
{
    let mut c = b;
    c.postings[k] = p;
    c
}

// Two counts together, in a number wide enough for any two.
fn total(a: i16, b: i16) -> i32
    ensures { result ≡ a +ℤ b }
{
    (a as i32) + (b as i32)
}

// Moves the count at place `k` by `amount`, and drops the posting where that makes it 0.
fn shift_count(b: Buffer, k: usize, amount: i16) -> Buffer
    requires { Canonical b × (k < b.used) × (nat_abs (amount +ℤ (posting_at k (buffered b)).count) ≤ 32767) }
    ensures { result ≡ buffer_of (moved_at k amount (buffered b)) }
{
    let q = b.postings[k];
    let sum = total(amount, q.count);
    if sum == 0 {
        return remove(b, k);
    }
    let p = Posting {
        id: q.id,
        window: q.window,
        count: sum as i16,
    };
    replace(b, k, p)
}

// Adds the signed amount of `p` to its pair: a new pair is put in at its place, and one whose sum comes to 0 is dropped.
pub fn add(b: Buffer, p: Posting) -> Buffer
    requires { Canonical b × Addable b p }
    ensures { result ≡ buffer_of (nonzero (put p (buffered b))) }
{
    match find_pair(b, p.id, p.window) {
        Ok(k) => shift_count(b, k, p.count),
        Err(k) => insert(b, k, p),
    }
}

// The count that takes `c` back.
pub fn negate(c: i16) -> i16
    requires { nat_abs c ≤ 32767 }
    ensures { result ≡ neg_ℤ c }
{
    -c
}
