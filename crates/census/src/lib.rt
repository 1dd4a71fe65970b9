// N counted from card and buffer: the windows of a stretch that show and have a count above 0. A walk by falling key reads all lists; each window is marked, and
// counted, at its first total above 0.
#![tactic(auto)]

ghost use Rattle.std.specs.Prelude.{true, cond, ◌||◌, ◌≡◌, ◌++◌, ℕ, ◌+◌, ◌*◌, ◌≤◌, ◌<◌, eqb, length};
ghost use Rattle.lists.specs.All.{AllOf};
ghost use Rattle.lists.specs.Lists.{every};
ghost use Rattle.words.specs.Words.{words as words_of};
ghost use Rattle.state.specs.Views.{blocks, buffered, finished};
ghost use Rattle.state.specs.Rules.{state_rule};
ghost use Rattle.state.specs.Shown.{shown_in};
ghost use Rattle.card.specs.Marks.{bit_of};
ghost use Rattle.partitions.specs.Reading.{postings_of, in_partitions, stored};
ghost use Rattle.partitions.specs.Formed.{list_rule, partitions_formed};
ghost use Rattle.partitions.specs.Terms.{Readable};
ghost use Rattle.kway.specs.Parts.{parts};
ghost use Rattle.scans.specs.Heads.{Kept};
ghost use Rattle.sums.specs.Tally.{lists_ruled};
ghost use Rattle.census.specs.Existing.{CountedIn};
ghost use Rattle.census.specs.Marks.{Covers, Unmarked, MarkStep};
ghost use Rattle.census.specs.Walks.{lists, held, Orderly};

use postings::Stretch;
use scans::Whole;
use state::{Buffer, Partitions, State, Windows};
use sums::Front;

// Numbers that marks are kept in, 4 KB: a stretch of up to 32,768 windows is counted in one walk, a longer one in two, each over a part of it. Twice as many would
// spare the second walk and take a query past 16 KB of stack.
const MARKS: usize = 1024;

// Takes all marks away.
fn clear(marks: &mut [u32])
    ensures { (length marks.new ≡ length marks.old) × Unmarked marks.new }
{
    marks.fill(0);
}

// Sets a mark, and tells 1 where it was not set.
fn mark(marks: &mut [u32], at: u16) -> u32
    requires { at < 32 * length marks.old }
    ensures { (length marks.new ≡ length marks.old)
        × ((k : ℕ) → bit_of 32 marks.new k ≡ (eqb at k || bit_of 32 marks.old k))
        × (result ≡ cond (bit_of 32 marks.old at) 0 1) }
{
    let i = at as usize / 32;
    let number = marks[i];
    marks[i] = number | 1 << (at as u32 % 32);
    if number >> (at as u32 % 32) & 1 == 1 {
        0
    } else {
        1
    }
}

// Marks a window whose total under an identifier is above 0, if it shows in the stretch, and tells 1 where it was not marked.
fn mark_window(marks: &mut [u32], t: Stretch, current: u16, window: u16, total: i32) -> u32
    requires { Covers t marks.old }
    ensures { MarkStep t current window total marks.old result marks.new }
{
    let lies = (t.first <= window) & (window <= t.last);
    if (lies & (window != current)) & (0 < total) {
        return mark(marks, window - t.first);
    }
    0
}

// The walk: key after key, from the greatest at any head down. No list may reach a key that was passed. A window is counted where it is marked first.
fn walk(
    card: &[u8],
    heads: &mut [u32],
    n: usize,
    b: Buffer,
    t: Stretch,
    v: Windows,
    marks: &mut [u32],
) -> Option<u32>
    requires { (n ≤ 51) × (10 * n ≤ length heads.old) × AllOf (Kept (words_of card.now)) (parts 10 n heads.old) × Orderly b
        × Covers t marks.old × Unmarked marks.old }
    ensures { CountedIn (every list_rule (lists (words_of card.now) n heads.old)) (held (words_of card.now) n heads.old b) (shown_in t v) result }
{
    let used = b.used as usize;
    let whole = Whole { card };
    let l = kway::leading::leader(&whole, heads, n);
    let mut next = l.top;
    let mut lead = l.at;
    let mut others = l.others;
    let mut at: usize = 0;
    let mut bound: u32 = kway::KEYS;
    let mut windows: u32 = 0;
    // by falling key, whichever list has it; the buffer's place moves on only where the buffer has the key
    loop {
        let mut front = Front { reach: 0, count: 0 };
        if at < used {
            let p = b.postings[at];
            front = sums::front_of(p);
        }
        let top = next.max(front.reach);
        if top == 0 {
            return Some(windows);
        }
        if bound < top {
            return None;
        }
        let key = top - 1;
        let k = kway::leading::take_led(&whole, heads, n, lead, others, key);
        if !k.fine {
            return None;
        }
        let total = kway::added(k.sum, sums::count_under(front, top));
        windows += mark_window(marks, t, v.current, scans::key_window(key), total);
        at = sums::past(at, front, top);
        next = k.next;
        lead = k.at;
        others = k.others;
        bound = key;
    }
}

// The part of a stretch, up to its last window, that begins at `from` and that n numbers have marks for.
fn part_from(from: u16, last: u16, n: usize) -> Stretch
    requires { (1 ≤ n) × (n ≤ 65536) }
    ensures { (result.first ≡ from) × (result.last ≤ last) × (result.last < from + 32 * n) × (result.last < last → from ≤ result.last) }
{
    let end = from as usize + (32 * n - 1);
    if last as usize <= end {
        return Stretch { first: from, last };
    }
    Stretch {
        first: from,
        last: end as u16,
    }
}

// Counts the windows of a stretch that the marks cover.
fn count_part(
    card: &[u8],
    ps: Partitions,
    b: Buffer,
    t: Stretch,
    v: Windows,
    heads: &mut [u32],
    marks: &mut [u32],
) -> Option<u32>
    requires { (ps.used ≤ 51) × (length heads.old ≡ 510) × AllOf (Readable (words_of card.now)) (finished ps) × Orderly b × Covers t marks.old }
    ensures { CountedIn (every (λ p. list_rule (postings_of (words_of card.now) p)) (finished ps))
        (in_partitions (words_of card.now) (finished ps) ++ buffered b) (shown_in t v) result }
{
    let n = ps.used as usize;
    clear(marks);
    scans::open_heads(card, ps, heads);
    walk(card, heads, n, b, t, v, marks)
}

// Counts the windows of a stretch part by part. All lists are judged also where the stretch has no window.
fn count_parts(
    card: &[u8],
    ps: Partitions,
    b: Buffer,
    t: Stretch,
    v: Windows,
    heads: &mut [u32],
    marks: &mut [u32],
) -> Option<u32>
    requires { (ps.used ≤ 51) × (length heads.old ≡ 510) × AllOf (Readable (words_of card.now)) (finished ps) × Orderly b
        × (1 ≤ length marks.old) × (length marks.old ≤ 65536) }
    ensures { CountedIn (every (λ p. list_rule (postings_of (words_of card.now) p)) (finished ps))
        (in_partitions (words_of card.now) (finished ps) ++ buffered b) (shown_in t v) result }
{
    let n = marks.len();
    let mut from = t.first.max(1);
    let mut windows: u32 = 0;
    // part by part: no index is counted
    loop {
        let part = part_from(from, t.last, n);
        let more = count_part(card, ps, b, part, v, heads, marks)?;
        windows += more;
        if part.last == t.last {
            return Some(windows);
        }
        from = part.last + 1;
    }
}

// N of a stretch: how many of its windows that show have a count above 0, over all that is stored. All lists of the finished partitions are judged: `None` where
// one is malformed.
pub fn count(card: &[u8], s: State, t: Stretch) -> Option<u32>
    requires { (state_rule s ≡ true) × (length (words_of card.now) ≡ 1024 * blocks s)
        × (partitions_formed (words_of card.now) (blocks s) (finished s.partitions) ≡ true) }
    ensures { CountedIn (lists_ruled (words_of card.now) s) (stored (words_of card.now) s) (shown_in t s.windows) result }
{
    let ps = s.partitions;
    if !spans::spans_ok(card, ps) {
        return None;
    }
    let mut heads = [0u32; 510];
    let mut marks = [0u32; MARKS];
    let b = s.buffer;
    let v = s.windows;
    count_parts(card, ps, b, t, v, &mut heads, &mut marks)
}

// Whether all lists of the finished partitions are well formed.
pub fn lists_ok(card: &[u8], s: State) -> bool
    requires { (state_rule s ≡ true) × (length (words_of card.now) ≡ 1024 * blocks s)
        × (partitions_formed (words_of card.now) (blocks s) (finished s.partitions) ≡ true) }
    ensures { result ≡ lists_ruled (words_of card.now) s }
{
    let nowhere = Stretch { first: 0, last: 0 };
    count(card, s, nowhere).is_some()
}
