// The counts of windows, read from all that is stored in one pass by falling key.
#![tactic(auto)]

ghost use Rattle.std.specs.Prelude.{true, cond, ◌≡◌, ◌+◌, ◌*◌, ◌≤◌, ◌<◌, eqb, pos, length};
ghost use Rattle.words.specs.Words.{words as words_of};
ghost use Rattle.state.specs.Views.{blocks, finished};
ghost use Rattle.state.specs.Rules.{state_rule};
ghost use Rattle.partitions.specs.Formed.{partitions_formed};
ghost use Rattle.scans.specs.Keys.{key_of, key_window};
ghost use Rattle.sums.specs.Views.{counts_in, Neat, first_place, held_in, Tidy, Cleared};
ghost use Rattle.sums.specs.Tally.{ReadOf, ReadAll};
ghost use Rattle.sums.specs.Steps.{Counted, Begun};

use postings::{LAST_ID, Posting};
use scans::Whole;
use state::{Buffer, MOST_LISTED, State};

// How many windows one pass can be asked for.
pub const MOST_WINDOWS: usize = 32;

// The numbers that a window's counts take in a lent array: how many, and then one for each.
pub const SLOT: usize = 65;

// The counts of a window, by identifier.
#[derive(Clone, Copy)]
pub struct Counts {
    pub used: u16,
    pub postings: [Posting; MOST_LISTED],
}

// What the buffer has still to come first: one more than the key, and the count; 0 where nothing is to come.
#[derive(Clone, Copy)]
pub struct Front {
    pub reach: u32,
    pub count: i16,
}

// A buffered posting that is to come first.
pub fn front_of(p: Posting) -> Front
    requires { p.id ≤ 1023 }
    ensures { (result.reach ≡ key_of p.id p.window + 1) × (result.count ≡ p.count) }
{
    Front {
        reach: (LAST_ID - p.id as u32) * 65536 + p.window as u32 + 1,
        count: p.count,
    }
}

// The count that the buffer has under the key below `top`.
pub fn count_under(f: Front, top: u32) -> i16
    ensures { result ≡ cond (eqb f.reach top) f.count (pos 0) }
{
    if f.reach == top { f.count } else { 0 }
}

// The buffer's place past the key below `top`.
pub fn past(at: usize, f: Front, top: u32) -> usize
    requires { at ≤ 128 }
    ensures { result ≡ cond (eqb f.reach top) (at + 1) at }
{
    if f.reach == top { at + 1 } else { at }
}

// The place at which a window is first named; how many are named where it is not.
pub fn place_of(windows: &[u32], window: u32) -> usize
    ensures { result ≡ first_place window windows.now }
{
    let found = windows.iter().position(|w| *w == window);
    found.unwrap_or(windows.len())
}

// Every slot without counts.
fn clear(slots: &mut [u32], n: usize)
    requires { (n ≤ 32) × (length slots.old ≡ 65 * n) }
    ensures { Cleared n slots.new }
{
    for i in 0..n {
        slots[SLOT * i] = 0;
    }
}

// The total under a key is a count of its window, where it is not 0. A slot has room for 64.
fn keep_total(slot: &mut [u32], key: u32, sum: i32, total: i32) -> bool
    requires { Tidy (key_window key) slot.old × (key < 67108864) }
    ensures { Counted slot.old key sum total result slot.new }
{
    let fits = kway::in_range(sum) & kway::in_range(total);
    if !fits {
        return false;
    }
    if total == 0 {
        return true;
    }
    let used = slot[0];
    if used == 64 {
        return false;
    }
    slot[used as usize + 1] = postings::pack(total as i16, scans::key_id(key));
    slot[0] = used + 1;
    true
}

// The walk: key after key, from the greatest at any head down. No list may reach a key that was passed. Totals of the windows named are kept.
fn walk(
    card: &[u8],
    heads: &mut [u32],
    start: u32,
    s: State,
    b: Buffer,
    windows: &[u32],
    slots: &mut [u32],
) -> bool
    requires { Begun (words_of card.now) s b heads.old start × (length windows.now ≤ 32) × Cleared (length windows.now) slots.old }
    ensures { ReadAll (words_of card.now) s windows.now result slots.new }
{
    let n = s.partitions.used as usize;
    let used = b.used as usize;
    let named = windows.len();
    let mut at: usize = 0;
    let mut next = start;
    let mut bound: u32 = kway::KEYS;
    // by falling key, whichever list has it; the buffer's place moves on only where the buffer has the key
    loop {
        let mut front = Front { reach: 0, count: 0 };
        if at < used {
            let p = b.postings[at];
            front = front_of(p);
        }
        let top = next.max(front.reach);
        if top == 0 {
            return true;
        }
        if bound < top {
            return false;
        }
        let key = top - 1;
        let t = kway::take(&Whole { card }, heads, n, key);
        let mut fine = t.fine;
        let place = place_of(windows, scans::key_window(key) as u32);
        if place < named {
            let total = kway::added(t.sum, count_under(front, top));
            let from = SLOT * place;
            let kept = keep_total(&mut slots[from..from + SLOT], key, t.sum, total);
            fine &= kept;
        }
        if !fine {
            return false;
        }
        at = past(at, front, top);
        next = t.next;
        bound = key;
    }
}

// The counts of the windows named, read from the partitions and the buffer together, where all lists and the windows' sums are well formed. Each window has its
// slot, in the order in which they are named.
pub fn read_all(card: &[u8], s: State, windows: &[u32], slots: &mut [u32]) -> bool
    requires { (state_rule s ≡ true) × (length (words_of card.now) ≡ 1024 * blocks s)
        × (partitions_formed (words_of card.now) (blocks s) (finished s.partitions) ≡ true)
        × (length windows.now ≤ 32) × (length slots.old ≡ 65 * length windows.now) }
    ensures { ReadAll (words_of card.now) s windows.now result slots.new }
{
    clear(slots, windows.len());
    if !spans::spans_ok(card, s.partitions) {
        return false;
    }
    let mut heads = [0u32; 510];
    let start = scans::open_heads(card, s.partitions, &mut heads);
    walk(card, &mut heads, start, s, s.buffer, windows, slots)
}

// A window's counts, taken from its slot.
pub fn counts_of(slot: &[u32], window: u32) -> Counts
    requires { Tidy window slot.now }
    ensures { (counts_in result ≡ held_in window slot.now) × Neat result }
{
    let n = slot[0] as usize;
    let mut postings = [Posting::NONE; MOST_LISTED];
    for i in 0..n {
        let q = postings::unpack(0, slot[i + 1]);
        postings[i] = Posting {
            id: q.window,
            window: window as u16,
            count: q.count,
        };
    }
    Counts {
        used: n as u16,
        postings,
    }
}

// The counts of one window, where what is read is well formed.
pub fn read(card: &[u8], s: State, window: u32) -> Option<Counts>
    requires { (state_rule s ≡ true) × (length (words_of card.now) ≡ 1024 * blocks s)
        × (partitions_formed (words_of card.now) (blocks s) (finished s.partitions) ≡ true) }
    ensures { ReadOf (words_of card.now) s window result }
{
    let windows = [window; 1];
    let mut slot = [0u32; SLOT];
    if !read_all(card, s, &windows, &mut slot) {
        return None;
    }
    Some(counts_of(&slot, window))
}
