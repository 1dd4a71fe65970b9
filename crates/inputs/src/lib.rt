// The reading side of a merge step: the inputs judged in one walk, and their pairs taken in order. A head for each input stands in a lent array of
// numbers (`scans`), and is moved in place.
#![tactic(auto)]

ghost use Rattle.std.specs.Prelude.{◌≡◌, true, [], ◌∷◌, ◌++◌, ◌+◌, ◌*◌, ◌≤◌, ◌<◌, nat_abs, length, get_or, take, drop, replicate, IfSome};
ghost use Rattle.lists.specs.All.{AllOf};
ghost use Rattle.words.specs.Words.{words as words_of};
ghost use Rattle.postings.specs.Merge.{is_zero, nonzero, pairs as pairs_of};
ghost use Rattle.state.specs.Views.{finished};
ghost use Rattle.card.specs.Cursors.{ahead, Good};
ghost use Rattle.partitions.specs.Reading.{in_partitions};
ghost use Rattle.partitions.specs.Terms.{Readable};
ghost use Rattle.scans.specs.Keys.{posting_of};
ghost use Rattle.scans.specs.Heads.{views};
ghost use Rattle.inputs.specs.Judging.{inputs_formed, judged_of, counts_by_id, Small, risen as risen_of, totals_more, counts_more, untold, resumed, Told};
ghost use Rattle.inputs.specs.Ahead.{pairs_ahead, Ready, Formed, out_words, Matched, batched};

use card::Cursor;
use postings::{Posting, STEP_PAIRS};
use scans::Whole;
use state::Partitions;

// What is told of a merge's inputs: how many pairs they have, how many of these have a sum other than 0, of how many identifiers these are, and their
// lowest and highest window.
#[derive(Clone, Copy)]
pub struct Totals {
    pub pairs: u32,
    pub postings: u32,
    pub terms: u16,
    pub lowest: u16,
    pub highest: u16,
}

// The pair that is taken next, and one more than the greatest key at any head past it.
#[derive(Clone, Copy)]
struct Next {
    pub pair: Posting,
    pub top: u32,
}

// Pairs taken: those with a sum other than 0, and how many were taken in all.
#[derive(Clone, Copy)]
pub struct Batch {
    pub pairs: [Posting; STEP_PAIRS],
    pub used: u16,
    pub taken: u16,
}

// Whether the output has a pair's word, and the cursor past it, which is told in either case.
#[derive(Clone, Copy)]
struct Compared {
    pub same: bool,
    pub out: Cursor,
}

// Whether the output has the words of pairs, one more than the greatest key at any head past them, and the output past them, all of
// which is told in either case.
#[derive(Clone, Copy)]
pub struct Passed {
    pub same: bool,
    pub top: u32,
    pub out: Cursor,
}

// Whether a pair's sum is 0.
fn is_zero(p: Posting) -> bool
    ensures { result ≡ is_zero p.count }
{
    p.count == 0
}

// The pair of a key, with its sum.
fn pair_of(key: u32, sum: i32) -> Posting
    requires { (key < 67108864) × (nat_abs sum ≤ 32767) }
    ensures { result ≡ posting_of (record { key = key; sum = sum }) }
{
    Posting {
        id: scans::key_id(key),
        window: scans::key_window(key),
        count: sum as i16,
    }
}

impl Totals {
    // Of no pairs.
    const NONE: Totals = Totals {
        pairs: 0,
        postings: 0,
        terms: 0,
        lowest: 65535,
        highest: 0,
    };
}

// The identifiers, of which the next posting's has n postings so far.
fn risen(terms: u16, n: u16) -> u16
    requires { terms ≤ 1024 }
    ensures { result ≡ risen_of terms n }
{
    if n == 0 { terms + 1 } else { terms }
}

// Totals with a pair more, which is counted under its identifier.
fn tally(t: Totals, counts: &mut [u16], p: Posting) -> Totals
    requires { Small t × (p.id < length counts.old) × (get_or counts.old p.id 0 ≤ 65534) }
    ensures { (result ≡ totals_more t (get_or counts.old p.id 0) p) × (counts.new ≡ counts_more counts.old p) }
{
    let pairs = t.pairs + 1;
    if is_zero(p) {
        return Totals { pairs, ..t };
    }
    let i = p.id as usize;
    let n = counts[i];
    counts[i] = n + 1;
    Totals {
        pairs,
        postings: t.postings + 1,
        terms: risen(t.terms, n),
        lowest: t.lowest.min(p.window),
        highest: t.highest.max(p.window),
    }
}

// The walk over the inputs: key after key, from the greatest at any head down. No head may reach a key that was passed, and every sum has to fit.
fn walk(card: &[u8], heads: &mut [u32], n: usize, first: u32, counts: &mut [u16]) -> Option<Totals>
    requires { Ready (words_of card.now) n heads.old first × (counts.old ≡ replicate 1024 0) }
    ensures { Told (resumed 67108864 (views (words_of card.now) n heads.old) untold) result counts.new × IfSome result Small }
{
    let mut top = first;
    let mut bound: u32 = kway::KEYS;
    let mut t = Totals::NONE;
    // The next key is the greatest that is left: there is no index to count.
    while 0 < top {
        if bound < top {
            return None;
        }
        let key = top - 1;
        let k = kway::take(&Whole { card }, heads, n, key);
        if !k.fine | !kway::in_range(k.sum) {
            return None;
        }
        t = tally(t, counts, pair_of(key, k.sum));
        bound = key;
        top = k.next;
    }
    Some(t)
}

// What is told of a merge's inputs where they are well formed, by one walk over them, and how many postings are under each identifier.
pub fn judge(card: &[u8], ps: Partitions, heads: &mut [u32], counts: &mut [u16]) -> Option<Totals>
    requires { (ps.used ≤ 51) × AllOf (Readable (words_of card.now)) (finished ps) × (10 * ps.used ≤ length heads.old) × (length heads.old ≤ 65536)
        × (counts.old ≡ replicate 1024 0) }
    ensures { (result ≡ judged_of (words_of card.now) (finished ps))
        × IfSome result (λ t. (counts.new ≡ counts_by_id (pairs_of (in_partitions (words_of card.now) (finished ps)))) × Small t) }
{
    if !spans::spans_ok(card, ps) {
        return None;
    }
    let top = scans::open_heads(card, ps, heads);
    walk(card, heads, ps.used as usize, top, counts)
}

// The heads of inputs that are well formed, and one more than the greatest key at any.
pub fn open_inputs(card: &[u8], ps: Partitions, heads: &mut [u32]) -> u32
    requires { (ps.used ≤ 51) × AllOf (Readable (words_of card.now)) (finished ps) × (10 * ps.used ≤ length heads.old) × (length heads.old ≤ 65536)
        × (inputs_formed (words_of card.now) (finished ps) ≡ true) }
    ensures { Formed (words_of card.now) ps.used heads.new result
        × (pairs_ahead (words_of card.now) ps.used heads.new ≡ pairs_of (in_partitions (words_of card.now) (finished ps))) }
{
    scans::open_heads(card, ps, heads)
}

// The next pair, where there is one.
fn next_pair(card: &[u8], heads: &mut [u32], n: usize, top: u32) -> Next
    requires { Formed (words_of card.now) n heads.old top × (0 < top) }
    ensures { (pairs_ahead (words_of card.now) n heads.old ≡ result.pair ∷ pairs_ahead (words_of card.now) n heads.new)
        × Formed (words_of card.now) n heads.new result.top }
{
    let key = top - 1;
    let moved = kway::take(&Whole { card }, heads, n, key);
    Next {
        pair: pair_of(key, moved.sum),
        top: moved.next,
    }
}

// A batch with a pair more, unless its sum is 0.
fn kept(b: Batch, p: Posting) -> Batch
    requires { b.used < 16 }
    ensures { (batched result ≡ batched b ++ nonzero (p ∷ [])) × (result.used ≤ b.used + 1) }
{
    if is_zero(p) {
        return b;
    }
    let mut next = b;
    next.pairs[b.used as usize] = p;
    next.used += 1;
    next
}

// The next sixteen pairs, or all that are left: the sums other than 0, and how many pairs were taken.
pub fn sixteen(card: &[u8], heads: &mut [u32], n: usize, first: u32) -> Batch
    requires { Formed (words_of card.now) n heads.old first }
    ensures { (batched result ≡ nonzero (take 16 (pairs_ahead (words_of card.now) n heads.old)))
        × (result.taken ≡ length (take 16 (pairs_ahead (words_of card.now) n heads.old)))
        × (result.used ≤ 16)
        × (pairs_ahead (words_of card.now) n heads.new ≡ drop 16 (pairs_ahead (words_of card.now) n heads.old)) }
{
    let mut top = first;
    let mut b = Batch {
        pairs: [Posting::NONE; STEP_PAIRS],
        used: 0,
        taken: 0,
    };
    let mut i: u16 = 0;
    // left with the number of pairs taken, by which a step knows whether it is the last
    let taken = 'pairs: loop {
        if i == 16 {
            break 'pairs i;
        }
        if top == 0 {
            break 'pairs i;
        }
        let t = next_pair(card, heads, n, top);
        b = kept(b, t.pair);
        top = t.top;
        i += 1;
    };
    b.taken = taken;
    b
}

// Whether the output has the word of a pair next; of a sum of 0 it has none.
fn compare(card: &[u8], out: Cursor, p: Posting) -> Compared
    requires { Good (words_of card.now) out × (length (nonzero (p ∷ [])) ≤ out.left) × (nat_abs p.count ≤ 32767) }
    ensures { Matched (ahead (words_of card.now) out) (out_words 1 (p ∷ [])) result.same (ahead (words_of card.now) result.out) × Good (words_of card.now) result.out }
{
    if is_zero(p) {
        return Compared { same: true, out };
    }
    let word = postings::pack(p.count, p.window);
    Compared {
        same: card::head(card, out) == word,
        out: card::moved(card, out),
    }
}

// Whether the output has the words of the next m pairs, or of all that are left, and heads and output past them.
pub fn pass(card: &[u8], heads: &mut [u32], n: usize, first: u32, m: u32, out: Cursor) -> Passed
    requires { Formed (words_of card.now) n heads.old first × Good (words_of card.now) out
        × (length (out_words m (pairs_ahead (words_of card.now) n heads.old)) ≤ out.left) }
    ensures { Matched (ahead (words_of card.now) out) (out_words m (pairs_ahead (words_of card.now) n heads.old)) result.same (ahead (words_of card.now) result.out)
        × (pairs_ahead (words_of card.now) n heads.new ≡ drop m (pairs_ahead (words_of card.now) n heads.old))
        × Formed (words_of card.now) n heads.new result.top
        × Good (words_of card.now) result.out }
{
    let mut top = first;
    let mut o = out;
    let mut same = true;
    for _ in 0..m {
        if top == 0 {
            break;
        }
        let t = next_pair(card, heads, n, top);
        let d = compare(card, o, t.pair);
        same &= d.same;
        top = t.top;
        o = d.out;
    }
    Passed { same, top, out: o }
}
