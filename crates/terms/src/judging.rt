// Judging an identifier's lists: one k-way merge over its lists on the card and its part of the run.
ghost use Rattle.std.specs.Prelude.{◌≡◌, cond, map, ◌+◌, ◌*◌, ◌≤◌, ◌<◌, length};
ghost use Rattle.keyed.specs.Keys.{head_vals};
ghost use Rattle.keyed.specs.Groups.{top_all, move_all};
ghost use Rattle.words.specs.Words.{words as words_of};
ghost use Rattle.postings.specs.Sums.{above as above_of};
ghost use Rattle.state.specs.Shown.{shows_in};
ghost use Rattle.terms.specs.Judged.{total_z, fine_at, told_of};
ghost use Rattle.kway.specs.Leads.{Leads};
ghost use Rattle.heads.specs.Heads.{views};
ghost use Rattle.terms.specs.Both.{Ready, both as both_of};

use heads::Lists;
use kway::Source;

// What is taken under a window: whether it is well formed with sums in range, what it counts, one more than the greatest window to come, and the list on
// the card that leads. All but the first is told of malformed postings too, so that it stands beside a flag and in no option.
#[derive(Clone, Copy)]
struct Judged {
    pub fine: bool,
    pub count: u32,
    pub next: u32,
    pub at: u32,
    pub others: u32,
}

// In how many windows that show the sum is above 0, and what these sums come to.
#[derive(Clone, Copy)]
pub struct Told {
    pub windows: u32,
    pub total: u32,
}

// What a window counts, if it shows.
fn shown(count: u32, shows: bool) -> u32
    ensures { result ≡ cond shows count 0 }
{
    if shows { count } else { 0 }
}

// Takes the heads that have the key. The sum is judged without the run and with it.
fn judge_window(
    card: &[u8],
    run: &[u32],
    heads: &mut [u32],
    n: usize,
    lead: u32,
    others: u32,
    key: u32,
) -> Judged
    requires { (length heads.old ≡ 4 * n + 4) × (n ≤ 51) × (key < 4294967295) × Ready (words_of card.now) run.now n heads.old
        × Leads (views (words_of card.now) run.now n heads.old) lead others }
    ensures heads { (length heads.new ≡ length heads.old)
        × Ready (words_of card.now) run.now n heads.new
        × (both_of (words_of card.now) run.now n heads.new
        ≡ move_all key (both_of (words_of card.now) run.now n heads.old)) }
    ensures judged { (result.fine ≡ fine_at key (both_of (words_of card.now) run.now n heads.old))
        × (result.count ≡ above_of (total_z (map (head_vals key) (both_of (words_of card.now) run.now n heads.old))))
        × (result.next ≡ top_all 0 (both_of (words_of card.now) run.now n heads.new)) }
    ensures lead { Leads (views (words_of card.now) run.now n heads.new) result.at result.others }
{
    let at = 4 * n;
    let end = at + 4;
    let lists = Lists { card, run };
    let t = kway::leading::take_led(&lists, &mut heads[0..at], n, lead, others, key);
    let q = lists.took(&mut heads[at..end], key);
    let sum = t.sum;
    let total = kway::added(sum, q.count);
    let ranges = kway::in_range(sum) & kway::in_range(total);
    let count = kway::above(total);
    Judged {
        fine: (t.fine & q.fine) & ranges,
        count,
        next: t.next.max(q.reach),
        at: t.at,
        others: t.others,
    }
}

// The whole merge, by falling window: `None` where what is read is malformed. `current` is the open window's number, or 0: it is judged and counts nothing, and so
// is a window outside the stretch from `first` to `last`. No list may reach a window that was passed. The heads are spent by it.
pub fn judge(
    card: &[u8],
    run: &[u32],
    heads: &mut [u32],
    n: usize,
    current: u32,
    first: u32,
    last: u32,
) -> Option<Told>
    requires { (length heads.old ≡ 4 * n + 4) × (n ≤ 51) × Ready (words_of card.now) run.now n heads.old }
    ensures { result ≡ told_of (shows_in (record { first = first; last = last }) current) (both_of (words_of card.now) run.now n heads.old) }
{
    let l = kway::leading::leader(&Lists { card, run }, heads, n);
    let mut top = l.top.max(heads[4 * n]);
    let mut at = l.at;
    let mut others = l.others;
    let mut bound: u32 = 65536;
    let mut windows: u32 = 0;
    let mut total: u32 = 0;
    // by falling window, whichever list has it: no index is counted
    while 0 < top {
        if bound < top {
            return None;
        }
        let w = top - 1;
        let t = judge_window(card, run, heads, n, at, others, w);
        if !t.fine {
            return None;
        }
        let count = shown(t.count, ((first <= w) & (w <= last)) & (w != current));
        windows += (0 < count) as u32;
        total += count;
        top = t.next;
        at = t.at;
        others = t.others;
        bound = w;
    }
    Some(Told { windows, total })
}
