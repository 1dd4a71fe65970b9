// The second pass of a query: the k-way merge of its terms together, window by window, and what each window's counts weigh.
ghost use Rattle.std.specs.Prelude.{◌≡◌, true, map, ◌+◌, ◌*◌, ◌≤◌, ◌<◌, length, drop};
ghost use Rattle.lists.specs.All.{AllOf};
ghost use Rattle.lists.specs.Lists.{any, every};
ghost use Rattle.keyed.specs.Keys.{topmost_from, head_vals};
ghost use Rattle.keyed.specs.Groups.{top_all};
ghost use Rattle.words.specs.Words.{words as words_of};
ghost use Rattle.postings.specs.Sums.{is_above};
ghost use Rattle.partitions.specs.Formed.{in_range};
ghost use Rattle.kway.specs.Parts.{parts};
ghost use Rattle.heads.specs.Heads.{views};
ghost use Rattle.scores.specs.Terms.{term_of, KeptGroup, terms_of};
ghost use Rattle.scores.specs.Scores.{moved, groups_in, weigh, score_at};

use heads::Lists;

// What is taken under a window: its score, whether a count is above 0, and one more than the greatest window to come.
#[derive(Clone, Copy)]
pub struct Scored {
    pub score: u32,
    pub counts: bool,
    pub next: u32,
}

// Takes the heads of a term that have the key. A term that is not at the key is passed over without a look at its heads.
fn take_term(card: &[u8], run: &[u32], group: &mut [u32], m: usize, key: u32) -> Scored
    requires { KeptGroup (words_of card.now) run.now m group.old × (m ≤ 52) × (key < 65536)
        × (topmost_from 0 (views (words_of card.now) run.now m (drop 4 group.old)) ≤ key + 1)
        × (in_range (head_vals key (views (words_of card.now) run.now m (drop 4 group.old))) ≡ true) }
    ensures group { KeptGroup (words_of card.now) run.now m group.new
        × (term_of (words_of card.now) run.now m group.new
        ≡ moved key (term_of (words_of card.now) run.now m group.old)) }
    ensures scored { (result.score ≡ weigh key (term_of (words_of card.now) run.now m group.old)) × (result.score ≤ 61200)
        × (result.counts ≡ is_above (head_vals key (views (words_of card.now) run.now m (drop 4 group.old))))
        × (result.next ≡ topmost_from 0 (views (words_of card.now) run.now m (drop 4 group.new))) }
{
    let top = group[0];
    if top != key + 1 {
        return Scored {
            score: 0,
            counts: false,
            next: top,
        };
    }
    let weight = group[1];
    let at = group[2];
    let others = group[3];
    let lists = Lists { card, run };
    let t = kway::leading::take_led(&lists, &mut group[4..], m, at, others, key);
    group[0] = t.next;
    group[2] = t.at;
    group[3] = t.others;
    let count = kway::above(t.sum) as u16;
    let score = weights::tf_weight(count) * weight;
    Scored {
        score,
        counts: 0 < count,
        next: t.next,
    }
}

// Takes the heads of g terms that have the key, the greatest at any head.
pub fn take_terms(
    card: &[u8],
    run: &[u32],
    heads: &mut [u32],
    g: usize,
    m: usize,
    key: u32,
) -> Scored
    requires { ((4 * m + 4) * g ≤ length heads.old) × (length heads.old ≤ 65536) × (m ≤ 52) × (g ≤ 5) × (key < 65536)
        × AllOf (KeptGroup (words_of card.now) run.now m) (parts (4 * m + 4) g heads.old)
        × (top_all 0 (groups_in (terms_of (words_of card.now) run.now m g heads.old)) ≤ key + 1)
        × (every in_range (map (head_vals key) (groups_in (terms_of (words_of card.now) run.now m g heads.old))) ≡ true) }
    ensures heads { (length heads.new ≡ length heads.old)
        × AllOf (KeptGroup (words_of card.now) run.now m) (parts (4 * m + 4) g heads.new)
        × (terms_of (words_of card.now) run.now m g heads.new
        ≡ map (moved key) (terms_of (words_of card.now) run.now m g heads.old)) }
    ensures scored { (result.score ≡ score_at key (terms_of (words_of card.now) run.now m g heads.old))
        × (result.counts ≡ any is_above (map (head_vals key) (groups_in (terms_of (words_of card.now) run.now m g heads.old))))
        × (result.next ≡ top_all 0 (groups_in (terms_of (words_of card.now) run.now m g heads.new))) }
{
    let size = 4 * m + 4;
    let mut score: u32 = 0;
    let mut counts = false;
    let mut next: u32 = 0;
    for j in 0..g {
        let at = size * j;
        let t = take_term(card, run, &mut heads[at..at + size], m, key);
        score += t.score;
        counts |= t.counts;
        next = next.max(t.next);
    }
    Scored {
        score,
        counts,
        next,
    }
}

// One more than the greatest window at any head of any term. The promise is over card and run, which are not read.
pub fn top_terms(card: &[u8], run: &[u32], heads: &[u32], g: usize, m: usize) -> u32
    requires { ((4 * m + 4) * g ≤ length heads.now) × (length heads.now ≤ 65536) × (m ≤ 52)
        × AllOf (KeptGroup (words_of card.now) run.now m) (parts (4 * m + 4) g heads.now) }
    ensures { result ≡ top_all 0 (groups_in (terms_of (words_of card.now) run.now m g heads.now)) }
{
    let size = 4 * m + 4;
    let mut top: u32 = 0;
    for j in 0..g {
        top = top.max(heads[size * j]);
    }
    top
}
