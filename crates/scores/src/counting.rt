// One identifier of a query: what is read of it is judged, and its term is kept for the second pass.
ghost use Rattle.std.specs.Prelude.{◌≡◌, true, IfSome, ◌+◌, ◌*◌, ◌≤◌, length, drop};
ghost use Rattle.lists.specs.All.{AllOf};
ghost use Rattle.lists.specs.Lists.{total_by};
ghost use Rattle.keyed.specs.Keys.{all_fall};
ghost use Rattle.words.specs.Words.{words as words_of};
ghost use Rattle.weights.specs.Weights.{idf_weight};
ghost use Rattle.state.specs.Views.{blocks, finished};
ghost use Rattle.state.specs.Rules.{state_rule};
ghost use Rattle.partitions.specs.Formed.{partitions_formed, identifier_formed};
ghost use Rattle.kway.specs.Parts.{parts};
ghost use Rattle.heads.specs.Heads.{Kept, views};
ghost use Rattle.terms.specs.Opening.{Packed};
ghost use Rattle.scores.specs.Terms.{term_of, KeptGroup, told_term, Fitting, CountedFor};

use heads::Lists;
use postings::Stretch;
use state::State;
use terms::judging::Told;

// How many postings m lists that fall have to come.
fn total_left(card: &[u8], run: &[u32], heads: &[u32], m: usize) -> u32
    requires { (length heads.now ≡ 4 * m) × (m ≤ 52) × AllOf (Kept (words_of card.now) run.now) (parts 4 m heads.now)
        × (all_fall 65536 (views (words_of card.now) run.now m heads.now) ≡ true) }
    ensures { (result ≡ total_by length (views (words_of card.now) run.now m heads.now)) × (result ≤ 3407872) }
{
    let mut total: u32 = 0;
    for i in 0..m {
        total += heads[4 * i + 3];
    }
    total
}

// Puts the reach, the weight and the lead of a group whose heads are kept: `f` of `n` windows that show have its identifier.
fn weigh(card: &[u8], run: &[u32], group: &mut [u32], m: usize, n: u16, f: u16)
    requires { (length group.old ≡ 4 * m + 4) × (m ≤ 52) × AllOf (Kept (words_of card.now) run.now) (parts 4 m (drop 4 group.old)) }
    ensures { KeptGroup (words_of card.now) run.now m group.new
        × (term_of (words_of card.now) run.now m group.new
        ≡ record { lists = views (words_of card.now) run.now m (drop 4 group.old); weight = idf_weight n f }) }
{
    let l = kway::leading::leader(&Lists { card, run }, &group[4..], m);
    group[0] = l.top;
    group[1] = weights::idf_weight(n, f);
    group[2] = l.at;
    group[3] = l.others;
}

// What is told of an identifier in a stretch of windows, if what is read of it is well formed. The heads are opened, and spent by the judging.
pub fn count_term(
    card: &[u8],
    run: &[u32],
    heads: &mut [u32],
    s: State,
    id: u16,
    t: Stretch,
) -> Option<Told>
    requires { (state_rule s ≡ true) × (length (words_of card.now) ≡ 1024 * blocks s)
        × (partitions_formed (words_of card.now) (blocks s) (finished s.partitions) ≡ true)
        × Packed s.buffer run.now × (length heads.old ≡ 4 * s.partitions.used + 4) }
    ensures told { result ≡ told_term (words_of card.now) s t id }
    ensures fitting { IfSome result Fitting }
{
    let n = s.partitions.used as usize;
    terms::opening::open_heads(card, run, heads, s, id);
    let current = s.windows.current as u32;
    terms::judging::judge(card, run, heads, n, current, t.first as u32, t.last as u32)
}

// Whether what is read of an identifier is well formed. The heads are spent.
pub fn judge_term(
    card: &[u8],
    run: &[u32],
    heads: &mut [u32],
    s: State,
    id: u16,
    t: Stretch,
) -> bool
    requires { (state_rule s ≡ true) × (length (words_of card.now) ≡ 1024 * blocks s)
        × (partitions_formed (words_of card.now) (blocks s) (finished s.partitions) ≡ true)
        × Packed s.buffer run.now × (length heads.old ≡ 4 * s.partitions.used + 4) }
    ensures { result ≡ identifier_formed (words_of card.now) s id }
{
    count_term(card, run, heads, s, id, t).is_some()
}

// The same for one of the first five, whose opened heads are kept as its term, where `live` windows of the stretch exist: how many postings of it are stored. The
// judging spends a copy.
pub fn keep_term(
    card: &[u8],
    run: &[u32],
    group: &mut [u32],
    heads: &mut [u32],
    s: State,
    id: u16,
    t: Stretch,
    live: u16,
) -> Option<u32>
    requires { (state_rule s ≡ true) × (length (words_of card.now) ≡ 1024 * blocks s)
        × (partitions_formed (words_of card.now) (blocks s) (finished s.partitions) ≡ true)
        × Packed s.buffer run.now × (length heads.old ≡ 4 * s.partitions.used + 4) × (length group.old ≡ 4 * s.partitions.used + 8) }
    ensures { CountedFor (words_of card.now) run.now s t live id (s.partitions.used + 1) group.new result }
{
    let n = s.partitions.used as usize;
    terms::opening::open_heads(card, run, heads, s, id);
    group[4..].copy_from_slice(heads);
    let current = s.windows.current as u32;
    let told = terms::judging::judge(card, run, heads, n, current, t.first as u32, t.last as u32)?;
    weigh(card, run, group, n + 1, live, told.windows as u16);
    Some(total_left(card, run, &group[4..], n + 1))
}
