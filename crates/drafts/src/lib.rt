// The output of a merge in progress, judged against what the inputs give so far.
#![tactic(auto)]

ghost use Rattle.std.specs.Prelude.{true, ◌≡◌, ◌+◌, ◌*◌, ◌≤◌, ◌<◌, length, take, drop};
ghost use Rattle.lists.specs.All.{AllOf};
ghost use Rattle.words.specs.Words.{words as words_of};
ghost use Rattle.postings.specs.Merge.{nonzero, pairs as pairs_of};
ghost use Rattle.state.specs.Views.{finished};
ghost use Rattle.card.specs.Cursors.{Chained};
ghost use Rattle.card.specs.Marks.{unmarked};
ghost use Rattle.partitions.specs.Reading.{in_partitions};
ghost use Rattle.partitions.specs.Formed.{chains_of};
ghost use Rattle.partitions.specs.Terms.{Readable};
ghost use Rattle.inputs.specs.Judging.{inputs_formed};
ghost use Rattle.inputs.specs.Ahead.{batched};
ghost use Rattle.drafts.specs.Drafted.{AllChained, holds_draft, stands_apart};

use card::Marks;
use inputs::Batch;
use state::Partitions;

// How many postings an output in progress should hold, and the pairs that come next.
#[derive(Clone, Copy)]
pub struct Draft {
    pub written: u32,
    pub batch: Batch,
}

// A draft, and whether the output holds it. No Option of a draft: `read_draft` tells it of an output that does not hold it too.
#[derive(Clone, Copy)]
pub struct Reading {
    pub held: bool,
    pub draft: Draft,
}

// Whether the blocks of partitions are apart from marks, and from each other.
fn apart_from(card: &[u8], marks: Marks, ps: Partitions) -> bool
    requires { (ps.used ≤ 51) × AllChained (words_of card.now) (finished ps) }
    ensures { result ≡ unmarked marks (chains_of (words_of card.now) (finished ps)) }
{
    let mut m = marks;
    for p in ps.finished() {
        let Some(k) = card::mark_chain(card, m, p.first, partitions::blocks_for(p.length)) else {
            return false;
        };
        m = k;
    }
    true
}

// Whether none of the n blocks from `first` on stands twice or in a partition.
pub fn stands_apart(card: &[u8], first: u16, n: u32, ps: Partitions) -> bool
    requires { (ps.used ≤ 51) × AllChained (words_of card.now) (finished ps) × Chained (words_of card.now) first n }
    ensures { result ≡ stands_apart (words_of card.now) first n (finished ps) }
{
    let Some(k) = card::mark_chain(card, card::no_marks(), first, n) else {
        return false;
    };
    apart_from(card, k, ps)
}

// The pairs that a merge takes first.
pub fn first_batch(card: &[u8], ps: Partitions) -> Batch
    requires { (ps.used ≤ 8) × AllOf (Readable (words_of card.now)) (finished ps) × (inputs_formed (words_of card.now) (finished ps) ≡ true) }
    ensures { (batched result ≡ nonzero (take 16 (pairs_of (in_partitions (words_of card.now) (finished ps)))))
        × (result.taken ≡ length (take 16 (pairs_of (in_partitions (words_of card.now) (finished ps)))))
        × (result.used ≤ 16) }
{
    let n = ps.used as usize;
    let mut heads: [u32; 80] = [0; 80];
    let top = inputs::open_inputs(card, ps, &mut heads);
    inputs::sixteen(card, &mut heads, n, top)
}

// Reads the output in the n blocks from `first` on, of which `front` words are for header and entries, after `passed` pairs of the inputs.
pub fn read_draft(
    card: &[u8],
    ps: Partitions,
    first: u16,
    n: u32,
    front: u32,
    passed: u32,
) -> Reading
    requires { (ps.used ≤ 8) × AllOf (Readable (words_of card.now)) (finished ps) × (inputs_formed (words_of card.now) (finished ps) ≡ true)
        × Chained (words_of card.now) first n × (1023 * n < 4294967296)
        × (front + length (nonzero (pairs_of (in_partitions (words_of card.now) (finished ps)))) ≤ 1023 * n) }
    ensures { (result.held ≡ holds_draft (words_of card.now) first n front passed (pairs_of (in_partitions (words_of card.now) (finished ps))))
        × (result.draft.written ≡ length (nonzero (take passed (pairs_of (in_partitions (words_of card.now) (finished ps))))))
        × (batched result.draft.batch ≡ nonzero (take 16 (drop passed (pairs_of (in_partitions (words_of card.now) (finished ps))))))
        × (result.draft.batch.taken ≡ length (take 16 (drop passed (pairs_of (in_partitions (words_of card.now) (finished ps))))))
        × (result.draft.batch.used ≤ 16) }
{
    let k = ps.used as usize;
    let head = card::seek(card, first, n, 0, front);
    let space = outputs::rest_free(card, head);
    let room = card::CONTENT * n - front;
    let out = card::seek(card, first, n, front, room);
    let mut heads: [u32; 80] = [0; 80];
    let top = inputs::open_inputs(card, ps, &mut heads);
    let p = inputs::pass(card, &mut heads, k, top, passed, out);
    let rest = outputs::rest_free(card, p.out);
    let b = inputs::sixteen(card, &mut heads, k, p.top);
    Reading {
        held: space & p.same & rest,
        draft: Draft {
            written: room - p.out.left,
            batch: b,
        },
    }
}
