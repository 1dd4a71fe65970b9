// Refusal 3 of a step for the output in progress, and what comes next where it is in order.
ghost use Rattle.std.specs.Prelude.{true, false, MatchOption, ◌≡◌, ◌*◌, ◌≤◌, length};
ghost use Rattle.words.specs.Words.{words as words_of};
ghost use Rattle.state.specs.Views.{finished};
ghost use Rattle.drafts.specs.Drafted.{AllChained};
ghost use Rattle.card.specs.Chains.{blocks_for};
ghost use Rattle.inputs.specs.Judging.{inputs_formed};
ghost use Rattle.plans.specs.Merging.{inputs, taking};
ghost use Rattle.plans.specs.Step.{output_rule};
ghost use Rattle.plans.specs.Acting.{stands_on, standing, Judged, Acts, length_from};

use drafts::Draft;
use inputs::{Batch, Totals};
use postings::{Posting, STEP_PAIRS};
use state::{MergeJob, Partitions, State};

// Of an output of no blocks: nothing written, and sixteen pairs that come next and have no sum to write, or all that are left.
const NOTHING: Draft = Draft {
    written: 0,
    batch: Batch {
        pairs: [Posting::NONE; STEP_PAIRS],
        used: 0,
        taken: 16,
    },
};

// Whether the blocks of the output in progress are a chain, apart from those of finished partitions.
pub fn stands(card: &[u8], blocks: u32, job: MergeJob, ps: Partitions) -> bool
    requires { (length (words_of card.now) ≡ 1024 * blocks) × (blocks ≤ 4096) × (ps.used ≤ 51) × AllChained (words_of card.now) (finished ps) }
    ensures { result ≡ stands_on (words_of card.now) blocks job (finished ps) }
{
    let n = partitions::blocks_for(job.length);
    if (job.steps == 0) | (n == 0) {
        return true;
    }
    if !card::chain_ok(card, blocks, job.first, n) {
        return false;
    }
    drafts::stands_apart(card, job.first, n, ps)
}

// What comes next where the output in progress is what the inputs give so far, with pairs left to take. One of no blocks has nothing to read.
pub fn output_ok(s: State, card: &[u8], is: Partitions, t: Totals) -> Option<Draft>
    requires { Judged (words_of card.now) s is t × (inputs_formed (words_of card.now) (inputs s) ≡ true) × (1 ≤ s.merge.steps) × (standing (words_of card.now) s ≡ true) }
    ensures { MatchOption result (output_rule (words_of card.now) s (taking (words_of card.now) s) ≡ false)
        (λ d. (output_rule (words_of card.now) s (taking (words_of card.now) s) ≡ true)
        × Acts (words_of card.now) s (record { first = s.merge.first; blocks = blocks_for (length_from t); written = d.written; taken = s.taken }) d.batch) }
{
    let job = s.merge;
    if t.pairs as u64 <= 16 * job.steps as u64 {
        return None;
    }
    let length = super::output_length(t);
    if job.length != length {
        return None;
    }
    let n = partitions::blocks_for(length);
    if n == 0 {
        return (job.first == 65534).then_some(NOTHING);
    }
    let r = drafts::read_draft(
        card,
        is,
        job.first,
        n,
        8 + 3 * t.terms as u32,
        16 * job.steps,
    );
    r.held.then_some(r.draft)
}
