// What a step that is not refused writes, and the state that it leaves.
ghost use Rattle.std.specs.Prelude.{true, cond, map, ◌≡◌, suc, ◌+◌, ◌*◌, ◌%◌, ◌≤◌, ◌<◌, leb, length};
ghost use Rattle.lists.specs.Lists.{every};
ghost use Rattle.words.specs.Words.{words as words_of};
ghost use Rattle.state.specs.Views.{finished, partitions_of, no_merge};
ghost use Rattle.state.specs.Levels.{due_levels, replaced};
ghost use Rattle.card.specs.Chains.{chain};
ghost use Rattle.card.specs.Cursors.{Chained};
ghost use Rattle.partitions.specs.Layout.{word_of};
ghost use Rattle.partitions.specs.Formed.{in_range};
ghost use Rattle.inputs.specs.Judging.{Small};
ghost use Rattle.inputs.specs.Ahead.{batched};
ghost use Rattle.outputs.specs.Contents.{written};
ghost use Rattle.outputs.specs.Entries.{entries_onward};
ghost use Rattle.plans.specs.Acting.{Fits, with_front, output_written, length_from, record_from};

use inputs::{Batch, Totals};
use plans::{Output, output_length};
use state::{MergeJob, Partition, Partitions};

// Whether no pair is left after a step that takes so many.
pub fn is_last(t: Totals, steps: u32, taken: u16) -> bool
    ensures { result ≡ leb t.pairs (16 * steps + taken) }
{
    t.pairs as u64 <= 16 * steps as u64 + taken as u64
}

// The sums of a step, after those that were written before.
fn add_batch(card: &mut [u8], o: Output, terms: u16, b: Batch)
    requires { (length card.old % 4 ≡ 0) × (0 < o.blocks) × (o.written ≤ 67108864) × (b.used ≤ 16) × (8 + 3 * terms + o.written + length (batched b) ≤ 1023 * o.blocks)
        × Chained (words_of card.old) o.first o.blocks × (every (λ p. in_range p.count) (batched b) ≡ true) }
    ensures { words_of card.new ≡ written (words_of card.old) (chain (words_of card.old) o.first o.blocks) (8 + 3 * terms + o.written) (map word_of (batched b)) }
{
    let offset = 8 + 3 * terms as u32 + o.written;
    let pairs = b.pairs;
    outputs::write_postings(card, o.first, o.blocks, offset, b.used, pairs);
}

// Header and entries, before the postings.
fn complete(card: &mut [u8], o: Output, level: u16, t: Totals, counts: &[u16])
    requires { (length card.old % 4 ≡ 0) × (0 < o.blocks) × Small t × (8 + length (entries_onward 0 0 counts.now) ≤ 1023 * o.blocks)
        × Chained (words_of card.old) o.first o.blocks × (length counts.now ≡ 1024) }
    ensures { words_of card.new ≡ with_front (words_of card.old) level t counts.now o }
{
    outputs::write_header(
        card, o.first, o.blocks, level, t.terms, t.postings, t.lowest, t.highest,
    );
    outputs::write_entries(card, o.first, o.blocks, counts);
}

// The words of an output that has blocks: with header and entries after the last step.
pub fn put_output(
    card: &mut [u8],
    o: Output,
    b: Batch,
    last: bool,
    level: u16,
    t: Totals,
    counts: &[u16],
)
    requires { (length card.old % 4 ≡ 0) × Fits (words_of card.old) t counts.now o b }
    ensures { words_of card.new ≡ output_written (words_of card.old) last level t counts.now o b }
{
    add_batch(card, o, t.terms, b);
    if last {
        complete(card, o, level, t, counts);
    }
}

// The finished partitions after a step: the last one puts the result in its inputs' place.
pub fn list_after(last: bool, ps: Partitions, t: Totals, o: Output) -> Partitions
    requires { (ps.used ≤ 51) × (length ps.records ≡ 51 → ps ≡ partitions_of (finished ps)) × Small t }
    ensures { result ≡ cond last (partitions_of (replaced (λ (p : Partition). p.level) (due_levels (λ (p : Partition). p.level) (finished ps)) (finished ps) (record_from (finished ps) t o))) ps }
{
    if !last {
        return ps;
    }
    let q = Partition {
        first: o.first,
        level: levels::merging::output_level(ps),
        length: output_length(t),
        lowest: t.lowest,
        highest: t.highest,
    };
    levels::merging::replaced_by(ps, (t.postings != 0).then_some(q))
}

// The record of the merge after a step: none after the last.
pub fn job_after(last: bool, steps: u32, t: Totals, o: Output) -> MergeJob
    requires { Small t × (steps < 4294967295) }
    ensures { result ≡ cond last no_merge (record { first = o.first; length = length_from t; steps = suc steps }) }
{
    if last {
        return MergeJob::NONE;
    }
    MergeJob {
        first: o.first,
        length: output_length(t),
        steps: steps + 1,
    }
}
