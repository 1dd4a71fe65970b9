// What a merge step is to do, once its inputs are judged: the output in progress judged, or a merge begun, and the pairs that come next.
#![tactic(auto)]

ghost use Rattle.std.specs.Prelude.{true, false, [], ◌≡◌, ◌*◌, ◌%◌, ◌≤◌, ◌<◌, ◌+◌, length, get_or, take};
ghost use Rattle.words.specs.Words.{words as words_of};
ghost use Rattle.state.specs.Views.{blocks as blocks_of};
ghost use Rattle.card.specs.Blocks.{no_block, free_blocks};
ghost use Rattle.blocks.specs.Writes.{store};
ghost use Rattle.inputs.specs.Judging.{inputs_formed, Small};
ghost use Rattle.plans.specs.Merging.{inputs as inputs_of};
ghost use Rattle.plans.specs.Step.{last_of};
ghost use Rattle.plans.specs.Acting.{standing, Judged, Planned, length_from};
ghost use Rattle.outputs.specs.Contents.{written};

use answers::Refusal;
use inputs::{Batch, Totals};
use state::{BLOCK_BYTES, Partitions, State};

pub mod judging; // the output in progress

// The output as a step finds it: its blocks, how many postings it has, and the block last taken.
#[derive(Clone, Copy)]
pub struct Output {
    pub first: u16,
    pub blocks: u32,
    pub written: u32,
    pub taken: u16,
}

// What a step is to do: the output that it writes to, and the pairs that it takes.
#[derive(Clone, Copy)]
pub struct Plan {
    pub output: Output,
    pub batch: Batch,
}

// The length of the output.
pub fn output_length(t: Totals) -> u32
    requires { Small t }
    ensures { result ≡ length_from t }
{
    if t.postings == 0 {
        return 0;
    }
    32 + 12 * t.terms as u32 + 4 * t.postings
}

// The free blocks that an output takes, linked; none for an empty one.
fn take_blocks(card: &mut [u8], blocks: u32, taken: u16, n: u32) -> Output
    requires { (length card.old % 4 ≡ 0) × (length (words_of card.old) ≡ 1024 * blocks) × (blocks ≤ 4096) × (taken < blocks)
        × (n ≤ length (free_blocks (words_of card.old) blocks taken)) }
    ensures { (words_of card.new ≡ store (words_of card.old) (take n (free_blocks (words_of card.old) blocks taken)) [])
        × (result.first ≡ get_or (take n (free_blocks (words_of card.old) blocks taken)) 0 no_block)
        × (result.blocks ≡ n)
        × (result.written ≡ 0)
        × (result.taken ≡ last_of taken (take n (free_blocks (words_of card.old) blocks taken))) }
{
    if n == 0 {
        return Output {
            first: 65534,
            blocks: 0,
            written: 0,
            taken,
        };
    }
    let l = outputs::link_free(card, blocks, taken, n);
    Output {
        first: l.first,
        blocks: n,
        written: 0,
        taken: l.last,
    }
}

// A step with no merge in progress begins one.
fn begin(s: State, card: &mut [u8], is: Partitions, t: Totals) -> Result<Plan, Refusal>
    requires { (length card.old % 4 ≡ 0) × Judged (words_of card.old) s is t × (inputs_formed (words_of card.old) (inputs_of s) ≡ true)
        × (s.taken < blocks_of s) × (s.merge.steps ≡ 0) }
    ensures { Planned s is t card.old result card.new }
{
    let blocks = s.lengths.card / BLOCK_BYTES;
    let n = partitions::blocks_for(output_length(t));
    if !blocks::enough_free(card, blocks, s.taken, n) {
        return Err(Refusal::TooFewFree);
    }
    if is.used == 0 {
        return Err(Refusal::NothingDue);
    }
    let b = drafts::first_batch(card, is);
    let o = take_blocks(card, blocks, s.taken, n);
    Ok(Plan {
        output: o,
        batch: b,
    })
}

// A step of the merge in progress.
fn go_on(s: State, card: &[u8], is: Partitions, t: Totals) -> Result<Plan, Refusal>
    requires { Judged (words_of card.now) s is t × (inputs_formed (words_of card.now) (inputs_of s) ≡ true) × (1 ≤ s.merge.steps) × (standing (words_of card.now) s ≡ true) }
    ensures { Planned s is t card.now result card.now }
{
    let Some(d) = judging::output_ok(s, card, is, t) else {
        return Err(Refusal::Malformed);
    };
    Ok(Plan {
        output: Output {
            first: s.merge.first,
            blocks: partitions::blocks_for(output_length(t)),
            written: d.written,
            taken: s.taken,
        },
        batch: d.batch,
    })
}

// What a step whose inputs are well formed is to do.
pub fn prepare(s: State, card: &mut [u8], is: Partitions, t: Totals) -> Result<Plan, Refusal>
    requires { (length card.old % 4 ≡ 0) × Judged (words_of card.old) s is t × (inputs_formed (words_of card.old) (inputs_of s) ≡ true) × (s.taken < blocks_of s)
        × (standing (words_of card.old) s ≡ true) }
    ensures { Planned s is t card.old result card.new }
{
    if s.merge.steps == 0 {
        return begin(s, card, is, t);
    }
    go_on(s, card, is, t)
}
