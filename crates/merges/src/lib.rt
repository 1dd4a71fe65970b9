// A merge step. It promises its answer, the state and the card as its definition says, whatever it is given.
#![tactic(auto)]

ghost use Rattle.std.specs.Prelude.{true, false, ◌≡◌, ◌%◌, ◌<◌, length};
ghost use Rattle.words.specs.Words.{words as words_of};
ghost use Rattle.merges.specs.Promises.{Steps};
ghost use Rattle.plans.specs.Acting.{Doing, Did, Admitted};
ghost use Rattle.merges.specs.Acted.{Acted};

use answers::Refusal;
use inputs::{Batch, Totals};
use plans::Output;
use state::{BLOCK_BYTES, Partitions, State};
use windows::{After, refuse};

mod writing; // what a step writes, and the state that it leaves

// What a step that is written comes to: whether it is the last, what its inputs come to, and its output.
#[derive(Clone, Copy)]
pub struct Deed {
    pub last: bool,
    pub totals: Totals,
    pub output: Output,
}

// Writes the step, and tells whether it is the last: the output's words, and the inputs' blocks freed after the last. The state is not handed on.
fn finish(
    card: &mut [u8],
    is: Partitions,
    t: Totals,
    counts: &[u16],
    o: Output,
    b: Batch,
    steps: u32,
    level: u16,
) -> bool
    requires { (length card.old % 4 ≡ 0) × Doing (words_of card.old) is t counts.now o b steps level }
    ensures { Did (words_of card.old) is t counts.now o b steps level result card.new }
{
    let last = writing::is_last(t, steps, b.taken);
    if 0 < o.blocks {
        writing::put_output(card, o, b, last, level, t, counts);
    }
    if last {
        outputs::release_inputs(card, is);
    }
    last
}

// Judges the inputs, and writes the step that nothing refuses.
fn act(s: State, card: &mut [u8], is: Partitions, level: u16) -> Result<Deed, Refusal>
    requires { Admitted s card.old is level }
    ensures { Acted s card.old result card.new }
{
    let mut heads: [u32; 80] = [0; 80];
    let mut counts: [u16; 1024] = [0; 1024];
    let Some(t) = inputs::judge(card, is, &mut heads, &mut counts) else {
        return Err(Refusal::Malformed);
    };
    let p = plans::prepare(s, card, is, t)?;
    let last = finish(
        card,
        is,
        t,
        &counts,
        p.output,
        p.batch,
        s.merge.steps,
        level,
    );
    Ok(Deed {
        last,
        totals: t,
        output: p.output,
    })
}

// One step of the merge in progress, or of one that begins.
pub fn step(s: State, card: &mut [u8]) -> After<()>
    ensures { Steps s card.old result card.new }
{
    if let Err(why) = admission::judge_card(rules::state_ok(s), s.lengths, card) {
        return refuse(s, why);
    }
    let ps = s.partitions;
    if !partitions::partitions_ok(card, s.lengths.card / BLOCK_BYTES, ps) {
        return refuse(s, Refusal::Malformed);
    }
    if !plans::judging::stands(card, s.lengths.card / BLOCK_BYTES, s.merge, ps) {
        return refuse(s, Refusal::Malformed);
    }
    let is = levels::merging::inputs_of(ps);
    let d = match act(s, card, is, levels::merging::output_level(ps)) {
        Ok(d) => d,
        Err(why) => return refuse(s, why),
    };
    let list = writing::list_after(d.last, ps, d.totals, d.output);
    let job = writing::job_after(d.last, s.merge.steps, d.totals, d.output);
    windows::done(State {
        partitions: list,
        taken: d.output.taken,
        merge: job,
        ..s
    })
}
