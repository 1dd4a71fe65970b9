// The flush: judged first, and then written. It promises its answer, the state and the card as its definition says, whatever it is given.
#![tactic(auto)]

ghost use Rattle.std.specs.Prelude.{true, ◌≡◌, ◌≤◌, ◌<◌, length};
ghost use Rattle.lists.specs.Lists.{empty, total_by};
ghost use Rattle.words.specs.Words.{words as words_of, bytes};
ghost use Rattle.state.specs.Views.{buffered, finished};
ghost use Rattle.state.specs.Rules.{state_rule};
ghost use Rattle.card.specs.Chains.{blocks_for};
ghost use Rattle.flushes.specs.Flush.{flushed_to, flushed_card, Flushes};
ghost use Rattle.flushes.specs.Targets.{Aimed, Chosen, Judged};

use answers::Refusal;
use state::{BLOCK_BYTES, Buffer, Partition, Partitions, State};
use windows::After;

pub mod writing; // the buffered postings as one partition of level 0

// The blocks of finished partitions.
pub fn finished_blocks(p: Partitions) -> u64
    requires { p.used ≤ 51 }
    ensures { (result ≤ 219043332045) × (result ≡ total_by (λ q. blocks_for q.length) (finished p)) }
{
    let mut total: u64 = 0;
    for q in p.finished() {
        total += partitions::blocks_for(q.length) as u64;
    }
    total
}

// Is nothing buffered?
fn is_empty(b: Buffer) -> bool
    requires { b.used ≤ 128 }
    ensures { result ≡ empty (buffered b) }
{
    b.used == 0
}

// Judges the flush of a call that is admitted, where one is wanted, and finds the block that it takes: none where there is nothing to write.
pub fn target_of(s: State, card: &[u8], wanted: bool) -> Result<Option<u16>, Refusal>
    requires { (state_rule s ≡ true) × (length card.now ≡ s.lengths.card) }
    ensures { Aimed wanted s card.now result }
{
    if !wanted | is_empty(s.buffer) {
        return Ok(None);
    }
    if levels::of_level(s.partitions, 0) >= 16 {
        return Err(Refusal::LevelFull);
    }
    let blocks = s.lengths.card / BLOCK_BYTES;
    if 2 * finished_blocks(s.partitions) + 2 > blocks as u64 {
        return Err(Refusal::HalfFull);
    }
    match blocks::next_free(card, blocks, s.taken) {
        Some(b) => Ok(Some(b)),
        None => Err(Refusal::TooFewFree),
    }
}

// Judges a flush that stands alone.
pub fn judge_flush(s: State, card: &[u8]) -> Result<Option<u16>, Refusal>
    ensures { Judged s card.now result }
{
    admission::judge_card(rules::state_ok(s), s.lengths, card)?;
    target_of(s, card, true)
}

// Writes the buffer to the block that a flush takes. The buffer is empty then, and the partition the youngest.
pub fn flush_to(s: State, card: &mut [u8], block: u16) -> State
    requires { (state_rule s ≡ true) × (length card.old ≡ s.lengths.card) × Chosen s (words_of card.old) block }
    ensures { (result ≡ flushed_to s block) × (card.new ≡ bytes (flushed_card s (words_of card.old) block)) }
{
    let list = writing::flush(card, block, s.buffer, s.partitions);
    State {
        buffer: Buffer::new(),
        partitions: list,
        taken: block,
        ..s
    }
}

// The buffer is written as one partition; an empty one writes nothing.
pub fn flush(s: State, card: &mut [u8]) -> After<()>
    ensures { Flushes s card.old result card.new }
{
    match judge_flush(s, card) {
        Err(why) => windows::refuse(s, why),
        Ok(Some(b)) => windows::done(flush_to(s, card, b)),
        Ok(None) => windows::done(s),
    }
}
