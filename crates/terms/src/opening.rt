// Opening an identifier's lists: each is found once, and its head is put to the identifier's heads.
ghost use Rattle.std.specs.Prelude.{◌≡◌, true, map, ◌+◌, ◌*◌, ◌≤◌, length};
ghost use Rattle.lists.specs.All.{AllOf};
ghost use Rattle.lists.specs.Lists.{every};
ghost use Rattle.words.specs.Words.{words as words_of};
ghost use Rattle.postings.specs.Order.{ordered};
ghost use Rattle.postings.specs.Sums.{under};
ghost use Rattle.state.specs.Views.{buffered, finished};
ghost use Rattle.partitions.specs.Reading.{postings_of};
ghost use Rattle.partitions.specs.Formed.{in_range};
ghost use Rattle.partitions.specs.Terms.{Readable};
ghost use Rattle.kway.specs.Parts.{parts};
ghost use Rattle.heads.specs.Heads.{Kept};
ghost use Rattle.terms.specs.Opening.{lower as lower_of, listed, Packed, Opens};

use state::{Buffer, Partitions, State};

// Packs the buffer's postings as words, in the buffer's order: the run.
pub fn pack_run(b: Buffer, run: &mut [u32])
    requires { (b.used ≤ 128) × (length run.old ≡ 128) × (every (λ p. in_range p.count) (buffered b) ≡ true) }
    ensures { Packed b run.new }
{
    for (i, p) in b.buffered().iter().enumerate() {
        run[i] = postings::pack(p.count, p.window);
    }
}

// The first place of the buffer with an identifier of at least `id`.
fn lower(b: Buffer, id: u32) -> u16
    requires { b.used ≤ 128 }
    ensures { result ≡ lower_of id (buffered b) }
{
    let lower = b.buffered().iter().take_while(|p| (p.id as u32) < id);
    lower.count() as u16
}

// Puts the head of the buffer's postings of an identifier, which stand together.
fn open_run(card: &[u8], run: &[u32], head: &mut [u32], b: Buffer, id: u16)
    requires { (length head.old ≡ 4) × (b.used ≤ 128) × (ordered (buffered b) ≡ true)
        × (every (λ p. in_range p.count) (buffered b) ≡ true) × Packed b run.now }
    ensures { Kept (words_of card.now) run.now head.new
        × (listed (words_of card.now) run.now id head.new ≡ under id (buffered b)) }
{
    let at = lower(b, id as u32);
    let end = lower(b, id as u32 + 1);
    heads::put(card, run, head, 4194304 + at as u32, (end - at) as u32);
}

// Puts the head of the identifier's list in each finished partition.
fn open_lists(card: &[u8], run: &[u32], heads: &mut [u32], ps: Partitions, id: u16)
    requires { (ps.used ≤ 51) × (length heads.old ≡ 4 * ps.used + 4) × AllOf (Readable (words_of card.now)) (finished ps) }
    ensures { (length heads.new ≡ length heads.old)
        × AllOf (Kept (words_of card.now) run.now) (parts 4 ps.used heads.new)
        × (map (listed (words_of card.now) run.now id) (parts 4 ps.used heads.new)
        ≡ map (λ p. under id (postings_of (words_of card.now) p)) (finished ps)) }
{
    for (i, p) in ps.finished().iter().enumerate() {
        let c = partitions::find_list(card, *p, id);
        let place = 1024 * c.block as u32 + c.word as u32;
        heads::put(card, run, &mut heads[4 * i..4 * i + 4], place, c.left);
    }
}

// Puts the heads of an identifier: its list in each finished partition, and its part of the run.
pub fn open_heads(card: &[u8], run: &[u32], heads: &mut [u32], s: State, id: u16)
    requires { (s.partitions.used ≤ 51) × (length heads.old ≡ 4 * s.partitions.used + 4)
        × AllOf (Readable (words_of card.now)) (finished s.partitions)
        × (s.buffer.used ≤ 128) × (ordered (buffered s.buffer) ≡ true)
        × (every (λ p. in_range p.count) (buffered s.buffer) ≡ true) × Packed s.buffer run.now }
    ensures { Opens (words_of card.now) run.now s id heads.new }
{
    open_lists(card, run, heads, s.partitions, id);
    let at = 4 * s.partitions.used as usize;
    let end = at + 4;
    open_run(card, run, &mut heads[at..end], s.buffer, id);
}
