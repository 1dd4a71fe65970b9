// A partition written along a chain of blocks: its header, entries and postings; free blocks linked, and a merge's inputs' blocks freed.
#![tactic(auto)]

ghost use Rattle.std.specs.Prelude.{true, [], map, ◌≡◌, ◌+◌, ◌-◌, ◌*◌, ◌%◌, ◌≤◌, ◌<◌, eqb, length, get_or, take};
ghost use Rattle.lists.specs.All.{AllOf};
ghost use Rattle.lists.specs.Lists.{every, different};
ghost use Rattle.words.specs.Words.{words as words_of, all_ones};
ghost use Rattle.state.specs.Views.{finished};
ghost use Rattle.card.specs.Blocks.{free_blocks};
ghost use Rattle.card.specs.Chains.{blocks_for, chain};
ghost use Rattle.card.specs.Cursors.{InCard, Chained, Good, ahead};
ghost use Rattle.blocks.specs.Writes.{store, release};
ghost use Rattle.partitions.specs.Layout.{total_length, header, word_of};
ghost use Rattle.partitions.specs.Formed.{chains_of, in_range};
ghost use Rattle.outputs.specs.Contents.{written, reached, entered};
ghost use Rattle.outputs.specs.Entries.{entries_onward};

use blocks::put_block_word;
use card::{CONTENT, Cursor, LAST, LINK, block_word};
use postings::{Posting, STEP_PAIRS, pack};
use state::Partitions;

// The block that the first `count` words of the content of the n blocks from `first` on reach.
fn block_reached(card: &[u8], first: u16, n: u32, count: u32) -> u16
    requires { (0 < n) × (count ≤ 1023 * n) × Chained (words_of card.now) first n }
    ensures { result ≡ reached (chain (words_of card.now) first n) count }
{
    let mut block = first;
    for _ in 0..count.saturating_sub(1) / CONTENT {
        block = block_word(card, block, LINK) as u16;
    }
    block
}

// The block of word k of a content, of which the words before it reach block `before`.
fn block_of(card: &[u8], before: u16, k: usize) -> u16
    requires { InCard (words_of card.now) before × InCard (words_of card.now) (entered (words_of card.now) before k) }
    ensures { result ≡ entered (words_of card.now) before k }
{
    if 0 < k && k % 1023 == 0 {
        return block_word(card, before, LINK) as u16;
    }
    before
}

// Writes words into the content of the n blocks from `first` on, from word `offset` on.
pub fn write_words(card: &mut [u8], first: u16, n: u32, offset: u32, content: &[u32])
    requires { (length card.old % 4 ≡ 0) × (0 < n) × (offset + length content.now ≤ 1023 * n) × Chained (words_of card.old) first n }
    ensures { words_of card.new ≡ written (words_of card.old) (chain (words_of card.old) first n) offset content.now }
{
    let mut block = block_reached(card, first, n, offset);
    for (i, word) in content.iter().enumerate() {
        let k = offset as usize + i;
        block = block_of(card, block, k);
        put_block_word(card, block, (k % 1023) as u16, *word);
    }
}

// The header, at the beginning of the content of the n blocks from `first` on.
pub fn write_header(
    card: &mut [u8],
    first: u16,
    n: u32,
    level: u16,
    terms: u16,
    count: u32,
    lowest: u16,
    highest: u16,
)
    requires { (length card.old % 4 ≡ 0) × (0 < n) × (total_length terms count < 4294967296) × Chained (words_of card.old) first n }
    ensures { words_of card.new ≡ written (words_of card.old) (chain (words_of card.old) first n) 0 (header level terms count lowest highest) }
{
    let t = terms as u32;
    let fields = [
        t,
        count,
        32,
        32 + 12 * t,
        32 + 12 * t + 4 * count,
        level as u32,
        lowest as u32,
        highest as u32,
    ];
    write_words(card, first, n, 0, &fields);
}

// The entries, from how many postings each identifier has.
pub fn write_entries(card: &mut [u8], first: u16, n: u32, counts: &[u16])
    requires { (length card.old % 4 ≡ 0) × (0 < n) × (8 + length (entries_onward 0 0 counts.now) ≤ 1023 * n) × Chained (words_of card.old) first n
        × (length counts.now ≡ 1024) }
    ensures { words_of card.new ≡ written (words_of card.old) (chain (words_of card.old) first n) 8 (entries_onward 0 0 counts.now) }
{
    let mut at: u32 = 8;
    let mut sum: u32 = 0;
    for i in 0..1024 {
        let count = counts[i] as u32;
        if count != 0 {
            let entry = [i as u32, count, sum];
            write_words(card, first, n, at, &entry);
            at += 3;
            sum += count;
        }
    }
}

// The words of the first `used` of these postings, from word `offset` of the content of the n blocks from `first` on.
pub fn write_postings(
    card: &mut [u8],
    first: u16,
    n: u32,
    offset: u32,
    used: u16,
    postings: [Posting; STEP_PAIRS],
)
    requires { (length card.old % 4 ≡ 0) × (0 < n) × (used ≤ 16) × (offset + used ≤ 1023 * n) × Chained (words_of card.old) first n
        × (every (λ p. in_range p.count) (take used postings) ≡ true) }
    ensures { words_of card.new ≡ written (words_of card.old) (chain (words_of card.old) first n) offset (map word_of (take used postings)) }
{
    let m = used as usize;
    let mut content: [u32; STEP_PAIRS] = [0; STEP_PAIRS];
    for i in 0..m {
        let p = postings[i];
        content[i] = pack(p.count, p.window);
    }
    write_words(card, first, n, offset, &content[0..m]);
}

// Whether all words that a cursor has still to come are all ones.
pub fn rest_free(card: &[u8], c: Cursor) -> bool
    requires { Good (words_of card.now) c }
    ensures { result ≡ every (eqb all_ones) (ahead (words_of card.now) c) }
{
    let mut at = c;
    // A cursor has no index: it is followed until nothing is to come.
    while 0 < at.left {
        if card::head(card, at) != u32::MAX {
            return false;
        }
        at = card::moved(card, at);
    }
    true
}

// Frees the blocks of partitions.
pub fn release_inputs(card: &mut [u8], ps: Partitions)
    requires { (length card.old % 4 ≡ 0) × (ps.used ≤ 51) × AllOf (λ p. Chained (words_of card.old) p.first (blocks_for p.length)) (finished ps)
        × (different (chains_of (words_of card.old) (finished ps)) ≡ true) }
    ensures { words_of card.new ≡ release (words_of card.old) (chains_of (words_of card.old) (finished ps)) }
{
    for p in ps.finished() {
        blocks::release_chain(card, p.first, partitions::blocks_for(p.length));
    }
}

// The free block that is taken next, where there is one.
fn free_after(card: &[u8], blocks: u32, taken: u16) -> u16
    requires { (length (words_of card.now) ≡ 1024 * blocks) × (blocks ≤ 4096) × (taken < blocks) × (1 ≤ length (free_blocks (words_of card.now) blocks taken)) }
    ensures { result ≡ get_or (free_blocks (words_of card.now) blocks taken) 0 0 }
{
    blocks::next_free(card, blocks, taken).unwrap_or(taken)
}

// The first and the last of blocks that were linked.
#[derive(Clone, Copy)]
pub struct Linked {
    pub first: u16,
    pub last: u16,
}

// Takes the next n free blocks and links each to the next, the last to none. A block that is linked is free no more, so the search for
// the next one goes on from it.
pub fn link_free(card: &mut [u8], blocks: u32, taken: u16, n: u32) -> Linked
    requires { (length card.old % 4 ≡ 0) × (length (words_of card.old) ≡ 1024 * blocks) × (blocks ≤ 4096) × (taken < blocks) × (1 ≤ n)
        × (n ≤ length (free_blocks (words_of card.old) blocks taken)) }
    ensures { (words_of card.new ≡ store (words_of card.old) (take n (free_blocks (words_of card.old) blocks taken)) [])
        × (result.first ≡ get_or (take n (free_blocks (words_of card.old) blocks taken)) 0 0)
        × (result.last ≡ get_or (take n (free_blocks (words_of card.old) blocks taken)) (n - 1) 0) }
{
    let first = free_after(card, blocks, taken);
    let mut last = first;
    for _ in 1..n {
        let next = free_after(card, blocks, last);
        put_block_word(card, last, LINK, next as u32);
        last = next;
    }
    put_block_word(card, last, LINK, LAST);
    Linked { first, last }
}
