// The card as it is read: blocks, links, chains, cursors. A block's words begin at 1,024 times its number; the last one is its link.
#![tactic(auto)]

ghost use Rattle.std.specs.Prelude.{true, false, ◌||◌, ◌≡◌, ℕ, ◌+◌, ◌*◌, ◌%◌, ◌≤◌, ◌<◌, eqb, length, get_or, take, drop, MatchOption};
ghost use Rattle.lists.specs.Lists.{elem};
ghost use Rattle.words.specs.Words.{words as words_of};
ghost use Rattle.card.specs.Blocks.{link};
ghost use Rattle.card.specs.Chains.{chain, chain_rule, content};
ghost use Rattle.card.specs.Cursors.{InCard, Chained, ahead, Good, head_of, moved_of};
ghost use Rattle.card.specs.Marks.{marked, unmarked, Joins};

// Words of a block.
pub const WORDS: usize = 1024;

// How many of them are content.
pub const CONTENT: u32 = 1023;

// The place of the link, after the content.
pub const LINK: u16 = 1023;

// The link of a last block.
pub const LAST: u32 = 65534;

// A place in the content of a chain: a word of a block, and how many words are still to come from there on.
#[derive(Clone, Copy)]
pub struct Cursor {
    pub block: u16,
    pub word: u16,
    pub left: u32,
}

// A word of a block.
pub fn block_word(card: &[u8], block: u16, at: u16) -> u32
    requires { 1024 * block + at < length (words_of card.now) }
    ensures { result ≡ get_or (words_of card.now) (1024 * block + at) 0 }
{
    words::word_at(card, WORDS * block as usize + at as usize)
}

// The block that a block names as the next.
fn next_block(card: &[u8], block: u16) -> u16
    requires { InCard (words_of card.now) block × InCard (words_of card.now) (link (words_of card.now) block) }
    ensures { result ≡ link (words_of card.now) block }
{
    block_word(card, block, LINK) as u16
}

// The first word to come.
pub fn head(card: &[u8], c: Cursor) -> u32
    requires { (0 < c.left) × Good (words_of card.now) c }
    ensures { result ≡ head_of (words_of card.now) c }
{
    block_word(card, c.block, c.word)
}

// The cursor past its first word. The last link of a chain names no block, so a link is followed only to a word that is to come.
pub fn moved(card: &[u8], c: Cursor) -> Cursor
    requires { (0 < c.left) × Good (words_of card.now) c }
    ensures { result ≡ moved_of (words_of card.now) c }
{
    if c.word == 1022 && 1 < c.left {
        Cursor {
            block: next_block(card, c.block),
            word: 0,
            left: c.left - 1,
        }
    } else {
        Cursor {
            word: c.word + 1,
            left: c.left - 1,
            ..c
        }
    }
}

// The cursor at word `offset` of the content of the chain of n blocks from `first` on, with `left` words to come.
pub fn seek(card: &[u8], first: u16, n: u32, offset: u32, left: u32) -> Cursor
    requires { (offset + left ≤ 1023 * n) × Chained (words_of card.now) first n }
    ensures { (ahead (words_of card.now) result ≡ take left (drop offset (content (words_of card.now) (chain (words_of card.now) first n))))
        × Good (words_of card.now) result }
{
    // The last link names no block, so the end of the whole content is a place past the last block's.
    let passed = (offset / CONTENT).min(n.saturating_sub(1));
    let mut block = first;
    for _ in 0..passed {
        block = next_block(card, block);
    }
    Cursor {
        block,
        word: (offset - CONTENT * passed) as u16,
        left,
    }
}

// Whether the n blocks from `first` on are a chain: at least one, each on the card, and the last one names no next block.
pub fn chain_ok(card: &[u8], blocks: u32, first: u16, n: u32) -> bool
    requires { (length (words_of card.now) ≡ 1024 * blocks) × (blocks ≤ 4096) }
    ensures { result ≡ chain_rule (words_of card.now) blocks first n }
{
    let mut next = first as u32;
    for _ in 0..n {
        if blocks <= next {
            return false;
        }
        next = block_word(card, next as u16, LINK);
    }
    0 < n && next == LAST
}

// A mark for each block that a card can have.
#[derive(Clone, Copy)]
pub struct Marks {
    pub bits: [u64; 64],
}

// No block is marked.
pub fn no_marks() -> Marks
    ensures { (b : ℕ) → marked result b ≡ false }
{
    Marks { bits: [0; 64] }
}

// A block's bit is bit block % 64 of word block / 64.
fn is_marked(m: Marks, block: u16) -> bool
    requires { block < 4096 }
    ensures { result ≡ marked m block }
{
    let i = block as usize / 64;
    m.bits[i] >> (block as u64 % 64) & 1 == 1
}

// Sets a block's bit.
fn mark(m: Marks, block: u16) -> Marks
    requires { block < 4096 }
    ensures { (b : ℕ) → marked result b ≡ (eqb block b || marked m b) }
{
    let i = block as usize / 64;
    let mut r = m;
    r.bits[i] = r.bits[i] | 1 << (block as u64 % 64);
    r
}

// Marks the n blocks from `first` on, if they are all different and none of them was marked. Marks that are handed on from chain to chain tell whether a
// block stands in two places.
pub fn mark_chain(card: &[u8], m: Marks, first: u16, n: u32) -> Option<Marks>
    requires { Chained (words_of card.now) first n }
    ensures { MatchOption result (unmarked m (chain (words_of card.now) first n) ≡ false) (λ r. Joins m (chain (words_of card.now) first n) r) }
{
    let mut marks = m;
    let mut next = first as u32;
    for _ in 0..n {
        let block = next as u16;
        if is_marked(marks, block) {
            return None;
        }
        marks = mark(marks, block);
        next = block_word(card, block, LINK);
    }
    Some(marks)
}
