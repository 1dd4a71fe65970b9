// Free blocks found in the order of taking, words of a block written, blocks freed.
#![tactic(auto)]

ghost use Rattle.std.specs.Prelude.{true, false, [], ◌∷◌, ◌≡◌, ◌+◌, ◌*◌, ◌%◌, ◌≤◌, ◌<◌, leb, length, get_or, set, slice_get};
ghost use Rattle.lists.specs.Lists.{different};
ghost use Rattle.words.specs.Words.{words as words_of};
ghost use Rattle.card.specs.Blocks.{is_free, after_taken, free_blocks};
ghost use Rattle.card.specs.Chains.{chain};
ghost use Rattle.blocks.specs.Writes.{release};
ghost use Rattle.card.specs.Cursors.{Chained};

// Whether a block is free: all of its words, the link too, are all ones.
pub fn is_free(card: &[u8], block: u16) -> bool
    requires { 1024 * block + 1023 < length (words_of card.now) }
    ensures { result ≡ is_free (words_of card.now) block }
{
    (0..1024).all(|at| card::block_word(card, block, at) == u32::MAX)
}

// The block in place i, from 0 on, of the order of taking: upward after the block last taken, round the end.
fn tried(blocks: u32, taken: u16, i: u32) -> u16
    requires { (taken < blocks) × (blocks ≤ 4096) × (i < blocks) }
    ensures { (result < blocks) × (result ≡ get_or (after_taken blocks taken) i 0) }
{
    let block = taken as u32 + 1 + i;
    if block < blocks {
        block as u16
    } else {
        (block - blocks) as u16
    }
}

// The free block that is taken next, if there is one.
pub fn next_free(card: &[u8], blocks: u32, taken: u16) -> Option<u16>
    requires { (length (words_of card.now) ≡ 1024 * blocks) × (blocks ≤ 4096) × (taken < blocks) }
    ensures { result ≡ slice_get (free_blocks (words_of card.now) blocks taken) 0 }
{
    for i in 0..blocks {
        let block = tried(blocks, taken, i);
        if is_free(card, block) {
            return Some(block);
        }
    }
    None
}

// Whether so many blocks are free; the blocks are counted in the order of taking, as the free ones mostly lie ahead.
pub fn enough_free(card: &[u8], blocks: u32, taken: u16, wanted: u32) -> bool
    requires { (length (words_of card.now) ≡ 1024 * blocks) × (blocks ≤ 4096) × (taken < blocks) }
    ensures { result ≡ leb wanted (length (free_blocks (words_of card.now) blocks taken)) }
{
    let mut missing = wanted;
    for i in 0..blocks {
        if missing == 0 {
            break;
        }
        if is_free(card, tried(blocks, taken, i)) {
            missing -= 1;
        }
    }
    missing == 0
}

// One word of a block changes. A card has whole words, so its words say all of it.
pub fn put_block_word(card: &mut [u8], block: u16, at: u16, value: u32)
    requires { (length card.old % 4 ≡ 0) × (1024 * block + at < length (words_of card.old)) }
    ensures { words_of card.new ≡ set (words_of card.old) (1024 * block + at) value }
{
    words::put_word(card, card::WORDS * block as usize + at as usize, value);
}

// Frees a block: each of its words goes to all ones.
pub fn release_block(card: &mut [u8], block: u16)
    requires { (length card.old % 4 ≡ 0) × (1024 * block + 1023 < length (words_of card.old)) }
    ensures { words_of card.new ≡ release (words_of card.old) (block ∷ []) }
{
    for i in 0..1024 {
        put_block_word(card, block, i, u32::MAX);
    }
}

// Frees the n blocks from `first` on. A link is read before its block is freed.
pub fn release_chain(card: &mut [u8], first: u16, n: u32)
    requires { (length card.old % 4 ≡ 0) × Chained (words_of card.old) first n × (different (chain (words_of card.old) first n) ≡ true) }
    ensures { words_of card.new ≡ release (words_of card.old) (chain (words_of card.old) first n) }
{
    let mut next = first as u32;
    for _ in 0..n {
        let freed = next as u16;
        next = card::block_word(card, freed, card::LINK);
        release_block(card, freed);
    }
}
