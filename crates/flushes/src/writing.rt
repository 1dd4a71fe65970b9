// A flush: the buffered postings written as one partition of level 0 into one free block.
ghost use Rattle.std.specs.Prelude.{true, [], ◌∷◌, ◌++◌, map, ◌≡◌, ◌%◌, ◌≤◌, ◌<◌, leb, length, replicate};
ghost use Rattle.std.proofs.lemmas.List.Edits.{sets};
ghost use Rattle.lists.specs.Lists.{every, up_to};
ghost use Rattle.words.specs.Words.{words, bytes};
ghost use Rattle.postings.specs.Order.{ordered};
ghost use Rattle.postings.specs.Sums.{under};
ghost use Rattle.postings.specs.Spans.{lowest, highest};
ghost use Rattle.state.specs.Views.{buffered, finished, partitions_of};
ghost use Rattle.card.specs.Blocks.{is_free};
ghost use Rattle.card.specs.Cursors.{InCard};
ghost use Rattle.blocks.specs.Writes.{store};
ghost use Rattle.partitions.specs.Layout.{term_count, word_of, encode, record_for};
ghost use Rattle.partitions.specs.Formed.{in_range};

use blocks::put_block_word;
use postings::pack;
use spans::Span;
use state::{Buffer, MOST_BUFFERED, Partition, Partitions};

// Counts the buffered postings by identifier, packs them as words, and tells how many identifiers they have.
fn tally(b: Buffer, counts: &mut [u16], content: &mut [u32]) -> u16
    requires { (b.used ≤ 128) × (every (λ p. leb p.id 1023) (buffered b) ≡ true) × (every (λ p. in_range p.count) (buffered b) ≡ true)
        × (counts.old ≡ replicate 1024 0) × (length content.old ≡ 128) }
    ensures { (result ≡ term_count (buffered b)) × (counts.new ≡ map (λ i. length (under i (buffered b))) (up_to 1024))
        × (content.new ≡ sets content.old 0 (map word_of (buffered b))) }
{
    let mut terms: u16 = 0;
    for i in 0..b.used as usize {
        let p = b.postings[i];
        content[i] = pack(p.count, p.window);
        let id = p.id as usize;
        let count = counts[id];
        if count == 0 {
            terms += 1;
        }
        counts[id] = count + 1;
    }
    terms
}

// The lowest and the highest buffered window.
fn span_of(b: Buffer) -> Span
    requires { b.used ≤ 128 }
    ensures { (result.lowest ≡ lowest (buffered b)) × (result.highest ≡ highest (buffered b)) }
{
    let mut span = Span {
        lowest: 65535,
        highest: 0,
    };
    for p in b.buffered() {
        span = spans::widened(span, p.window);
    }
    span
}

// Writes the buffered postings, whose span is told, as a partition into a free block, and tells how many identifiers they have. With its link that is a chain of
// one, which holds nothing.
fn write_counted(card: &mut [u8], block: u16, b: Buffer, span: Span) -> u16
    requires { (length card.old % 4096 ≡ 0) × InCard (words card.old) block × (is_free (words card.old) block ≡ true) × (b.used ≤ 128)
        × (ordered (buffered b) ≡ true) × (every (λ p. in_range p.count) (buffered b) ≡ true) × (every (λ p. leb p.id 1023) (buffered b) ≡ true)
        × (span.lowest ≡ lowest (buffered b)) × (span.highest ≡ highest (buffered b)) }
    ensures { (result ≡ term_count (buffered b)) × (card.new ≡ bytes (store (words card.old) (block ∷ []) (encode 0 (buffered b)))) }
{
    put_block_word(card, block, card::LINK, card::LAST);
    let mut counts: [u16; 1024] = [0; 1024];
    let mut content: [u32; MOST_BUFFERED] = [0; MOST_BUFFERED];
    let terms = tally(b, &mut counts, &mut content);
    outputs::write_header(
        card,
        block,
        1,
        0,
        terms,
        b.used as u32,
        span.lowest,
        span.highest,
    );
    outputs::write_entries(card, block, 1, &counts);
    let n = b.used as usize;
    outputs::write_words(card, block, 1, 8 + 3 * terms as u32, &content[0..n]);
    terms
}

// Writes the buffered postings, and lists the partition as the youngest.
pub fn flush(card: &mut [u8], block: u16, b: Buffer, ps: Partitions) -> Partitions
    requires { (length card.old % 4096 ≡ 0) × InCard (words card.old) block × (is_free (words card.old) block ≡ true) × (b.used ≤ 128)
        × (ordered (buffered b) ≡ true) × (every (λ p. in_range p.count) (buffered b) ≡ true) × (every (λ p. leb p.id 1023) (buffered b) ≡ true)
        × (ps.used ≤ 51) × (length (finished ps) < 51) × (length ps.records ≡ 51 → ps ≡ partitions_of (finished ps)) }
    ensures { (result ≡ partitions_of (finished ps ++ (record_for block 0 (buffered b) ∷ [])))
        × (card.new ≡ bytes (store (words card.old) (block ∷ []) (encode 0 (buffered b)))) }
{
    let span = span_of(b);
    let terms = write_counted(card, block, b, span);
    let p = Partition {
        first: block,
        level: 0,
        length: 32 + 12 * terms as u32 + 4 * b.used as u32,
        lowest: span.lowest,
        highest: span.highest,
    };
    levels::records::append(ps, p)
}
