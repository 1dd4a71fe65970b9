// Partitions on the card: their layout, and what is read of them.
#![tactic(auto)]

ghost use Rattle.std.specs.Prelude.{true, ◌≡◌, map, ◌∷◌, ◌+◌, ◌*◌, ◌≤◌, ◌<◌, length};
ghost use Rattle.lists.specs.Lists.{every};
ghost use Rattle.words.specs.Words.{words as words_of};
ghost use Rattle.postings.specs.Pack.{posted};
ghost use Rattle.postings.specs.Sums.{under};
ghost use Rattle.state.specs.Views.{finished};
ghost use Rattle.state.specs.Rules.{record_rule};
ghost use Rattle.card.specs.Chains.{blocks_for, content};
ghost use Rattle.card.specs.Cursors.{InCard, Chained, Good, ahead};
ghost use Rattle.partitions.specs.Reading.{chain_of, postings_of};
ghost use Rattle.partitions.specs.Formed.{header_rule, entries_rule, partition_rule, partitions_formed};
ghost use Rattle.partitions.specs.Headers.{header_in, header_words};
ghost use Rattle.partitions.specs.Terms.{EntriesAt, term_rule, entry_ahead, Readable};
ghost use Rattle.partitions.specs.Readers.{postings_ahead, GoodReader, first_ahead, moved_reader};

use card::Cursor;
use state::{Partition, Partitions};

// How many blocks hold so many bytes of content.
pub fn blocks_for(length: u32) -> u32
    ensures { result ≡ blocks_for length }
{
    ((length as u64 + 4091) / 4092) as u32
}

// The eight words of a header.
#[derive(Clone, Copy)]
struct Header {
    terms: u32,
    count: u32,
    entries: u32,
    postings: u32,
    total: u32,
    level: u32,
    lowest: u32,
    highest: u32,
}

// The header in a partition's first block.
fn read_header(card: &[u8], first: u16) -> Header
    requires { InCard (words_of card.now) first }
    ensures { result ≡ header_in (words_of card.now) first }
{
    Header {
        terms: card::block_word(card, first, 0),
        count: card::block_word(card, first, 1),
        entries: card::block_word(card, first, 2),
        postings: card::block_word(card, first, 3),
        total: card::block_word(card, first, 4),
        level: card::block_word(card, first, 5),
        lowest: card::block_word(card, first, 6),
        highest: card::block_word(card, first, 7),
    }
}

// Whether a header is as the record says. No word of it is trusted yet, so lengths are reckoned in 64 bits.
fn header_fits(h: Header, p: Partition) -> bool
    ensures { result ≡ header_rule p (header_words h) }
{
    let postings_at = 32 + 12 * h.terms as u64;
    let total = postings_at + 4 * h.count as u64;
    let span = (h.lowest == p.lowest as u32) & (h.highest == p.highest as u32);
    let recorded = (h.total == p.length) & ((h.level == p.level as u32) & span);
    let placed = (h.postings as u64 == postings_at) & ((h.total as u64 == total) & recorded);
    (h.terms >= 1) & ((h.count >= 1) & ((h.entries == 32) & placed))
}

// Whether a partition's header keeps its rule.
pub fn header_ok(card: &[u8], p: Partition) -> bool
    requires { Chained (words_of card.now) p.first (blocks_for p.length) × (0 < blocks_for p.length) }
    ensures { result ≡ header_rule p (content (words_of card.now) (chain_of (words_of card.now) p)) }
{
    header_fits(read_header(card, p.first), p)
}

// An entry: an identifier's number, how many postings it has and the index of the first, and the cursor past it.
#[derive(Clone, Copy)]
struct Entry {
    number: u32,
    count: u32,
    first: u32,
    rest: Cursor,
}

// The entry at a cursor.
fn entry_at(card: &[u8], e: Cursor) -> Entry
    requires { (3 ≤ e.left) × Good (words_of card.now) e }
    ensures { result ≡ entry_ahead (words_of card.now) e }
{
    let second = card::moved(card, e);
    let third = card::moved(card, second);
    Entry {
        number: card::head(card, e),
        count: card::head(card, second),
        first: card::head(card, third),
        rest: card::moved(card, third),
    }
}

// Whether an entry keeps its rule.
fn entry_ok(e: Entry, next: u32, sum: u64) -> bool
    ensures { result ≡ term_rule next sum e.number e.count e.first }
{
    (e.number >= next) & ((e.number <= 1023) & ((e.count >= 1) & (e.first as u64 == sum)))
}

// The cursor on all entries of a partition.
fn first_entry(card: &[u8], p: Partition) -> Cursor
    requires { Chained (words_of card.now) p.first (blocks_for p.length)
        × (header_rule p (content (words_of card.now) (chain_of (words_of card.now) p)) ≡ true) }
    ensures { EntriesAt (words_of card.now) p result }
{
    let terms = card::block_word(card, p.first, 0);
    card::seek(card, p.first, blocks_for(p.length), 8, 3 * terms)
}

// Whether a partition's entries keep their rule: one pass with the number from which the next may be and the sum of the counts so far.
pub fn entries_ok(card: &[u8], p: Partition) -> bool
    requires { Chained (words_of card.now) p.first (blocks_for p.length)
        × (header_rule p (content (words_of card.now) (chain_of (words_of card.now) p)) ≡ true) }
    ensures { result ≡ entries_rule (content (words_of card.now) (chain_of (words_of card.now) p)) }
{
    let count = card::block_word(card, p.first, 1);
    let mut e = first_entry(card, p);
    let mut next: u32 = 0;
    let mut sum: u64 = 0;
    // A cursor has no index: it is followed until nothing is to come.
    while 0 < e.left {
        let entry = entry_at(card, e);
        if !entry_ok(entry, next, sum) {
            return false;
        }
        next = entry.number + 1;
        sum += entry.count as u64;
        e = entry.rest;
    }
    sum == count as u64
}

// Whether a finished partition's chain, header and entries keep their rules.
pub fn partition_ok(card: &[u8], blocks: u32, p: Partition) -> bool
    requires { (length (words_of card.now) ≡ 1024 * blocks) × (blocks ≤ 4096) × (p.length ≤ 4092 * blocks) }
    ensures { result ≡ partition_rule (words_of card.now) blocks p }
{
    if !card::chain_ok(card, blocks, p.first, blocks_for(p.length)) {
        return false;
    }
    if !header_ok(card, p) {
        return false;
    }
    entries_ok(card, p)
}

// Whether all finished partitions keep their rules and share no block: each chain is marked, and apart from the marks of those before it.
pub fn partitions_ok(card: &[u8], blocks: u32, ps: Partitions) -> bool
    requires { (length (words_of card.now) ≡ 1024 * blocks) × (blocks ≤ 4096) × (ps.used ≤ 51) × (every (record_rule blocks) (finished ps) ≡ true) }
    ensures { result ≡ partitions_formed (words_of card.now) blocks (finished ps) }
{
    let mut marks = card::no_marks();
    for p in ps.finished() {
        if !partition_ok(card, blocks, *p) {
            return false;
        }
        let Some(m) = card::mark_chain(card, marks, p.first, blocks_for(p.length)) else {
            return false;
        };
        marks = m;
    }
    true
}

// The cursor on the postings of an identifier; one with none to come where the partition does not have it.
pub fn find_list(card: &[u8], p: Partition, id: u16) -> Cursor
    requires { Readable (words_of card.now) p }
    ensures { (map (posted id) (ahead (words_of card.now) result) ≡ under id (postings_of (words_of card.now) p))
        × Good (words_of card.now) result }
{
    let first = p.first;
    let terms = card::block_word(card, first, 0);
    let mut e = first_entry(card, p);
    // A cursor has no index: it is followed until nothing is to come.
    while 0 < e.left {
        let entry = entry_at(card, e);
        if entry.number == id as u32 {
            return card::seek(
                card,
                first,
                blocks_for(p.length),
                8 + 3 * terms + entry.first,
                entry.count,
            );
        }
        e = entry.rest;
    }
    e
}

// A reader over a whole partition: the postings to come, of which `here` are under `id`, and the entries after that.
#[derive(Clone, Copy)]
pub struct Reader {
    pub postings: Cursor,
    pub entries: Cursor,
    pub id: u16,
    pub here: u32,
}

// The reader at a partition's first posting.
pub fn open_reader(card: &[u8], p: Partition) -> Reader
    requires { Readable (words_of card.now) p }
    ensures { (postings_ahead (words_of card.now) result ≡ postings_of (words_of card.now) p)
        × GoodReader (words_of card.now) result }
{
    let first = p.first;
    let terms = card::block_word(card, first, 0);
    let count = card::block_word(card, first, 1);
    let entry = entry_at(card, first_entry(card, p));
    Reader {
        postings: card::seek(card, first, blocks_for(p.length), 8 + 3 * terms, count),
        entries: entry.rest,
        id: entry.number as u16,
        here: entry.count,
    }
}

// The reader past its first posting.
pub fn reader_moved(card: &[u8], r: Reader) -> Reader
    requires { (0 < r.postings.left) × GoodReader (words_of card.now) r }
    ensures { (result ≡ moved_reader (words_of card.now) r)
        × (postings_ahead (words_of card.now) r ≡ first_ahead (words_of card.now) r ∷ postings_ahead (words_of card.now) result)
        × GoodReader (words_of card.now) result }
{
    let postings = card::moved(card, r.postings);
    if 1 < r.here {
        return Reader {
            postings,
            here: r.here - 1,
            ..r
        };
    }
    if r.entries.left == 0 {
        return Reader {
            postings,
            id: 0,
            here: 0,
            ..r
        };
    }
    let entry = entry_at(card, r.entries);
    Reader {
        postings,
        entries: entry.rest,
        id: entry.number as u16,
        here: entry.count,
    }
}
