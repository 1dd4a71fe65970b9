// Whole finished partitions read together by a k-way merge, by falling key: identifier ascending, and then window falling. The head of each stands in ten words
// of a lent array and is moved in place.
#![tactic(auto)]

ghost use Rattle.std.specs.Prelude.{◌≡◌, map, length, ◌*◌, ◌≤◌, ◌<◌};
ghost use Rattle.lists.specs.All.{AllOf};
ghost use Rattle.keyed.specs.Keys.{reach, rest, topmost_from, head_val, head_fine};
ghost use Rattle.words.specs.Words.{words as words_of};
ghost use Rattle.state.specs.Views.{finished};
ghost use Rattle.partitions.specs.Reading.{postings_of};
ghost use Rattle.partitions.specs.Terms.{Readable};
ghost use Rattle.partitions.specs.Readers.{GoodReader, postings_ahead};
ghost use Rattle.scans.specs.Keys.{key_id, key_window};
ghost use Rattle.kway.specs.Parts.{parts};
ghost use Rattle.scans.specs.Heads.{ahead, view, Kept, views, sourced};
ghost use Rattle.scans.specs.Items.{items};

use card::Cursor;
use kway::{Part, Source};
use partitions::Reader;
use postings::LAST_ID;
use state::Partitions;

// Where the heads of whole partitions are read from.
#[derive(Clone, Copy)]
pub struct Whole<'a> {
    pub card: &'a [u8],
}

// The identifier of a key.
pub fn key_id(key: u32) -> u16
    requires { key < 67108864 }
    ensures { result ≡ key_id key }
{
    (LAST_ID - key / 65536) as u16
}

// The window of a key.
pub fn key_window(key: u32) -> u16
    ensures { result ≡ key_window key }
{
    (key % 65536) as u16
}

// Puts the head of a reader.
pub fn put(card: &[u8], head: &mut [u32], r: Reader) -> u32
    requires { (length head.old ≡ 10) × GoodReader (words_of card.now) r }
    ensures { Kept (words_of card.now) head.new
        × (ahead (words_of card.now) head.new ≡ postings_ahead (words_of card.now) r)
        × (view (words_of card.now) head.new ≡ items (words_of card.now) r)
        × (result ≡ reach (items (words_of card.now) r)) }
{
    let p = r.postings;
    let e = r.entries;
    head[2] = p.block as u32;
    head[3] = p.word as u32;
    head[4] = p.left;
    head[5] = e.block as u32;
    head[6] = e.word as u32;
    head[7] = e.left;
    head[8] = r.id as u32;
    head[9] = r.here;
    if p.left == 0 {
        head[0] = 0;
        return 0;
    }
    let word = card::head(card, p);
    let top = (LAST_ID - r.id as u32) * 65536 + word / 65536 + 1;
    head[0] = top;
    head[1] = word;
    top
}

impl Source for Whole<'_> {
    ghost WIDTH = { 10 };

    ghost kept = { λ s. Kept (words_of s.card.now) };

    ghost view = { λ s. view (words_of s.card.now) };

    fn width() -> usize
        ensures { result ≡ 10 }
    {
        10
    }

    fn took(&self, head: &mut [u32], key: u32) -> Part
        requires { Kept (words_of self.now.card.now) head.old × (key < 4294967295) }
        ensures { Kept (words_of self.now.card.now) head.new
            × (view (words_of self.now.card.now) head.new ≡ rest key (view (words_of self.now.card.now) head.old))
            × (result.count ≡ head_val key (view (words_of self.now.card.now) head.old))
            × (result.fine ≡ head_fine key (view (words_of self.now.card.now) head.old))
            × (result.reach ≡ reach (view (words_of self.now.card.now) head.new)) }
    {
        let top = head[0];
        if top != key + 1 {
            return Part {
                count: 0,
                fine: true,
                reach: top,
            };
        }
        let word = head[1];
        let p = Cursor {
            block: head[2] as u16,
            word: head[3] as u16,
            left: head[4],
        };
        let e = Cursor {
            block: head[5] as u16,
            word: head[6] as u16,
            left: head[7],
        };
        let r = Reader {
            postings: p,
            entries: e,
            id: head[8] as u16,
            here: head[9],
        };
        let next = partitions::reader_moved(self.card, r);
        let reach = put(self.card, head, next);
        let q = postings::unpack(0, word);
        let fine = postings::is_posting(word);
        Part {
            count: q.count,
            fine: fine,
            reach: reach,
        }
    }

    ghost laws = { sourced (λ s. words_of s.card.now) };
}

// Puts the head of each partition at its first posting, and tells one more than the greatest key at any.
pub fn open_heads(card: &[u8], ps: Partitions, heads: &mut [u32]) -> u32
    requires { (ps.used ≤ 51) × (10 * ps.used ≤ length heads.old) × (length heads.old ≤ 65536) × AllOf (Readable (words_of card.now)) (finished ps) }
    ensures { (length heads.new ≡ length heads.old)
        × AllOf (Kept (words_of card.now)) (parts 10 ps.used heads.new)
        × (map (ahead (words_of card.now)) (parts 10 ps.used heads.new) ≡ map (postings_of (words_of card.now)) (finished ps))
        × (result ≡ topmost_from 0 (views (words_of card.now) ps.used heads.new)) }
{
    let mut top: u32 = 0;
    for (i, p) in ps.finished().iter().enumerate() {
        let r = partitions::open_reader(card, *p);
        let reach = put(card, &mut heads[10 * i..10 * i + 10], r);
        top = top.max(reach);
    }
    top
}
