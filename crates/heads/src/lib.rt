// The heads of an identifier's lists, in the finished partitions and in the buffer, as a source of the k-way merge: they stand in an array of numbers, four to a head, and
// are moved in place. The buffer's part is one more head of the same kind: its places are those of the run, the buffer's postings packed as words.
#![tactic(auto)]

ghost use Rattle.std.specs.Prelude.{◌≡◌, ◌∷◌, ◌-◌, ◌<◌, length};
ghost use Rattle.keyed.specs.Keys.{reach, rest, head_val, head_fine};
ghost use Rattle.words.specs.Words.{words as words_of};
ghost use Rattle.heads.specs.Heads.{word_at, comes, Lies, coming, view, Kept, sourced};

use kway::{Part, Source};

// Where the heads of an identifier's lists are read from.
#[derive(Clone, Copy)]
pub struct Lists<'a> {
    pub card: &'a [u8],
    pub run: &'a [u32],
}

// The word at a place.
fn word_of(card: &[u8], run: &[u32], place: u32, left: u32) -> u32
    requires { (0 < left) × Lies (words_of card.now) run.now place left }
    ensures { result ≡ word_at (words_of card.now) run.now place }
{
    if place < 4194304 {
        words::word_at(card, place as usize)
    } else {
        let at = (place - 4194304) as usize;
        run[at]
    }
}

// The place after a place, of which at least one more word is to come.
fn after(card: &[u8], run: &[u32], place: u32, left: u32) -> u32
    requires { (1 < left) × Lies (words_of card.now) run.now place left }
    ensures { Lies (words_of card.now) run.now result (left - 1)
        × (comes (words_of card.now) run.now place left
        ≡ word_at (words_of card.now) run.now place ∷ comes (words_of card.now) run.now result (left - 1)) }
{
    if 4194304 <= place {
        return place + 1;
    }
    if place % 1024 == 1022 {
        1024 * words::word_at(card, place as usize + 1)
    } else {
        place + 1
    }
}

// Puts the head of a list.
pub fn put(card: &[u8], run: &[u32], head: &mut [u32], place: u32, left: u32) -> u32
    requires { (length head.old ≡ 4) × Lies (words_of card.now) run.now place left }
    ensures { Kept (words_of card.now) run.now head.new
        × (coming (words_of card.now) run.now head.new ≡ comes (words_of card.now) run.now place left)
        × (result ≡ reach (view (words_of card.now) run.now head.new)) }
{
    if left == 0 {
        head[0] = 0;
        head[3] = 0;
        return 0;
    }
    let word = word_of(card, run, place, left);
    let top = word / 65536 + 1;
    head[0] = top;
    head[1] = word;
    head[2] = place;
    head[3] = left;
    top
}

impl Source for Lists<'_> {
    ghost WIDTH = { 4 };

    ghost kept = { λ s. Kept (words_of s.card.now) s.run.now };

    ghost view = { λ s. view (words_of s.card.now) s.run.now };

    fn width() -> usize
        ensures { result ≡ 4 }
    {
        4
    }

    fn took(&self, head: &mut [u32], key: u32) -> Part
        requires { Kept (words_of self.now.card.now) self.now.run.now head.old × (key < 4294967295) }
        ensures { Kept (words_of self.now.card.now) self.now.run.now head.new
            × (view (words_of self.now.card.now) self.now.run.now head.new
            ≡ rest key (view (words_of self.now.card.now) self.now.run.now head.old))
            × (result.count ≡ head_val key (view (words_of self.now.card.now) self.now.run.now head.old))
            × (result.fine ≡ head_fine key (view (words_of self.now.card.now) self.now.run.now head.old))
            × (result.reach ≡ reach (view (words_of self.now.card.now) self.now.run.now head.new)) }
    {
        let top = head[0];
        if top != key + 1 {
            return Part {
                count: 0,
                fine: true,
                reach: top,
            };
        }
        let word = head[1];
        let place = head[2];
        let left = head[3];
        let p = postings::unpack(0, word);
        let fine = postings::is_posting(word);
        if left == 1 {
            head[0] = 0;
            head[3] = 0;
            return Part {
                count: p.count,
                fine: fine,
                reach: 0,
            };
        }
        let next = after(self.card, self.run, place, left);
        let reach = put(self.card, self.run, head, next, left - 1);
        Part {
            count: p.count,
            fine: fine,
            reach: reach,
        }
    }

    ghost laws = { sourced (λ s. words_of s.card.now) (λ s. s.run.now) };
}
