// The lowest and the highest window of finished partitions, held against all their lists.
#![tactic(auto)]

ghost use Rattle.std.specs.Prelude.{map, ◌≡◌, ◌≤◌, min, max};
ghost use Rattle.lists.specs.All.{AllOf};
ghost use Rattle.lists.specs.Lists.{every};
ghost use Rattle.words.specs.Words.{words as words_of};
ghost use Rattle.postings.specs.Pack.{posted};
ghost use Rattle.postings.specs.Spans.{lowest, highest};
ghost use Rattle.state.specs.Views.{finished};
ghost use Rattle.card.specs.Cursors.{Good, ahead};
ghost use Rattle.partitions.specs.Reading.{postings_of};
ghost use Rattle.partitions.specs.Formed.{span_rule};
ghost use Rattle.partitions.specs.Terms.{Readable};

use card::Cursor;
use state::{Partition, Partitions};

// The lowest and the highest window of postings.
#[derive(Clone, Copy)]
pub struct Span {
    pub lowest: u16,
    pub highest: u16,
}

// A window more.
pub fn widened(s: Span, window: u16) -> Span
    ensures { (result.lowest ≡ min s.lowest window) × (result.highest ≡ max s.highest window) }
{
    Span {
        lowest: s.lowest.min(window),
        highest: s.highest.max(window),
    }
}

// Of the postings that a cursor has still to come.
fn span_ahead(card: &[u8], c: Cursor) -> Span
    requires { Good (words_of card.now) c }
    ensures { (result.lowest ≡ lowest (map (posted 0) (ahead (words_of card.now) c)))
        × (result.highest ≡ highest (map (posted 0) (ahead (words_of card.now) c))) }
{
    let mut at = c;
    let mut span = Span {
        lowest: 65535,
        highest: 0,
    };
    // A cursor has no index: it is followed until nothing is to come.
    while 0 < at.left {
        let p = postings::unpack(0, card::head(card, at));
        span = widened(span, p.window);
        at = card::moved(card, at);
    }
    span
}

// Whether a partition's postings have the lowest and the highest window that its record tells.
fn span_ok(card: &[u8], p: Partition) -> bool
    requires { Readable (words_of card.now) p }
    ensures { result ≡ span_rule p (postings_of (words_of card.now) p) }
{
    let r = partitions::open_reader(card, p);
    let s = span_ahead(card, r.postings);
    (p.lowest == s.lowest) & (p.highest == s.highest)
}

// Whether all partitions' have.
pub fn spans_ok(card: &[u8], ps: Partitions) -> bool
    requires { (ps.used ≤ 51) × AllOf (Readable (words_of card.now)) (finished ps) }
    ensures { result ≡ every (λ p. span_rule p (postings_of (words_of card.now) p)) (finished ps) }
{
    for p in ps.finished() {
        if !span_ok(card, *p) {
            return false;
        }
    }
    true
}
