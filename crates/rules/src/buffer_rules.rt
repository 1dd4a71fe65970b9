// The rule of the buffered postings.
ghost use Rattle.std.specs.Prelude.{◌≡◌};
ghost use Rattle.postings.specs.Sums.{above};
ghost use Rattle.state.specs.Rules.{posting_rule, unused_posting, buffer_rule};

use postings::{Posting, precedes};
use state::{Buffer, Windows};

// What a posting counts: nothing where its count is below 0.
fn above(p: Posting) -> u16
    ensures { result ≡ above p.count }
{
    if p.count < 0 { 0 } else { p.count as u16 }
}

// Whether a buffered posting keeps its rule.
fn posting_ok(w: Windows, p: Posting) -> bool
    ensures { result ≡ posting_rule w p }
{
    let events = above(p);
    let own = (p.window != w.current) | ((events >= 1) & (events <= w.events));
    (p.id <= 1023)
        & ((p.window >= 1) & ((p.window <= w.last) & ((p.count != 0) & ((p.count > -32768) & own))))
}

// Whether the buffer keeps its rule: its length, each posting, that each stands before the next, and zeros after them.
pub fn buffer_ok(w: Windows, b: Buffer) -> bool
    ensures { result ≡ buffer_rule w b }
{
    if b.used > 128 {
        return false;
    }
    let used = b.buffered();
    let unused = &b.postings[b.used as usize..];
    used.is_sorted_by(|p, q| precedes(*p, *q))
        & (used.iter().all(|p| posting_ok(w, *p)) & unused.iter().all(|p| *p == Posting::NONE))
}
