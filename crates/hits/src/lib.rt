// The query that is lent a list for its hits.
#![tactic(auto)]

ghost use Rattle.std.specs.Prelude.{map, ◌≡◌, ◌≤◌, length};
ghost use Rattle.queries.specs.Query.{fill};
ghost use Rattle.ranking.specs.Top.{listed_hits};
ghost use Rattle.hits.specs.Lent.{Asks};

use answers::{Found, Hit, Refusal};
use postings::Stretch;
use ranking::Top;
use state::State;

// Writes the hits to the first places of a lent list.
fn fill_by(hits: &mut [Hit], top: Top)
    requires { (top.used ≤ 32) × (top.used ≤ length hits.old) }
    ensures { hits.new ≡ fill (listed_hits top) hits.old }
{
    let n = top.used as usize;
    hits[..n].copy_from_slice(&top.hits[..n]);
}

// The query of a stretch of windows: its hits go to the first places of the lent list.
pub fn query(
    s: State,
    card: &[u8],
    register: &[u8],
    ids: &[&[u8]],
    t: Stretch,
    hits: &mut [Hit],
) -> Result<Found, Refusal>
    ensures { Asks s card.now register.now t (map (λ x. x.now) ids.now) hits.old result hits.new }
{
    let m = queries::search(s, card, register, ids, t, hits.len());
    fill_by(hits, m.top);
    m.answer
}
