// The rule of the open window's identifiers.
ghost use Rattle.std.specs.Prelude.{◌&&◌, ◌≡◌, ◌≤◌, leb, eqb, drop};
ghost use Rattle.lists.specs.Lists.{every, different};
ghost use Rattle.state.specs.Views.{listed};
ghost use Rattle.state.specs.Rules.{listed_rule};

use state::ids::found_from;
use state::{Listed, Windows};

// Whether no identifier is listed twice.
fn all_differ(l: Listed) -> bool
    requires { l.used ≤ 64 }
    ensures { result ≡ different (listed l) }
{
    for (i, id) in l.listed().iter().enumerate() {
        if found_from(l, i + 1, *id) {
            return false;
        }
    }
    true
}

// Whether each identifier is one that the register can have, none is listed twice, and zeros follow them.
fn places_ok(l: Listed) -> bool
    requires { l.used ≤ 64 }
    ensures { result ≡ (every (λ i. leb i 1023) (listed l) && (different (listed l) && every (λ i. eqb i 0) (drop l.used l.ids))) }
{
    let unused = &l.ids[l.used as usize..];
    l.listed().iter().all(|id| *id <= 1023) & (all_differ(l) & unused.iter().all(|id| *id == 0))
}

// Whether the list of identifiers keeps its rule.
pub fn listed_ok(w: Windows, l: Listed) -> bool
    ensures { result ≡ listed_rule w l }
{
    if l.used > 64 {
        return false;
    }
    places_ok(l) & ((w.current != 0) | (l.used == 0))
}
