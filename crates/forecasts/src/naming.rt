// The numbers of a plan's identifiers.
ghost use Rattle.std.specs.Prelude.{true, map, ◌≡◌, ◌+◌, ◌≤◌, length, take};
ghost use Rattle.lists.specs.Lists.{every};
ghost use Rattle.identifiers.specs.Names.{number_of};
ghost use Rattle.forecasts.specs.Sketches.{identifier_at, is_place, names_with};

use super::Ground;

// The place of an identifier among those at the first `known` places of the plan, or `known` where it is none of them.
fn find_new(plan: &[u8], places: &[u32], known: usize, id: &[u8]) -> usize
    requires { (known ≤ length places.now) × (every (is_place plan.now) (take known places.now) ≡ true) }
    ensures { result ≡ number_of (map (identifier_at plan.now) (take known places.now)) id.now }
{
    for i in 0..known {
        let other = recordings::identifier_at(plan, places[i] as usize);
        if identifiers::equal(other, id) {
            return i;
        }
    }
    known
}

// The number of an identifier: its place in the register, or after those its place among the plan's new ones, or how many there are where it is new.
pub fn find(g: &Ground, places: &[u32], known: usize, id: &[u8]) -> usize
    requires { (known ≤ length places.now) × (every (is_place g.now.plan.now) (take known places.now) ≡ true) }
    ensures { result ≡ number_of (names_with g.now.register.now g.now.plan.now places.now known) id.now }
{
    let i = identifiers::find(g.register, id);
    if i < g.used {
        return i;
    }
    g.used + find_new(g.plan, places, known, id)
}
