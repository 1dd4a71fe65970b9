// The list of finished partitions: which of them are merged, and what takes their place.
ghost use Rattle.std.specs.Prelude.{option_to_list, [], ◌≡◌, ◌+◌, ◌≤◌, length, get_or, take, drop};
ghost use Rattle.state.specs.Views.{finished, partitions_of};
ghost use Rattle.state.specs.Levels.{next_level, due_levels, oldest, replaced};

use state::{Partition, Partitions};

// So many of the list, from place `at` on.
fn run_of(p: Partitions, at: u16, count: u16) -> Partitions
    requires { (p.used ≤ 51) × (at + count ≤ p.used) × (p ≡ partitions_of (finished p)) }
    ensures { result ≡ partitions_of (take count (drop at (finished p))) }
{
    let end = at + count;
    let front = super::records::cut(p, end, p.used - end);
    super::records::cut(front, 0, at)
}

// The oldest partitions of the highest due level.
pub fn inputs_of(p: Partitions) -> Partitions
    requires { (p.used ≤ 51) × (length p.records ≡ 51 → p ≡ partitions_of (finished p)) }
    ensures { result ≡ partitions_of (oldest (λ q. q.level) (due_levels (λ q. q.level) (finished p)) (finished p)) }
{
    let Some(v) = super::due_level(p) else {
        return Partitions::new();
    };
    run_of(p, super::place_of(p, v), super::due_at(v))
}

// The level of what they are merged into.
pub fn output_level(p: Partitions) -> u16
    requires { p.used ≤ 51 }
    ensures { result ≡ next_level (get_or (due_levels (λ q. q.level) (finished p)) 0 0) }
{
    match super::due_level(p) {
        Some(5) => 5,
        Some(v) => v + 1,
        None => 1,
    }
}

// The list with a partition, or none, in their place.
pub fn replaced_by(p: Partitions, q: Option<Partition>) -> Partitions
    requires { (p.used ≤ 51) × (length p.records ≡ 51 → p ≡ partitions_of (finished p)) }
    ensures { result ≡ partitions_of (replaced (λ q. q.level) (due_levels (λ q. q.level) (finished p)) (finished p) (option_to_list q)) }
{
    let Some(v) = super::due_level(p) else {
        return p;
    };
    let at = super::place_of(p, v);
    let count = super::due_at(v);
    match q {
        Some(q) => super::records::replace(p, at, count, q),
        None => super::records::cut(p, at, count),
    }
}
