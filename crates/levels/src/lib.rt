// The finished partitions by level: how many a level has, where they stand, which level is due, and the list as merges change it.
#![tactic(auto)]

ghost use Rattle.std.specs.Prelude.{◌≡◌, ◌≤◌, leb, slice_get};
ghost use Rattle.lists.specs.Lists.{every};
ghost use Rattle.state.specs.Views.{finished};
ghost use Rattle.state.specs.Levels.{due_at, level_limit, levels, of_level, due_levels, oldest_at};

use state::Partitions;

pub mod merging; // which partitions are merged, and what takes their place
pub mod records; // partitions added and taken out

// How many partitions are of the level.
pub fn of_level(p: Partitions, level: u16) -> u16
    requires { p.used ≤ 51 }
    ensures { result ≡ of_level (λ q. q.level) level (finished p) }
{
    p.finished().iter().filter(|q| q.level == level).count() as u16
}

// The place of the oldest partition of the level; all are passed where there is none.
pub fn place_of(p: Partitions, level: u16) -> u16
    requires { p.used ≤ 51 }
    ensures { result ≡ oldest_at (λ q. q.level) level (finished p) }
{
    for i in 0..p.used {
        if p.records[i as usize].level == level {
            return i;
        }
    }
    p.used
}

// At how many partitions a level is due.
pub fn due_at(level: u16) -> u16
    ensures { result ≡ due_at level }
{
    if level == 5 { 3 } else { 8 }
}

// The highest due level, if one is due.
pub fn due_level(p: Partitions) -> Option<u16>
    requires { p.used ≤ 51 }
    ensures { result ≡ slice_get (due_levels (λ q. q.level) (finished p)) 0 }
{
    for v in (0..6).rev() {
        if of_level(p, v) >= due_at(v) {
            return Some(v);
        }
    }
    None
}

// Whether no level has more partitions than it may.
pub fn levels_within(p: Partitions) -> bool
    requires { p.used ≤ 51 }
    ensures { result ≡ every (λ v. leb (of_level (λ q. q.level) v (finished p)) (level_limit v)) levels }
{
    let lower = (of_level(p, 2) <= 8) & ((of_level(p, 1) <= 8) & (of_level(p, 0) <= 16));
    (of_level(p, 5) <= 3) & ((of_level(p, 4) <= 8) & ((of_level(p, 3) <= 8) & lower))
}
