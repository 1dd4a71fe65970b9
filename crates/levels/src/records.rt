// Finished partitions added at the end, taken out, and replaced by one.
ghost use Rattle.std.specs.Prelude.{◌≡◌, [], ◌∷◌, ◌++◌, ◌+◌, ◌<◌, ◌≤◌, take, drop};
ghost use Rattle.state.specs.Views.{finished, partitions_of};

use state::{Partition, Partitions};

// The partition added as the youngest.
pub fn append(p: Partitions, q: Partition) -> Partitions
    requires { (p.used < 51) × (p ≡ partitions_of (finished p)) }
    ensures { result ≡ partitions_of (finished p ++ (q ∷ [])) }
{
    let mut t = p;
    let n = p.used as usize;
    t.records[n] = q;
    t.used = p.used + 1;
    t
}

// The partitions without `count` of them from place `at` on: those after move down, and zeros follow.
pub fn cut(p: Partitions, at: u16, count: u16) -> Partitions
    requires { (at + count ≤ p.used) × (p ≡ partitions_of (finished p)) }
    ensures { result ≡ partitions_of (take at (finished p) ++ drop count (drop at (finished p))) }
{
    let mut t = p;
    let end = p.used as usize;
    let left = p.used - count;
    t.records
        .copy_within((at + count) as usize..end, at as usize);
    t.records[left as usize..end].fill(Partition::NONE);
    t.used = left;
    t
}

// The same, with q in their place.
pub fn replace(p: Partitions, at: u16, count: u16, q: Partition) -> Partitions
    requires { (1 ≤ count) × (at + count ≤ p.used) × (p ≡ partitions_of (finished p)) }
    ensures { result ≡ partitions_of (take at (finished p) ++ (q ∷ drop count (drop at (finished p)))) }
{
    let mut t = p;
    let place = at as usize;
    t.records[place] = q;
    cut(t, at + 1, count - 1)
}
