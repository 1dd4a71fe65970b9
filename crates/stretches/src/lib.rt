// What a query of a stretch of windows reads: the finished partitions that are not wholly outside it.
#![tactic(auto)]

ghost use Rattle.std.specs.Prelude.{true, ◌≡◌, ◌≤◌};
ghost use Rattle.lists.specs.Lists.{keep};
ghost use Rattle.state.specs.Rules.{state_rule};
ghost use Rattle.state.specs.Views.{finished, partitions_of};
ghost use Rattle.stretches.specs.Reached.{reaches as reaches_of, read_by};

use postings::Stretch;
use state::{MergeJob, Partition, Partitions, State};

// Whether a partition is not wholly outside the stretch.
fn reaches(t: Stretch, p: Partition) -> bool
    ensures { result ≡ reaches_of t p }
{
    (t.first <= p.highest) & (p.lowest <= t.last)
}

// The partitions that are not, in their order.
fn reached(ps: Partitions, t: Stretch) -> Partitions
    requires { ps.used ≤ 51 }
    ensures { result ≡ partitions_of (keep (reaches_of t) (finished ps)) }
{
    let mut found = Partitions::new();
    for p in ps.finished() {
        if reaches(t, *p) {
            found.records[found.used as usize] = *p;
            found.used += 1;
        }
    }
    found
}

// The state as a query of the stretch reads it.
pub fn read_by(s: State, t: Stretch) -> State
    requires { state_rule s ≡ true }
    ensures { result ≡ read_by t s }
{
    State {
        partitions: reached(s.partitions, t),
        merge: MergeJob::NONE,
        ..s
    }
}
