// The rule of the finished partitions.
ghost use Rattle.std.specs.Prelude.{◌&&◌, ◌≡◌, ◌≤◌, drop};
ghost use Rattle.lists.specs.Lists.{every};
ghost use Rattle.state.specs.Views.{finished};
ghost use Rattle.state.specs.Rules.{record_rule, unused_record, never_rise, partitions_rule};

use levels::levels_within;
use state::{Partition, Partitions};

// Whether a partition's level, length and windows are within their limits.
fn record_ok(blocks: u32, p: Partition) -> bool
    requires { blocks ≤ 1048576 }
    ensures { result ≡ record_rule blocks p }
{
    let span = (p.lowest >= 1) & (p.lowest <= p.highest);
    (p.level <= 5) & ((p.length <= 4092 * blocks) & span)
}

// Whether each partition keeps its rule, none has a higher level than the one before it, and zeros follow them.
fn places_ok(blocks: u32, p: Partitions) -> bool
    requires { (blocks ≤ 1048576) × (p.used ≤ 51) }
    ensures { result ≡ (never_rise (finished p) && (every (record_rule blocks) (finished p) && every unused_record (drop p.used p.records))) }
{
    let used = p.finished();
    let unused = &p.records[p.used as usize..];
    used.is_sorted_by(|p, q| q.level <= p.level)
        & (used.iter().all(|q| record_ok(blocks, *q))
            & unused.iter().all(|q| *q == Partition::NONE))
}

// Whether the finished partitions keep their rule on a card of so many blocks.
pub fn partitions_ok(blocks: u32, p: Partitions) -> bool
    requires { blocks ≤ 1048576 }
    ensures { result ≡ partitions_rule blocks p }
{
    if p.used > 51 {
        return false;
    }
    places_ok(blocks, p) & levels_within(p)
}
