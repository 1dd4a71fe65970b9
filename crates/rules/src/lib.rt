// The rules of what the probe remembers: refusal 1.
#![tactic(auto)]

ghost use Rattle.std.specs.Prelude.{◌≡◌, ◌≤◌};
ghost use Rattle.state.specs.Rules.{lengths_rule, windows_rule, merge_rule, state_rule};

use state::{BLOCK_BYTES, Lengths, MergeJob, Partitions, State, Windows};

pub mod buffer_rules; // buffered postings
pub mod id_rules; // the open window's identifiers
pub mod partition_rules; // finished partitions

// Whether both lengths are within the limits.
fn lengths_ok(l: Lengths) -> bool
    ensures { result ≡ lengths_rule l }
{
    state::lengths_ok(l.card as usize, l.register as usize)
}

// Whether the windows' numbers agree.
fn windows_ok(w: Windows) -> bool
    ensures { result ≡ windows_rule w }
{
    let number = w.current;
    let events = w.events;
    let opened = (number == w.last) & ((events <= 32767) & (w.live < number));
    (w.live <= w.last) & (((number == 0) & (events == 0)) | ((number != 0) & opened))
}

// Whether the merge in progress has a level to merge, or its record is zeros.
fn merge_ok(p: Partitions, m: MergeJob) -> bool
    requires { p.used ≤ 51 }
    ensures { result ≡ merge_rule p m }
{
    if m.steps == 0 {
        return (m.first == 0) & (m.length == 0);
    }
    levels::due_level(p).is_some()
}

// Whether the state keeps every rule.
pub fn state_ok(s: State) -> bool
    ensures { result ≡ state_rule s }
{
    let blocks = s.lengths.card / BLOCK_BYTES;
    if !partition_rules::partitions_ok(blocks, s.partitions) {
        return false;
    }
    let rest = ((s.taken as u32) < blocks) & merge_ok(s.partitions, s.merge);
    let lists = id_rules::listed_ok(s.windows, s.listed)
        & (buffer_rules::buffer_ok(s.windows, s.buffer) & rest);
    lengths_ok(s.lengths) & (windows_ok(s.windows) & lists)
}
