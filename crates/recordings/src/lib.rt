// Windows of identifiers as they are lent: entries of 65 bytes like the register's, and how many belong to each window.
#![tactic(auto)]

ghost use Rattle.std.specs.Prelude.{false, [], ◌≡◌, ◌<◌, eqb, length, get_or};
ghost use Rattle.lists.specs.Lists.{every};
ghost use Rattle.identifiers.specs.Names.{bad_length};
ghost use Rattle.identifiers.specs.Register.{entries};
ghost use Rattle.recordings.specs.Recording.{zero_after, listed_in_all, recording_rule, identifier_in};

// Does the list add up to so many entries? It is read no further than where it exceeds them, so that no sum wraps.
fn adds_up(counts: &[u32], count: usize) -> bool
    ensures { result ≡ eqb (listed_in_all counts.now) count }
{
    let mut left = count;
    for n in counts {
        if left < *n as usize {
            return false;
        }
        left -= *n as usize;
    }
    left == 0
}

// Is an entry zero after its identifier?
fn zero_after(entry: &[u8]) -> bool
    requires { length entry.now ≡ 65 }
    ensures { result ≡ zero_after entry.now }
{
    let size = entry[0] as usize;
    if 64 < size {
        return true;
    }
    let rest = 1 + size;
    identifiers::zeros(&entry[rest..])
}

// Is each entry zero after its identifier?
fn all_zero_after(plan: &[u8]) -> bool
    ensures { result ≡ every zero_after (entries plan.now) }
{
    for i in 0..plan.len() / identifiers::ENTRY {
        if !zero_after(identifiers::entry_at(plan, i)) {
            return false;
        }
    }
    true
}

// Are these whole entries, as many as the list adds up to, and each zero after its identifier?
pub fn recording_ok(plan: &[u8], counts: &[u32]) -> bool
    ensures { result ≡ recording_rule plan.now counts.now }
{
    if plan.len() % identifiers::ENTRY != 0 {
        return false;
    }
    if !adds_up(counts, plan.len() / identifiers::ENTRY) {
        return false;
    }
    all_zero_after(plan)
}

// Is the identifier at a place empty or too long?
pub fn is_bad(plan: &[u8], at: usize) -> bool
    requires { at < length (entries plan.now) }
    ensures { result ≡ bad_length (identifier_in (get_or (entries plan.now) at [])) }
{
    let entry = identifiers::entry_at(plan, at);
    (entry[0] == 0) | (64 < entry[0])
}

// The identifier at a place, of a good length.
pub fn identifier_at(plan: &[u8], at: usize) -> &[u8]
    requires { (at < length (entries plan.now)) × (bad_length (identifier_in (get_or (entries plan.now) at [])) ≡ false) }
    ensures { result.now ≡ identifier_in (get_or (entries plan.now) at []) }
{
    let entry = identifiers::entry_at(plan, at);
    let end = 1 + entry[0] as usize;
    &entry[1..end]
}
