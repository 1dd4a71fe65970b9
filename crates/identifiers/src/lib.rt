// Identifiers and the register that numbers them.
#![tactic(auto)]

ghost use Rattle.std.specs.Prelude.{true, false, ◌&&◌, not, [], ◌≡◌, ◌+◌, ◌*◌, ◌<◌, ◌≤◌, eqb, length, get_or};
ghost use Rattle.lists.specs.Lists.{every, same};
ghost use Rattle.identifiers.specs.Names.{bad_length, number_of};
ghost use Rattle.identifiers.specs.Register.{entries, used, entry_rule, names, register_rule, added as added_to};
ghost use Rattle.identifiers.specs.Formed.{formed as formed_rule};

pub mod many; // several identifiers

// Bytes of an identifier, at most.
pub const LONGEST: usize = 64;

// Bytes of a register's entry: the length, and so many.
pub const ENTRY: usize = 65;

// Is an identifier empty or too long?
pub fn bad_length(id: &[u8]) -> bool
    ensures { result ≡ bad_length id.now }
{
    (id.len() == 0) | (LONGEST < id.len())
}

// Are two identifiers equal, over their full length?
pub fn equal(a: &[u8], b: &[u8]) -> bool
    ensures { result ≡ same a.now b.now }
{
    a.len() == b.len() && a == b
}

// Is every byte zero?
pub fn zeros(bytes: &[u8]) -> bool
    ensures { result ≡ every (λ b. eqb b 0) bytes.now }
{
    bytes.iter().all(|b| *b == 0)
}

// The entry at a place.
pub fn entry_at(register: &[u8], i: usize) -> &[u8]
    requires { i < length (entries register.now) }
    ensures { result.now ≡ get_or (entries register.now) i [] }
{
    let at = ENTRY * i;
    let end = at + ENTRY;
    &register[at..end]
}

// Does an entry keep its rule, and is it unused where the used ones have ended?
fn entry_ok(entry: &[u8], ended: bool) -> bool
    requires { length entry.now ≡ 65 }
    ensures { result ≡ (entry_rule entry.now && not (ended && used entry.now)) }
{
    let size = entry[0] as usize;
    if 64 < size {
        return false;
    }
    if ended {
        if 0 < size {
            return false;
        }
    }
    let rest = 1 + size;
    zeros(&entry[rest..])
}

// Does each entry keep its rule, and do used ones come first?
pub fn formed(register: &[u8]) -> bool
    ensures { result ≡ formed_rule register.now }
{
    let mut ended = false;
    for i in 0..register.len() / ENTRY {
        let entry = entry_at(register, i);
        if !entry_ok(entry, ended) {
            return false;
        }
        ended = entry[0] == 0;
    }
    true
}

// How many entries of a formed register are used.
pub fn count_used(register: &[u8]) -> usize
    requires { formed_rule register.now ≡ true }
    ensures { result ≡ length (names register.now) }
{
    let count = register.len() / ENTRY;
    for i in 0..count {
        if register[ENTRY * i] == 0 {
            return i;
        }
    }
    count
}

// The identifier with a number.
pub fn name_at(register: &[u8], i: usize) -> &[u8]
    requires { (formed_rule register.now ≡ true) × (i < length (names register.now)) }
    ensures { result.now ≡ get_or (names register.now) i [] }
{
    let entry = entry_at(register, i);
    let end = 1 + entry[0] as usize;
    &entry[1..end]
}

// How many identifiers a register has.
pub fn used_entries(register: &[u8]) -> usize
    requires { register_rule register.now ≡ true }
    ensures { result ≡ length (names register.now) }
{
    count_used(register)
}

// The number of an identifier: its place, or how many there are where it is not there.
pub fn find(register: &[u8], id: &[u8]) -> usize
    requires { register_rule register.now ≡ true }
    ensures { result ≡ number_of (names register.now) id.now }
{
    let used = count_used(register);
    for i in 0..used {
        if equal(name_at(register, i), id) {
            return i;
        }
    }
    used
}

// An identifier is put into the first unused entry.
pub fn add(register: &mut [u8], id: &[u8], at: usize)
    requires { (at ≡ length (names register.old)) × (65 * at + 65 ≤ length register.old) × (bad_length id.now ≡ false) }
    ensures { register.new ≡ added_to register.old id.now }
{
    let start = ENTRY * at;
    register[start] = id.len() as u8;
    // byte by byte: `copy_from_slice` would need `memmove` from outside the archive
    for i in 0..id.len() {
        register[start + 1 + i] = id[i];
    }
}
