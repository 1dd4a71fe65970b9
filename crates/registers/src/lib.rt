// The whole register judged: every entry by its rule, and all identifiers different, by chains of equal hashes or by sorting.
#![tactic(auto)]

ghost use Rattle.std.specs.Prelude.{true, false, [], ◌≡◌, ◌<◌, ◌≤◌, length, get_or, take};
ghost use Rattle.identifiers.specs.Names.{among, distinct};
ghost use Rattle.identifiers.specs.Register.{entries, used, names, register_rule};
ghost use Rattle.identifiers.specs.Formed.{formed as formed_rule};
ghost use Rattle.words.specs.Words.{Below};
ghost use Rattle.registers.specs.Chains.{hash_of, Chained};
ghost use Rattle.registers.specs.Order.{lower, key, Inverse, Ascending};

// The hash of an identifier.
fn hash_of(name: &[u8]) -> usize
    ensures { result ≡ hash_of name.now }
{
    let mut hash = name.len() % 1024;
    for b in name {
        hash = (31 * hash + *b as usize) % 1024;
    }
    hash
}

// Is the identifier with a number among those before it? Only those on its chain can be equal to it. A chain of more than `limit` is not walked to its end,
// and the answer then is yes.
fn repeated(register: &[u8], links: &[u16; 1024], first: usize, i: usize, limit: usize) -> bool
    requires { (formed_rule register.now ≡ true) × Chained (names register.now) i first links.now }
    ensures { (result ≡ false → among (get_or (names register.now) i []) (take i (names register.now)) ≡ false)
        × (1024 ≤ limit → result ≡ among (get_or (names register.now) i []) (take i (names register.now))) }
{
    let name = identifiers::name_at(register, i);
    let mut left = first;
    let mut steps: usize = 0;
    // the links lead on, and `steps` says only when to stop
    while 0 < left {
        if steps == limit {
            return true;
        }
        let place = left - 1;
        let other = identifiers::name_at(register, place);
        if identifiers::equal(other, name) {
            return true;
        }
        left = links[place] as usize;
        steps += 1;
    }
    false
}

// Do all identifiers of a formed register differ? Places with equal hashes are chained: `heads` holds, by hash, one more than the
// last place so far, and `links`, by place, one more than the one before it on its chain; 0 ends a chain. Where a chain is longer than `limit`, the answer is no.
fn chained_apart(
    register: &[u8],
    heads: &mut [u16; 1024],
    links: &mut [u16; 1024],
    limit: usize,
) -> bool
    requires { (formed_rule register.now ≡ true) × (length register.now ≤ 66560) }
    ensures { (result ≡ true → distinct (names register.now) ≡ true)
        × (1024 ≤ limit → result ≡ distinct (names register.now)) }
{
    let used = identifiers::count_used(register);
    *heads = [0u16; 1024];
    *links = [0u16; 1024];
    for i in 0..used {
        let hash = hash_of(identifiers::name_at(register, i));
        let first = heads[hash];
        if repeated(register, &*links, first as usize, i, limit) {
            return false;
        }
        links[i] = first;
        heads[hash] = (i + 1) as u16;
    }
    true
}

// Is an entry before another in an order of entries: by their words, and then by their last byte?
fn less(a: &[u8], b: &[u8]) -> bool
    requires { (length a.now ≡ 65) × (length b.now ≡ 65) }
    ensures { result ≡ lower (key a.now) (key b.now) }
{
    for c in 0..16 {
        let x = words::word_at(a, c);
        let y = words::word_at(b, c);
        if x != y {
            return x < y;
        }
    }
    a[64] < b[64]
}

// Which of two runs gives the next place: that from i to before mid, or that from j to before high.
fn choose(
    register: &[u8],
    from: &[u16; 1024],
    n: usize,
    i: usize,
    mid: usize,
    j: usize,
    high: usize,
) -> usize
    requires { (n ≤ length (entries register.now)) × Below n from.now × (mid ≤ high) × (high ≤ 1024) × (high ≤ j → i < mid) }
    ensures { (result < high) × ((result ≡ j → ⊥) → i < mid) }
{
    if high <= j {
        return i;
    }
    if mid <= i {
        return j;
    }
    let a = identifiers::entry_at(register, from[j] as usize);
    let b = identifiers::entry_at(register, from[i] as usize);
    if less(a, b) { j } else { i }
}

// Two runs of places that stand side by side are merged into one.
fn merge(
    register: &[u8],
    from: &[u16; 1024],
    to: &mut [u16; 1024],
    n: usize,
    low: usize,
    mid: usize,
    high: usize,
)
    requires { (n ≤ length (entries register.now)) × Below n from.now × Below n to.old × (low ≤ mid) × (mid ≤ high) × (high ≤ 1024) }
    ensures { Below n to.new }
{
    let mut j = mid;
    for k in low..high {
        let at = choose(register, from, n, k + mid - j, mid, j, high);
        to[k] = from[at];
        if at == j {
            j += 1;
        }
    }
}

// Runs of so many places are merged two by two.
fn pass(register: &[u8], from: &[u16; 1024], to: &mut [u16; 1024], n: usize, width: usize)
    requires { (n ≤ length (entries register.now)) × (n ≤ 1024) × Below n from.now × Below n to.old × (1 ≤ width) × (width ≤ 4096) }
    ensures { Below n to.new }
{
    let mut low: usize = 0;
    // no counted index: each turn goes on from where two runs end
    while low < n {
        let mid = n.min(low + width);
        let high = n.min(mid + width);
        merge(register, from, to, n, low, mid, high);
        low = high;
    }
}

// The places in the order of their numbers.
fn fill(order: &mut [u16; 1024], n: usize)
    requires { (n ≤ 1024) × Below n order.old }
    ensures { Below n order.new }
{
    for i in 0..n {
        order[i] = i as u16;
    }
}

// By place, where it stands in order.
fn rank(order: &[u16; 1024], ranks: &mut [u16; 1024], n: usize)
    requires { (n ≤ 1024) × Below n order.now × Below n ranks.old }
    ensures { Below n ranks.new }
{
    for k in 0..n {
        ranks[order[k] as usize] = k as u16;
    }
}

// Does each place stand where its rank says?
fn inverse(order: &[u16; 1024], ranks: &[u16; 1024], n: usize) -> bool
    requires { (n ≤ 1024) × Below n ranks.now × Below n order.now }
    ensures { result ≡ true → Inverse order.now ranks.now n }
{
    for p in 0..n {
        let k = ranks[p] as usize;
        if order[k] as usize != p {
            return false;
        }
    }
    true
}

// Is each entry before the next in order?
fn ascending(register: &[u8], order: &[u16; 1024], n: usize) -> bool
    requires { (n ≤ length (entries register.now)) × (n ≤ 1024) × Below n order.now }
    ensures { result ≡ true → Ascending register.now order.now n }
{
    for k in 1..n {
        let a = identifiers::entry_at(register, order[k - 1] as usize);
        let b = identifiers::entry_at(register, order[k] as usize);
        if !less(a, b) {
            return false;
        }
    }
    true
}

// Do all identifiers of a formed register differ, as their places show that are in order? The places are sorted by runs that are merged two by two, which
// takes as long for identifiers that are chosen as for others. That they are in order is then looked at; where they are not, the answer is no.
fn sorted_apart(register: &[u8], order: &mut [u16; 1024], ranks: &mut [u16; 1024]) -> bool
    requires { (formed_rule register.now ≡ true) × (length register.now ≤ 66560) }
    ensures { result ≡ true → distinct (names register.now) ≡ true }
{
    let n = identifiers::count_used(register);
    if n == 0 {
        return true;
    }
    *order = [0u16; 1024];
    *ranks = [0u16; 1024];
    fill(order, n);
    let mut width: usize = 1;
    // no counted index: each turn makes runs four times as long
    while width < n {
        pass(register, &*order, ranks, n, width);
        pass(register, &*ranks, order, n, 2 * width);
        width = 4 * width;
    }
    rank(&*order, ranks, n);
    if !inverse(&*order, &*ranks, n) {
        return false;
    }
    ascending(register, &*order, n)
}

// Do all identifiers of a formed register differ? Chains are short unless identifiers are chosen to have one hash. Chains and sort use the same two tables.
fn all_different(register: &[u8]) -> bool
    requires { (formed_rule register.now ≡ true) × (length register.now ≤ 66560) }
    ensures { result ≡ distinct (names register.now) }
{
    let mut a = [0u16; 1024];
    let mut b = [0u16; 1024];
    if chained_apart(register, &mut a, &mut b, 16) {
        return true;
    }
    if sorted_apart(register, &mut a, &mut b) {
        return true;
    }
    chained_apart(register, &mut a, &mut b, 1024)
}

// Does a register keep its rule?
pub fn register_ok(register: &[u8]) -> bool
    requires { length register.now ≤ 66560 }
    ensures { result ≡ register_rule register.now }
{
    if !identifiers::formed(register) {
        return false;
    }
    all_different(register)
}
