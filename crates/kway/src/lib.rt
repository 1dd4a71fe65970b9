// The k-way merge of lists by falling key: what is taken of one list and of all under a key. The heads of the lists stand in an array of numbers, as many
// to each, and are moved in place; what a head's numbers mean is told by the crate that has them (`Source`).
#![tactic(auto)]

ghost use Rattle.std.specs.Prelude.{◌≡◌, List, map, ℕ, ◌*◌, ◌≤◌, ◌<◌, ◌+ℤ◌, length};
ghost use Rattle.std.specs.Int.Signed.{mag};
ghost use Rattle.lists.specs.All.{AllOf};
ghost use Rattle.keyed.specs.Keys.{Item, reach, rest, topmost_from, head_val, head_fine, head_vals, heads_fine};
ghost use Rattle.postings.specs.Sums.{above as above_of};
ghost use Rattle.partitions.specs.Formed.{in_range};
ghost use Rattle.kway.specs.Parts.{parts};
ghost use Rattle.kway.specs.Sources.{SourceLaws};

pub mod leading; // the merge where one list leads

// All keys are below this: the windows of 1,024 identifiers.
pub const KEYS: u32 = 67108864;

// What is taken of one list under a key: the count, whether the posting is well formed, and one more than the key at the head afterwards. `fine` is a flag here and
// below, since the count, the sum and the next key are promised also where a posting is malformed (`taken` of `take` and `take_led`).
#[derive(Clone, Copy)]
pub struct Part {
    pub count: i16,
    pub fine: bool,
    pub reach: u32,
}

// What is taken of all lists under a key: the sum, whether each posting is well formed, and one more than the greatest key at any head afterwards.
#[derive(Clone, Copy)]
pub struct Taken {
    pub sum: i32,
    pub fine: bool,
    pub next: u32,
}

// One more than the greatest key at any head, a list that has it, and one more than the greatest key at the others.
#[derive(Clone, Copy)]
pub struct Lead {
    pub top: u32,
    pub at: u32,
    pub others: u32,
}

// What is taken of all lists under a key, and the list that leads afterwards.
#[derive(Clone, Copy)]
pub struct Led {
    pub sum: i32,
    pub fine: bool,
    pub next: u32,
    pub at: u32,
    pub others: u32,
}

// Where the lists of a merge are read from, and what a head of them is: so many numbers, the first one more than the key at the head.
pub trait Source {
    ghost WIDTH: { ℕ };

    // A head that can be read.
    ghost kept: { Self → List ℕ → Type 0 };

    // What a head has still to come.
    ghost view: { Self → List ℕ → List Item };

    // A function: Rattle states no constant for a type with a lifetime.
    fn width() -> usize
        ensures { result ≡ WIDTH };

    // Takes the head of a list, if it has the key.
    fn took(&self, head: &mut [u32], key: u32) -> Part
        requires { kept self.now head.old × (key < 4294967295) }
        ensures { kept self.now head.new
            × (view self.now head.new ≡ rest key (view self.now head.old))
            × (result.count ≡ head_val key (view self.now head.old))
            × (result.fine ≡ head_fine key (view self.now head.old))
            × (result.reach ≡ reach (view self.now head.new)) };

    ghost laws: { SourceLaws WIDTH kept view };
}

// Takes the heads that have the key: their sum, and the next key, in one pass.
pub fn take<S: Source>(source: &S, heads: &mut [u32], n: usize, key: u32) -> Taken
    requires { (S.WIDTH * n ≤ length heads.old) × (n ≤ 512) × (key < 4294967295) × AllOf (S.kept source.now) (parts S.WIDTH n heads.old) }
    ensures heads { (length heads.new ≡ length heads.old)
        × AllOf (S.kept source.now) (parts S.WIDTH n heads.new)
        × (map (S.view source.now) (parts S.WIDTH n heads.new)
        ≡ map (rest key) (map (S.view source.now) (parts S.WIDTH n heads.old))) }
    ensures taken { (result.sum ≡ head_vals key (map (S.view source.now) (parts S.WIDTH n heads.old)))
        × (result.fine ≡ heads_fine key (map (S.view source.now) (parts S.WIDTH n heads.old)))
        × (result.next ≡ topmost_from 0 (map (S.view source.now) (parts S.WIDTH n heads.new)))
        × (mag result.sum ≤ 32768 * n) }
{
    let mut sum: i32 = 0;
    let mut fine = true;
    let mut next: u32 = 0;
    for i in 0..n {
        let from = S::width() * i;
        let t = source.took(&mut heads[from..from + S::width()], key);
        sum = added(sum, t.count);
        fine &= t.fine;
        next = next.max(t.reach);
    }
    Taken { sum, fine, next }
}

// A count more.
pub fn added(sum: i32, count: i16) -> i32
    requires { mag sum ≤ 16777216 }
    ensures { result ≡ sum +ℤ count }
{
    sum + (count as i32)
}

// Whether a sum fits a posting.
pub fn in_range(sum: i32) -> bool
    ensures { result ≡ in_range sum }
{
    (-32767..=32767).contains(&sum)
}

// What a sum counts: nothing where it is not above 0.
pub fn above(sum: i32) -> u32
    ensures { result ≡ above_of sum }
{
    sum.max(0) as u32
}
