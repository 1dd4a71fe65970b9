// Postings: their order, their sums, and the word of 32 bits that stores one.
#![tactic(auto)]

ghost use Rattle.std.specs.Prelude.{◌≡◌, ◌≤◌, nat_abs};
ghost use Rattle.postings.specs.Order.{precedes};
ghost use Rattle.postings.specs.Pack.{half, packed, count_of, is_posting, posted};

// The greatest number that an identifier can have.
pub const LAST_ID: u32 = 1023;

// Pairs of an identifier and a window that a merge step takes.
pub const STEP_PAIRS: usize = 16;

// Which identifier, in which window, and how many: below 0 where counts are taken back.
#[derive(Clone, Copy, Debug, PartialEq, Eq)]
pub struct Posting {
    pub id: u16,
    pub window: u16,
    pub count: i16,
}

impl Posting {
    // What an unused place holds.
    pub const NONE: Posting = Posting {
        id: 0,
        window: 0,
        count: 0,
    };
}

// A stretch of windows: its first and its last.
#[derive(Clone, Copy, Debug, PartialEq, Eq)]
pub struct Stretch {
    pub first: u16,
    pub last: u16,
}

// Whether `p` stands before `q`. Written out, since identifiers rise and windows fall.
pub fn precedes(p: Posting, q: Posting) -> bool
    ensures { result ≡ precedes p q }
{
    (p.id < q.id) | ((p.id == q.id) & (q.window < p.window))
}

// Fifteen bits of size under one of sign.
fn low_half(count: i16) -> u16
    requires { nat_abs count ≤ 32767 }
    ensures { result ≡ half count }
{
    if count < 0 {
        count.unsigned_abs() | 0x8000
    } else {
        count as u16
    }
}

// The word of a count and a window.
pub fn pack(count: i16, window: u16) -> u32
    requires { nat_abs count ≤ 32767 }
    ensures { result ≡ packed count window }
{
    (low_half(count) as u32) | (window as u32) << 16
}

// The count of a low half.
fn count_of(low: u16) -> i16
    ensures { result ≡ count_of low }
{
    let size = (low & 0x7fff) as i16;
    if low & 0x8000 == 0 { size } else { -size }
}

// The posting of a word under an identifier.
pub fn unpack(id: u16, word: u32) -> Posting
    ensures { result ≡ posted id word }
{
    let count = count_of((word & 0xffff) as u16);
    Posting {
        id,
        window: (word >> 16) as u16,
        count,
    }
}

// Whether a word holds a posting.
pub fn is_posting(word: u32) -> bool
    ensures { result ≡ is_posting word }
{
    (word >> 16 != 0) & (word & 0x7fff != 0)
}
