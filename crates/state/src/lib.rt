// What the probe remembers between calls.
#![tactic(auto)]

ghost use Rattle.std.specs.Prelude.{[], ◌&&◌, ◌≡◌, ◌≤◌};
ghost use Rattle.state.specs.Rules.{card_length, register_length};
ghost use Rattle.state.specs.Views.{listed, listed_of, buffered, buffer_of, finished, partitions_of, no_merge};

use postings::Posting;

pub mod ids; // the open window's identifiers

// Bytes of a block of the card.
pub const BLOCK_BYTES: u32 = 4096;

// Identifiers of an open window, at most.
pub const MOST_LISTED: usize = 64;

// Buffered postings, at most.
pub const MOST_BUFFERED: usize = 128;

// Finished partitions, at most.
pub const MOST_PARTITIONS: usize = 51;

// The lengths in bytes of the buffers lent at the start.
#[derive(Clone, Copy)]
pub struct Lengths {
    pub card: u32,
    pub register: u32,
}

// Has a register of so many bytes 1 to 1,024 whole entries?
pub fn register_length_ok(bytes: usize) -> bool
    ensures { result ≡ register_length bytes }
{
    let entries = bytes / 65;
    (bytes % 65 == 0) & ((1 <= entries) & (entries <= 1024))
}

// Are both lengths within the limits? A card has 4 to 4,096 whole blocks.
pub fn lengths_ok(card: usize, register: usize) -> bool
    ensures { result ≡ (card_length card && register_length register) }
{
    let blocks = card / BLOCK_BYTES as usize;
    let whole = card % BLOCK_BYTES as usize == 0;
    (whole & ((4 <= blocks) & (blocks <= 4096))) & register_length_ok(register)
}

// The last window number given, how many closed windows are live (N), and the open window: its number, 0 for none, and its events.
#[derive(Clone, Copy)]
pub struct Windows {
    pub last: u16,
    pub live: u16,
    pub current: u16,
    pub events: u16,
}

// The open window's identifiers in order of first count.
#[derive(Clone, Copy)]
pub struct Listed {
    pub used: u16,
    pub ids: [u16; MOST_LISTED],
}

impl Listed {
    // No identifiers.
    pub fn new() -> Listed
        ensures { result ≡ listed_of [] }
    {
        Listed {
            used: 0,
            ids: [0; MOST_LISTED],
        }
    }

    // Those that are used.
    pub fn listed(&self) -> &[u16]
        requires { self.now.used ≤ 64 }
        ensures { result.now ≡ listed self.now }
    {
        &self.ids[..self.used as usize]
    }
}

// The buffered postings.
#[derive(Clone, Copy)]
pub struct Buffer {
    pub used: u16,
    pub postings: [Posting; MOST_BUFFERED],
}

impl Buffer {
    // No postings.
    pub fn new() -> Buffer
        ensures { result ≡ buffer_of [] }
    {
        Buffer {
            used: 0,
            postings: [Posting::NONE; MOST_BUFFERED],
        }
    }

    // Those that are used.
    pub fn buffered(&self) -> &[Posting]
        requires { self.now.used ≤ 128 }
        ensures { result.now ≡ buffered self.now }
    {
        &self.postings[..self.used as usize]
    }
}

// A finished partition: its first block, its level, its length in bytes, and the lowest and the highest window of its postings.
#[derive(Clone, Copy, Debug, PartialEq, Eq)]
pub struct Partition {
    pub first: u16,
    pub level: u16,
    pub length: u32,
    pub lowest: u16,
    pub highest: u16,
}

impl Partition {
    // What an unused place holds.
    pub const NONE: Partition = Partition {
        first: 0,
        level: 0,
        length: 0,
        lowest: 0,
        highest: 0,
    };
}

// The finished partitions, oldest first.
#[derive(Clone, Copy)]
pub struct Partitions {
    pub used: u16,
    pub records: [Partition; MOST_PARTITIONS],
}

impl Partitions {
    // No partitions.
    pub fn new() -> Partitions
        ensures { result ≡ partitions_of [] }
    {
        Partitions {
            used: 0,
            records: [Partition::NONE; MOST_PARTITIONS],
        }
    }

    // Those that are used.
    pub fn finished(&self) -> &[Partition]
        requires { self.now.used ≤ 51 }
        ensures { result.now ≡ finished self.now }
    {
        &self.records[..self.used as usize]
    }
}

// How far a merge is: where its output begins, how long that will be, and how many steps were taken. All 0 where none is in progress.
#[derive(Clone, Copy, Debug, PartialEq, Eq)]
pub struct MergeJob {
    pub first: u16,
    pub length: u32,
    pub steps: u32,
}

impl MergeJob {
    // No merge in progress.
    pub const NONE: MergeJob = MergeJob {
        first: 0,
        length: 0,
        steps: 0,
    };
}

#[derive(Clone, Copy)]
pub struct State {
    pub lengths: Lengths,
    pub windows: Windows,
    pub listed: Listed,
    pub buffer: Buffer,
    pub partitions: Partitions,
    // the block last taken
    pub taken: u16,
    pub merge: MergeJob,
}
