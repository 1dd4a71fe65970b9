// What the engine's calls answer: a value, or a refusal.
#![tactic(auto)]

ghost use Rattle.std.specs.Prelude.{◌≡◌};
ghost use Rattle.answers.specs.Numbers.{refusal_number};

// Why a call is refused, with the document's number. A refused call changes nothing.
#[derive(Clone, Copy, Debug, PartialEq, Eq)]
pub enum Refusal {
    BrokenState = 1,
    WrongLength,
    Malformed,
    BadIdentifier,
    OutOfTurn,
    Exhausted,
    NotLive,
    RegisterFull,
    WindowFull,
    LevelFull,
    HalfFull,
    TooFewFree,
    NothingDue,
    BadQuery,
    Uncounted,
    BadList,
    BadStretch,
}

impl From<Refusal> for u32 {
    ghost from_gives = { λ why n. n ≡ refusal_number why };

    fn from(why: Refusal) -> u32 {
        why as u32
    }
}

// What a query found: how many hits are listed, and how many postings were taken up.
#[derive(Clone, Copy)]
pub struct Found {
    pub hits: u16,
    pub taken: u32,
}

// A mean: whole quotient, remainder, and the number of windows that the sum was divided by.
#[derive(Clone, Copy)]
pub struct Mean {
    pub quotient: u16,
    pub remainder: u16,
    pub windows: u16,
}

// Where a plan stops: at the first call that is refused, told by the plan's window, from 1, and its event, from 1, or 0 for the open.
#[derive(Clone, Copy)]
pub struct Stop {
    pub window: u64,
    pub event: u16,
    pub why: Refusal,
}

// A forecast: flushes, blocks of finished partitions, register entries used, and where the plan stops, if it does.
#[derive(Clone, Copy)]
pub struct Forecast {
    pub flushes: u16,
    pub blocks: u64,
    pub entries: u16,
    pub stop: Option<Stop>,
}

// A window that a query lists, with its score.
#[derive(Clone, Copy)]
pub struct Hit {
    pub window: u16,
    pub score: u32,
}
