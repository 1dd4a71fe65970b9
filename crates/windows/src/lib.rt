// Start, open and close. Each promises its answer, the state and every buffer lent as its definition says, whatever it is given.
#![tactic(auto)]

ghost use Rattle.std.specs.Prelude.{◌&&◌, ◌≡◌, length};
ghost use Rattle.state.specs.Views.{empty_state};
ghost use Rattle.windows.specs.Promises.{Starts, Opens, Closes};

use answers::Refusal;
use state::{Buffer, Lengths, Listed, MergeJob, Partitions, State, Windows};

// What a call answers, and the state after it.
#[derive(Clone, Copy)]
pub struct After<T> {
    pub answer: Result<T, Refusal>,
    pub state: State,
}

// A refusal: the state stays.
pub fn refuse<T>(s: State, why: Refusal) -> After<T>
    ensures { result ≡ record { answer = Err why; state = s } }
{
    After {
        answer: Err(why),
        state: s,
    }
}

// A call that is done, and the state that it leaves.
pub fn done(s: State) -> After<()>
    ensures { result ≡ record { answer = Ok tt; state = s } }
{
    After {
        answer: Ok(()),
        state: s,
    }
}

// A state without windows.
fn empty_state(card: u32, register: u32, taken: u16) -> State
    ensures { result ≡ empty_state card register taken }
{
    State {
        lengths: Lengths { card, register },
        windows: Windows {
            last: 0,
            live: 0,
            current: 0,
            events: 0,
        },
        listed: Listed::new(),
        buffer: Buffer::new(),
        partitions: Partitions::new(),
        taken,
        merge: MergeJob::NONE,
    }
}

// A fresh card, register and state.
pub fn start(card: &mut [u8], register: &mut [u8]) -> After<()>
    ensures { Starts card.old register.old result card.new register.new }
{
    let bytes = card.len();
    let entries = register.len();
    if !state::lengths_ok(bytes, entries) {
        return refuse(empty_state(0, 0, 0), Refusal::WrongLength);
    }
    let s = empty_state(bytes as u32, entries as u32, (bytes / 4096 - 1) as u16);
    card.fill(255);
    register.fill(0);
    done(s)
}

// The next number is given to a window, which has no events yet.
pub fn open(s: State) -> After<u16>
    ensures { Opens s result }
{
    if !rules::state_ok(s) {
        return refuse(s, Refusal::BrokenState);
    }
    if s.windows.current != 0 {
        return refuse(s, Refusal::OutOfTurn);
    }
    if s.windows.last == 65535 {
        return refuse(s, Refusal::Exhausted);
    }
    let number = s.windows.last + 1;
    let w = Windows {
        last: number,
        live: s.windows.live,
        current: number,
        events: 0,
    };
    After {
        answer: Ok(number),
        state: State { windows: w, ..s },
    }
}

// No window is open; one with events is counted in N from here on, and one without gives its number back.
pub fn close(s: State) -> After<()>
    ensures { Closes s result }
{
    if !rules::state_ok(s) {
        return refuse(s, Refusal::BrokenState);
    }
    if s.windows.current == 0 {
        return refuse(s, Refusal::OutOfTurn);
    }
    let mut last = s.windows.last;
    let mut live = s.windows.live;
    if s.windows.events == 0 {
        last -= 1;
    } else {
        live += 1;
    }
    let w = Windows {
        last,
        live,
        current: 0,
        events: 0,
    };
    done(State {
        windows: w,
        listed: Listed::new(),
        ..s
    })
}
