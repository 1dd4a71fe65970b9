// Counting an event that is judged.
ghost use Rattle.std.specs.Prelude.{true, false, ◌&&◌, not, cond, [], ◌∷◌, ◌++◌, ◌≡◌, suc, ◌≤◌, ◌<◌, eqb, length};
ghost use Rattle.lists.specs.Lists.{any, elem};
ghost use Rattle.postings.specs.Order.{same_pair};
ghost use Rattle.postings.specs.Merge.{put};
ghost use Rattle.state.specs.Views.{listed, listed_of, buffered, buffer_of};
ghost use Rattle.state.specs.Rules.{buffer_rule};
ghost use Rattle.buffer.specs.Places.{pair};
ghost use Rattle.events.specs.Event.{registered, counted};
ghost use Rattle.events.specs.Verdicts.{Countable, Placed};

use postings::Posting;
use state::{Buffer, Listed, State, Windows};
use windows::After;

// Is the pair new to a full buffer?
pub fn must_flush(b: Buffer, i: u16, window: u16) -> bool
    requires { b.used ≤ 128 }
    ensures { result ≡ (eqb (length (buffered b)) 128 && not (any (same_pair (pair i window)) (buffered b))) }
{
    if b.used != 128 {
        return false;
    }
    !buffer::holds_pair(b, i, window)
}

// One event more in the open window. N stays until it is closed.
pub fn count_window(w: Windows) -> Windows
    requires { w.events < 32767 }
    ensures { result ≡ record { last = w.last; live = w.live; current = w.current; events = suc w.events } }
{
    Windows {
        events: w.events + 1,
        ..w
    }
}

// The identifier listed at its first event in the window.
pub fn count_listed(l: Listed, i: u16) -> Listed
    requires { (l.used ≤ 64) × (length l.ids ≡ 64 → l ≡ listed_of (listed l)) × (elem i (listed l) ≡ false → length (listed l) < 64) }
    ensures { result ≡ listed_of (cond (elem i (listed l)) (listed l) (listed l ++ (i ∷ []))) }
{
    if state::ids::is_listed(l, i) {
        return l;
    }
    state::ids::list_id(l, i)
}

// One count more of the identifier in the open window.
pub fn count_pair(b: Buffer, w: Windows, i: u16) -> Buffer
    requires { (buffer_rule w b ≡ true) × (w.events < 32767) × (any (same_pair (pair i w.current)) (buffered b) ≡ false → length (buffered b) < 128) }
    ensures { result ≡ buffer_of (put (pair i w.current) (buffered b)) }
{
    let p = Posting {
        id: i,
        window: w.current,
        count: 1,
    };
    buffer::add(b, p)
}

// The event counted.
fn count_event(s: State, i: u16) -> State
    requires { Countable s i }
    ensures { result ≡ counted s i }
{
    let w = count_window(s.windows);
    let l = count_listed(s.listed, i);
    let b = count_pair(s.buffer, s.windows, i);
    State {
        windows: w,
        listed: l,
        buffer: b,
        ..s
    }
}

// The register gets an identifier that it has not.
fn note(register: &mut [u8], id: &[u8], i: u16)
    requires { Placed register.old id.now i }
    ensures { register.new ≡ registered register.old id.now }
{
    let used = identifiers::used_entries(register);
    if i as usize >= used {
        identifiers::add(register, id, used);
    }
}

// The event counted, and its identifier in the register.
pub fn enter(s: State, register: &mut [u8], id: &[u8], i: u16) -> After<()>
    requires { Countable s i × Placed register.old id.now i }
    ensures { (result ≡ record { answer = Ok tt; state = counted s i }) × (register.new ≡ registered register.old id.now) }
{
    note(register, id, i);
    windows::done(count_event(s, i))
}
