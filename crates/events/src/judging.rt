// Judging an event.
ghost use Rattle.std.specs.Prelude.{true, ◌&&◌, not, ◌≡◌, ◌≤◌, leb, length};
ghost use Rattle.lists.specs.Lists.{elem};
ghost use Rattle.answers.specs.Order.{event, past};
ghost use Rattle.state.specs.Views.{listed};
ghost use Rattle.identifiers.specs.Register.{register_rule};
ghost use Rattle.windows.specs.Promises.{probe_of};
ghost use Rattle.events.specs.Verdicts.{Judged, number_tests, Weighed, Turned};

use answers::Refusal;
use state::{Listed, State, Windows};

// Would the identifier be a 65th?
fn is_full(l: Listed, i: u16) -> bool
    requires { l.used ≤ 64 }
    ensures { result ≡ (not (elem i (listed l)) && leb 64 (length (listed l))) }
{
    !state::ids::is_listed(l, i) & (l.used >= 64)
}

// Judges the turn of an identifier by its number: the open window, its events, and the room for the identifier. A new one has the number of those that there
// are, which is no place where there is no room for it.
pub fn judge_number(w: Windows, l: Listed, room: usize, i: usize) -> Result<u16, Refusal>
    requires { (l.used ≤ 64) × (room ≤ 1024) }
    ensures { Weighed (past 4 event) (number_tests w l room i) i result }
{
    if w.current == 0 {
        return Err(Refusal::OutOfTurn);
    }
    if w.events >= 32767 {
        return Err(Refusal::Exhausted);
    }
    if i >= room {
        return Err(Refusal::RegisterFull);
    }
    if is_full(l, i as u16) {
        return Err(Refusal::WindowFull);
    }
    Ok(i as u16)
}

// Judges an event's identifier and its turn, where refusals 1 to 3 are ruled out.
fn judge_turn(w: Windows, l: Listed, register: &[u8], id: &[u8]) -> Result<u16, Refusal>
    requires { (l.used ≤ 64) × (length register.now ≤ 66560) × (register_rule register.now ≡ true) }
    ensures { Turned w l register.now id.now result }
{
    if identifiers::bad_length(id) {
        return Err(Refusal::BadIdentifier);
    }
    judge_number(
        w,
        l,
        register.len() / identifiers::ENTRY,
        identifiers::find(register, id),
    )
}

// Judges an event: its identifier's number, or why it is refused before anything is written.
pub fn judge_event(s: State, card: &[u8], register: &[u8], id: &[u8]) -> Result<u16, Refusal>
    ensures { Judged (probe_of s card.now register.now) id.now result }
{
    admission::judge_probe(rules::state_ok(s), s.lengths, card, register)?;
    judge_turn(s.windows, s.listed, register, id)
}
