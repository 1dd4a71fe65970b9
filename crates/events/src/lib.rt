// An event: judged first, and then counted.
#![tactic(auto)]

ghost use Rattle.windows.specs.Promises.{probe_of};
ghost use Rattle.events.specs.Event.{Counts};
ghost use Rattle.events.specs.Verdicts.{Admitted};

use state::State;
use windows::After;

pub mod counting; // counting an event that is judged
pub mod judging; // judging an event

// Counts an event that refusals 1 to 9 do not stop, with a flush first where its pair is new to a full buffer.
fn count(s: State, card: &mut [u8], register: &mut [u8], id: &[u8], i: u16) -> After<()>
    requires { Admitted (probe_of s card.old register.old) id.now i }
    ensures { Counts s card.old register.old id.now result card.new register.new }
{
    let wanted = counting::must_flush(s.buffer, i, s.windows.current);
    match flushes::target_of(s, card, wanted) {
        Err(why) => windows::refuse(s, why),
        Ok(Some(b)) => counting::enter(flushes::flush_to(s, card, b), register, id, i),
        Ok(None) => counting::enter(s, register, id, i),
    }
}

// One event of an identifier in the open window. The register gets a new identifier only where the event is counted.
pub fn event(s: State, card: &mut [u8], register: &mut [u8], id: &[u8]) -> After<()>
    ensures { Counts s card.old register.old id.now result card.new register.new }
{
    match judging::judge_event(s, card, register, id) {
        Err(why) => windows::refuse(s, why),
        Ok(i) => count(s, card, register, id, i),
    }
}
