// A forecast: what the calls of a plan come to, told from state and register without changing a byte.
#![tactic(auto)]

ghost use Rattle.std.specs.Prelude.{true, not, [], ◌∷◌, ◌++◌, ◌≡◌, ◌+◌, ◌-◌, ◌<◌, ◌≤◌, eqb, leb, length};
ghost use Rattle.answers.specs.Answers.{forecast as foretold};
ghost use Rattle.answers.specs.Numbers.{halt_as, forecast_as};
ghost use Rattle.state.specs.Views.{blocks, register_size};
ghost use Rattle.state.specs.Rules.{state_rule};
ghost use Rattle.identifiers.specs.Register.{entries, register_rule};
ghost use Rattle.recordings.specs.Recording.{listed_in_all, recording_rule, recorded};
ghost use Rattle.admission.specs.Admission.{first_of, told};
ghost use Rattle.forecasts.specs.Plan.{event_calls, plan_calls};
ghost use Rattle.forecasts.specs.Course.{follow as followed};
ghost use Rattle.forecasts.specs.Outlook.{outlook_gauge, outlook_of, planned, plan_tests, Foretells};
ghost use Rattle.forecasts.specs.Sketches.{Sound, Lent, Begun, Followed, Unless, stretch, opened_sketch, closed_sketch, opened_by, closed_by, Opened, Counting, Early, Ready};

use answers::{Forecast, Refusal, Stop};
use state::{BLOCK_BYTES, Buffer, Lengths, Listed, State, Windows};

mod counting; // an event of a plan
mod naming; // the numbers of a plan's identifiers

// Entries of a register, at most.
const MOST_ENTRIES: usize = 1024;

// What a forecast goes by, moved on from call to call. The identifiers that are new to the register are kept beside it, by their places in the plan.
#[derive(Clone, Copy)]
pub struct Sketch {
    pub windows: Windows,
    pub listed: Listed,
    pub buffer: Buffer,
    // of finished partitions
    pub blocks: u64,
    // partitions at level 0
    pub low: u16,
    pub flushes: u16,
    // identifiers of the plan that are new to the register
    pub known: u16,
}

// What a plan is followed on: the blocks of the card, the register with how many identifiers it has, and the plan's entries.
#[derive(Clone, Copy)]
pub struct Ground<'a> {
    pub card: u32,
    pub register: &'a [u8],
    pub used: usize,
    pub plan: &'a [u8],
    ghost lent: { Lent register.now used },
}

// Where calls of a plan stop, if anywhere, and what they leave.
#[derive(Clone, Copy)]
pub struct Walked {
    pub stop: Option<Stop>,
    pub sketch: Sketch,
}

// Judges what a forecast is given: refusal 1 of the state, as its rules said, 2 of the register's length, 3 of register and plan.
fn judge(
    sound: bool,
    l: Lengths,
    register: &[u8],
    plan: &[u8],
    counts: &[u32],
) -> Result<(), Refusal>
    requires { sound ≡ true → l.register ≤ 66560 }
    ensures { told result ≡ first_of (1 ∷ 2 ∷ 3 ∷ []) (plan_tests sound l register.now plan.now counts.now) }
{
    if !sound {
        return Err(Refusal::BrokenState);
    }
    if register.len() != l.register as usize {
        return Err(Refusal::WrongLength);
    }
    if !registers::register_ok(register) {
        return Err(Refusal::Malformed);
    }
    if !recordings::recording_ok(plan, counts) {
        return Err(Refusal::Malformed);
    }
    Ok(())
}

// What a forecast goes by at first.
fn sketch_of(s: State) -> Sketch
    requires { state_rule s ≡ true }
    ensures { Begun s result }
{
    Sketch {
        windows: s.windows,
        listed: s.listed,
        buffer: s.buffer,
        blocks: flushes::finished_blocks(s.partitions),
        low: levels::of_level(s.partitions, 0),
        flushes: 0,
        known: 0,
    }
}

// Judges the open of a plan's window.
fn judge_open(w: Windows) -> Result<(), Refusal>
    ensures { told result ≡ first_of (5 ∷ 6 ∷ []) (not (eqb w.current 0) ∷ leb 65535 w.last ∷ []) }
{
    if w.current != 0 {
        return Err(Refusal::OutOfTurn);
    }
    if w.last == 65535 {
        return Err(Refusal::Exhausted);
    }
    Ok(())
}

// A window opened.
fn opened(q: Sketch) -> Sketch
    requires { q.windows.last < 65535 }
    ensures { result ≡ opened_sketch q }
{
    let w = Windows {
        last: q.windows.last + 1,
        live: q.windows.live,
        current: q.windows.last + 1,
        events: 0,
    };
    Sketch { windows: w, ..q }
}

// The open window closed.
fn closed(q: Sketch) -> Sketch
    requires { 1 ≤ q.windows.last }
    ensures { result ≡ closed_sketch q }
{
    let mut last = q.windows.last;
    if q.windows.events == 0 {
        last -= 1;
    }
    let w = Windows {
        last,
        live: q.windows.live,
        current: 0,
        events: 0,
    };
    Sketch {
        windows: w,
        listed: Listed::new(),
        ..q
    }
}

// The events of a plan's window, at the places from `from` to before `to`, until one is refused.
fn follow_events(
    q: Sketch,
    g: &Ground,
    places: &mut [u32],
    from: usize,
    to: usize,
    window: u64,
) -> Walked
    requires { Opened g.now.register.now g.now.used g.now.plan.now places.old q from to }
    ensures { Followed g.now.card g.now.register.now g.now.plan.now places.old q (λ cs. event_calls window 1 (stretch g.now.plan.now from to) ++ cs)
        result.stop result.sketch places.new (closed_by window (to - from + 1))
        × Unless result.stop (Counting q result.sketch from to) }
{
    let mut t = q;
    for at in from..to {
        let r = counting::count(t, g, places, at);
        t = r.sketch;
        if let Err(why) = r.answer {
            let event = (at - from + 1) as u16;
            return Walked {
                stop: Some(Stop { window, event, why }),
                sketch: t,
            };
        }
    }
    Walked {
        stop: None,
        sketch: t,
    }
}

// A window of the plan: opened, its events at the places from `from` to before `to`, and closed, until a call is refused.
fn follow_window(
    q: Sketch,
    g: &Ground,
    places: &mut [u32],
    from: usize,
    to: usize,
    window: u64,
) -> Walked
    requires { Ready g.now.register.now g.now.used g.now.plan.now places.old q from to }
    ensures { Followed g.now.card g.now.register.now g.now.plan.now places.old q (opened_by window (stretch g.now.plan.now from to))
        result.stop result.sketch places.new (λ cs. cs)
        × Unless result.stop (Early result.sketch to) }
{
    if let Err(why) = judge_open(q.windows) {
        let event = 0;
        return Walked {
            stop: Some(Stop { window, event, why }),
            sketch: q,
        };
    }
    let t = follow_events(opened(q), g, places, from, to, window);
    match t.stop {
        Some(_) => t,
        None => Walked {
            stop: None,
            sketch: closed(t.sketch),
        },
    }
}

// The windows of the plan, one after another, until a call is refused.
fn follow_windows(q: Sketch, g: &Ground, counts: &[u32], places: &mut [u32]) -> Walked
    requires { Sound g.now.register.now g.now.plan.now places.old q × (listed_in_all counts.now ≡ length (entries g.now.plan.now)) }
    ensures { Followed g.now.card g.now.register.now g.now.plan.now places.old q (λ cs. plan_calls (recorded g.now.plan.now counts.now))
        result.stop result.sketch places.new (λ cs. []) }
{
    let mut t = q;
    let mut from: usize = 0;
    for (i, count) in counts.iter().enumerate() {
        let to = from + *count as usize;
        let window = i as u64 + 1;
        let r = follow_window(t, g, places, from, to, window);
        if let Some(_) = r.stop {
            return r;
        }
        t = r.sketch;
        from = to;
    }
    Walked {
        stop: None,
        sketch: t,
    }
}

// What is told where the calls of a plan stop so.
fn tell(w: Walked, used: usize) -> Forecast
    requires { used + w.sketch.known ≤ 1024 }
    ensures { forecast_as (Ok result) ≡ foretold w.sketch.flushes w.sketch.blocks (used + w.sketch.known) (halt_as w.stop) }
{
    let q = w.sketch;
    Forecast {
        flushes: q.flushes,
        blocks: q.blocks,
        entries: (used + q.known as usize) as u16,
        stop: w.stop,
    }
}

// A forecast that is admitted. At most 1,024 identifiers of the plan can be new, since the register has no room for more.
fn foresee(s: State, register: &[u8], plan: &[u8], counts: &[u32]) -> Forecast
    requires { (state_rule s ≡ true) × (length register.now ≡ s.lengths.register) × (register_rule register.now ≡ true) × (recording_rule plan.now counts.now ≡ true) }
    ensures { forecast_as (Ok result) ≡ followed outlook_gauge (planned (blocks s) (register_size s)) 0 (outlook_of s register.now) (plan_calls (recorded plan.now counts.now)) }
{
    let mut places = [0u32; MOST_ENTRIES];
    let end = MOST_ENTRIES;
    let used = identifiers::used_entries(register);
    let q = sketch_of(s);
    let g = Ground {
        card: s.lengths.card / BLOCK_BYTES,
        register,
        used,
        plan,
    };
    let w = follow_windows(q, &g, counts, &mut places[0..end]);
    tell(w, used)
}

// Tells what the calls of a plan would come to, window after window until one is refused: how many of them write a partition, how many blocks finished partitions
// have then and how many register entries are used, and where it stops. Nothing is changed.
pub fn forecast(s: State, register: &[u8], plan: &[u8], counts: &[u32]) -> Result<Forecast, Refusal>
    ensures { Foretells s register.now plan.now counts.now result }
{
    judge(rules::state_ok(s), s.lengths, register, plan, counts)?;
    Ok(foresee(s, register, plan, counts))
}
