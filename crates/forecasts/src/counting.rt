// An event of a plan: judged, and then counted in the sketch.
ghost use Rattle.std.specs.Prelude.{true, false, ◌&&◌, cond, [], ◌∷◌, ◌≡◌, suc, ◌+◌, ◌*◌, ◌/◌, ◌<◌, ◌≤◌, ltb, leb, length, take, set};
ghost use Rattle.lists.specs.Lists.{any, every, elem};
ghost use Rattle.postings.specs.Order.{same_pair};
ghost use Rattle.answers.specs.Order.{event, past};
ghost use Rattle.state.specs.Views.{listed, listed_of, buffered};
ghost use Rattle.state.specs.Rules.{buffer_rule};
ghost use Rattle.buffer.specs.Places.{pair};
ghost use Rattle.identifiers.specs.Names.{number_of};
ghost use Rattle.identifiers.specs.Register.{entries};
ghost use Rattle.admission.specs.Admission.{first_of, told};
ghost use Rattle.events.specs.Verdicts.{tests_among, Weighed};
ghost use Rattle.forecasts.specs.Sketches.{identifier_at, is_place, names_with, Sound, flushed_sketch, counted_sketch, Enterable, Entered, Counted};

use super::{Ground, Sketch};
use answers::Refusal;
use state::{Buffer, Listed, Windows};

// What an event of a plan answers, and the sketch after it.
#[derive(Clone, Copy)]
pub struct Turn {
    pub answer: Result<(), Refusal>,
    pub sketch: Sketch,
}

// A refusal: the sketch stays.
fn refused(q: Sketch, why: Refusal) -> Turn
    ensures { result ≡ record { answer = Err why; sketch = q } }
{
    Turn {
        answer: Err(why),
        sketch: q,
    }
}

// Judges an event of the plan's identifier at a place by refusals 4 to 9.
fn judge(
    w: Windows,
    l: Listed,
    g: &Ground,
    places: &[u32],
    known: usize,
    at: usize,
) -> Result<u16, Refusal>
    requires { (known ≤ length places.now) × (every (is_place g.now.plan.now) (take known places.now) ≡ true)
        × (at < length (entries g.now.plan.now)) × (l.used ≤ 64) }
    ensures { Weighed (past 3 event) (tests_among w l (length g.now.register.now / 65) (names_with g.now.register.now g.now.plan.now places.now known) (identifier_at g.now.plan.now at))
        (number_of (names_with g.now.register.now g.now.plan.now places.now known) (identifier_at g.now.plan.now at)) result }
{
    if recordings::is_bad(g.plan, at) {
        return Err(Refusal::BadIdentifier);
    }
    let id = recordings::identifier_at(g.plan, at);
    let i = super::naming::find(g, places, known, id);
    events::judging::judge_number(w, l, g.register.len() / identifiers::ENTRY, i)
}

// Judges the flush of an event, where one is wanted.
fn judge_flush(wanted: bool, low: u16, blocks: u64, card: u32) -> Result<(), Refusal>
    requires { blocks ≤ 219043332045 }
    ensures { told result ≡ first_of (10 ∷ 11 ∷ []) ((wanted && leb 16 low) ∷ (wanted && ltb card (2 * suc blocks)) ∷ []) }
{
    if !wanted {
        return Ok(());
    }
    if low >= 16 {
        return Err(Refusal::LevelFull);
    }
    if 2 * blocks + 2 > card as u64 {
        return Err(Refusal::HalfFull);
    }
    Ok(())
}

// A flush, where one is wanted: one partition more at level 0, of one block, and an empty buffer.
fn flushed(q: Sketch, wanted: bool) -> Sketch
    requires { (q.blocks ≤ 219043332045) × (q.low ≤ 51) × (q.flushes ≤ q.low) }
    ensures { result ≡ cond wanted (flushed_sketch q) q }
{
    if !wanted {
        return q;
    }
    Sketch {
        buffer: Buffer::new(),
        blocks: q.blocks + 1,
        low: q.low + 1,
        flushes: q.flushes + 1,
        ..q
    }
}

// The event counted: the window's events, its identifiers, and the pair's count.
fn counted(q: Sketch, i: u16, known: u16) -> Sketch
    requires { (q.listed.used ≤ 64) × (length q.listed.ids ≡ 64 → q.listed ≡ listed_of (listed q.listed)) × (elem i (listed q.listed) ≡ false → length (listed q.listed) < 64)
        × (buffer_rule q.windows q.buffer ≡ true) × (q.windows.events < 32767)
        × (any (same_pair (pair i q.windows.current)) (buffered q.buffer) ≡ false → length (buffered q.buffer) < 128) }
    ensures { result ≡ counted_sketch q i known }
{
    let w = events::counting::count_window(q.windows);
    let l = events::counting::count_listed(q.listed, i);
    let b = events::counting::count_pair(q.buffer, q.windows, i);
    Sketch {
        windows: w,
        listed: l,
        buffer: b,
        known,
        ..q
    }
}

// The place of an identifier that is none of the `count` there are is kept behind those of the others; how many places are kept then.
fn note(places: &mut [u32], known: u16, count: usize, i: u16, at: usize) -> u16
    requires { (count ≤ i → known < length places.old) × (known ≤ 1024) × (at < 4294967296) }
    ensures { (result ≡ cond (leb count i) (suc known) known) × (places.new ≡ cond (leb count i) (set places.old known at) places.old) }
{
    if (i as usize) < count {
        return known;
    }
    places[known as usize] = at as u32;
    known + 1
}

// An event that refusals 4 to 9 do not stop, of the identifier with a number.
fn enter(q: Sketch, g: &Ground, places: &mut [u32], at: usize, i: u16) -> Turn
    requires { Enterable g.now.register.now g.now.used g.now.plan.now places.old q at i }
    ensures { Entered g.now.card g.now.register.now g.now.plan.now places.old q at result.answer result.sketch places.new }
{
    let wanted = events::counting::must_flush(q.buffer, i, q.windows.current);
    let t = flushed(q, wanted);
    if let Err(why) = judge_flush(wanted, q.low, q.blocks, g.card) {
        return refused(q, why);
    }
    let known = note(places, q.known, g.used + q.known as usize, i, at);
    Turn {
        answer: Ok(()),
        sketch: counted(t, i, known),
    }
}

// An event of the plan's identifier at a place.
pub fn count(q: Sketch, g: &Ground, places: &mut [u32], at: usize) -> Turn
    requires { Sound g.now.register.now g.now.plan.now places.old q
        × (at < length (entries g.now.plan.now)) × (at < 4294967296) }
    ensures { Counted g.now.card g.now.register.now g.now.plan.now places.old q at result.answer result.sketch places.new }
{
    let verdict = judge(q.windows, q.listed, g, places, q.known as usize, at);
    match verdict {
        Err(why) => refused(q, why),
        Ok(i) => enter(q, g, places, at, i),
    }
}
