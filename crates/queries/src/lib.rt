// The query.
#![tactic(auto)]

ghost use Rattle.std.specs.Prelude.{true, [], map, ◌≡◌, ◌+◌, ◌-◌, ◌*◌, length};
ghost use Rattle.words.specs.Words.{words as words_of};
ghost use Rattle.state.specs.Rules.{state_rule};
ghost use Rattle.identifiers.specs.Register.{register_rule};
ghost use Rattle.ranking.specs.Top.{top_of};
ghost use Rattle.queries.specs.Query.{numbers};
ghost use Rattle.queries.specs.Gathered.{Sound, Readied, Gathered};
ghost use Rattle.queries.specs.Finds.{AsksValue, AsksRest, AsksRead};

use answers::{Found, Refusal};
use judging::Known;
use postings::Stretch;
use ranking::Top;
use state::{BLOCK_BYTES, MOST_BUFFERED, State};

pub mod judging; // judging a query and gathering what it reads
pub mod walking; // the second pass, over the terms of a query's identifiers

// What a query answers, and its hits.
#[derive(Clone, Copy)]
pub struct Answered {
    pub answer: Result<Found, Refusal>,
    pub top: Top,
}

// A refusal: no hits.
fn refuse(why: Refusal) -> Answered
    ensures { result ≡ record { answer = Err why; top = top_of [] } }
{
    Answered {
        answer: Err(why),
        top: ranking::no_hits(),
    }
}

// Gathers a query's identifiers, with room for the heads of one that is judged and not kept. The room is this function's own, so that the compiler lays hits there
// afterwards and a query stays within 16 KB of stack.
fn gathered(
    s: State,
    card: &[u8],
    register: &[u8],
    ids: &[&[u8]],
    run: &[u32],
    heads: &mut [u32],
    t: Stretch,
    live: u16,
) -> Option<Known>
    requires { Sound s card.now register.now × Readied s card.now run.now (length heads.old) (4 * s.partitions.used + 4) }
    ensures { Gathered (words_of card.now) run.now s t live (numbers register.now (map (λ x. x.now) ids.now)) result heads.new }
{
    let mut spare: [u32; 208] = [0; 208];
    let end = 4 * s.partitions.used as usize + 4;
    judging::gather(
        s,
        card,
        register,
        ids,
        run,
        heads,
        &mut spare[..end],
        t,
        live,
    )
}

// The rest of a query on sound buffers, where the state is as the stretch has it read and `live` is N: 3 for what is read of its identifiers, 4, 14 and 17, and
// then the second pass.
fn search_with(
    s: State,
    card: &[u8],
    register: &[u8],
    ids: &[&[u8]],
    places: usize,
    run: &[u32],
    heads: &mut [u32],
    t: Stretch,
    live: u16,
) -> Answered
    requires { Sound s card.now register.now × Readied s card.now run.now (length heads.old) (4 * s.partitions.used + 4) }
    ensures { AsksRest s card.now register.now t live (map (λ x. x.now) ids.now) places result }
{
    let Some(k) = gathered(s, card, register, ids, run, heads, t, live) else {
        return refuse(Refusal::Malformed);
    };
    if identifiers::many::any_bad(ids) {
        return refuse(Refusal::BadIdentifier);
    }
    if ranking::bad_query(ids, places) {
        return refuse(Refusal::BadQuery);
    }
    if t.last < t.first {
        return refuse(Refusal::BadStretch);
    }
    let m = s.partitions.used as usize + 1;
    let current = s.windows.current as u32;
    let top = walking::walk(
        card,
        run,
        heads,
        k.used as usize,
        m,
        places as u16,
        current,
        t.first as u32,
        t.last as u32,
    );
    Answered {
        answer: Ok(Found {
            hits: top.used,
            taken: k.taken,
        }),
        top,
    }
}

// Makes room for the heads of five terms of 52 lists each, and for the buffer's postings as words. The calls from two places keep the compiler from putting this room
// into their frame, below which the register is judged and N is counted.
fn search_sound(
    s: State,
    card: &[u8],
    register: &[u8],
    ids: &[&[u8]],
    t: Stretch,
    live: u16,
    places: usize,
) -> Answered
    requires { Sound s card.now register.now }
    ensures { AsksRest s card.now register.now t live (map (λ x. x.now) ids.now) places result }
{
    let mut run: [u32; MOST_BUFFERED] = [0; MOST_BUFFERED];
    let mut heads: [u32; 1060] = [0; 1060];
    terms::opening::pack_run(s.buffer, &mut run);
    search_with(s, card, register, ids, places, &run, &mut heads, t, live)
}

// A query where the state is as the stretch has it read: all lists of its partitions are judged, and N is counted.
fn search_read(
    s: State,
    card: &[u8],
    register: &[u8],
    ids: &[&[u8]],
    t: Stretch,
    places: usize,
) -> Answered
    requires { Sound s card.now register.now }
    ensures { AsksRead s card.now register.now t (map (λ x. x.now) ids.now) places result }
{
    let Some(live) = census::count(card, s, t) else {
        return refuse(Refusal::Malformed);
    };
    let live = live as u16;
    if places == 32 {
        return search_sound(s, card, register, ids, t, live, 32);
    }
    search_sound(s, card, register, ids, t, live, places)
}

// A query that is admitted: 3 for the finished partitions, and then what the stretch has read.
fn search_admitted(
    s: State,
    card: &[u8],
    register: &[u8],
    ids: &[&[u8]],
    t: Stretch,
    places: usize,
) -> Answered
    requires { (state_rule s ≡ true) × (length card.now ≡ s.lengths.card) × (length register.now ≡ s.lengths.register) × (register_rule register.now ≡ true) }
    ensures { AsksValue s card.now register.now t (map (λ x. x.now) ids.now) places result }
{
    let ps = s.partitions;
    if !partitions::partitions_ok(card, s.lengths.card / BLOCK_BYTES, ps) {
        return refuse(Refusal::Malformed);
    }
    let read = stretches::read_by(s, t);
    search_read(read, card, register, ids, t, places)
}

// The query of a stretch of windows, with a list of so many places.
pub fn search(
    s: State,
    card: &[u8],
    register: &[u8],
    ids: &[&[u8]],
    t: Stretch,
    places: usize,
) -> Answered
    ensures { AsksValue s card.now register.now t (map (λ x. x.now) ids.now) places result }
{
    if let Err(why) = admission::judge_probe(rules::state_ok(s), s.lengths, card, register) {
        return refuse(why);
    }
    search_admitted(s, card, register, ids, t, places)
}
