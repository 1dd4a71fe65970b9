// Lines of commands obeyed on a probe, one at a time.
#![tactic(auto)]

pub mod lines; // the input cut into lines

ghost use Rattle.std.specs.Prelude.{map, ◌≤◌, length};
ghost use Rattle.std.specs.Prelude.{None, Some};
ghost use Rattle.answers.specs.Numbers.{replied};
ghost use Rattle.engine.specs.Calls.{Open, Query, probe_call};
ghost use Rattle.windows.specs.Promises.{Gives, probe_of};
ghost use Rattle.stretches.specs.Reached.{whole};
ghost use Rattle.commands.specs.Commands.{changing, change_reach, call_in, command_of};
ghost use Rattle.sessions.specs.Answering.{Obeys};
ghost use Rattle.sessions.specs.Alone.{ObeysAlone};

use commands::{Change, Order};
use postings::Stretch;
use state::State;
use windows::After;

// The state after a line, and how many bytes its text has.
#[derive(Clone, Copy)]
pub struct Done {
    pub state: State,
    pub used: usize,
}

// A call whose answer gives no value.
fn reply_to(
    s: State,
    card: &mut [u8],
    register: &mut [u8],
    parts: &[&[u8]],
    change: Change,
) -> After<()>
    requires { change_reach change ≤ length parts.now }
    ensures { Gives (probe_of s card.old register.old) (probe_call (probe_of s card.old register.old) (changing change (map (λ x. x.now) parts.now)))
        (replied result.answer) (probe_of result.state card.new register.new) }
{
    match change {
        Change::Event => {
            let id = parts[1];
            engine::event(s, card, register, id)
        }
        Change::Close => engine::close(s),
        Change::Remove(window) => engine::remove(s, card, window),
        Change::Flush => engine::flush(s, card),
        Change::Step => engine::step_value(s, card),
    }
}

// The same, with its text.
fn changed(
    s: State,
    card: &mut [u8],
    register: &mut [u8],
    parts: &[&[u8]],
    change: Change,
    out: &mut [u8],
) -> Done
    requires { (change_reach change ≤ length parts.now) × (1024 ≤ length out.old) }
    ensures { Obeys (probe_of s card.old register.old) (Some (changing change (map (λ x. x.now) parts.now)))
        out.new result.used (probe_of result.state card.new register.new) }
{
    let r = reply_to(s, card, register, parts, change);
    Done {
        state: r.state,
        used: texts::writing::write_reply(out, r.answer),
    }
}

// An open.
fn opened(s: State, out: &mut [u8]) -> Done
    requires { 1024 ≤ length out.old }
    ensures { ObeysAlone s (Some Open) out.new result.used result.state }
{
    let r = engine::open(s);
    Done {
        state: r.state,
        used: texts::writing::write_opened(out, r.answer),
    }
}

// A query of all windows with so many places; it leaves everything as it is.
fn asked(s: State, card: &[u8], register: &[u8], ids: &[&[u8]], places: u32, out: &mut [u8]) -> Done
    requires { 1024 ≤ length out.old }
    ensures { Obeys (probe_of s card.now register.now) (Some (Query places whole (map (λ x. x.now) ids.now)))
        out.new result.used (probe_of result.state card.now register.now) }
{
    let t = Stretch {
        first: 1,
        last: 65535,
    };
    let r = engine::query_value(s, card, register, ids, t, places as usize);
    Done {
        state: s,
        used: texts::writing::write_found(out, r.answer, r.top.hits),
    }
}

// No command: nothing but the mark is written.
fn unknown(s: State, out: &mut [u8]) -> Done
    requires { 1024 ≤ length out.old }
    ensures { ObeysAlone s None out.new result.used result.state }
{
    Done {
        state: s,
        used: texts::writing::write_unknown(out),
    }
}

// What a line's fields ask for is done, and the text of the answer written.
fn obey_fields(
    s: State,
    card: &mut [u8],
    register: &mut [u8],
    parts: &[&[u8]],
    out: &mut [u8],
) -> Done
    requires { 1024 ≤ length out.old }
    ensures { Obeys (probe_of s card.old register.old) (call_in (map (λ x. x.now) parts.now))
        out.new result.used (probe_of result.state card.new register.new) }
{
    let Some(order) = commands::order_of(parts) else {
        return unknown(s, out);
    };
    match order {
        Order::Open => opened(s, out),
        Order::Change(change) => changed(s, card, register, parts, change, out),
        Order::Query(places) => asked(s, &*card, &*register, &parts[2..], places, out),
    }
}

// A line obeyed: the text of its answer, and what is there afterwards.
pub fn obey(s: State, card: &mut [u8], register: &mut [u8], line: &[u8], out: &mut [u8]) -> Done
    requires { 1024 ≤ length out.old }
    ensures { Obeys (probe_of s card.old register.old) (command_of line.now)
        out.new result.used (probe_of result.state card.new register.new) }
{
    let mut parts: [&[u8]; 256] = [line; 256];
    let n = texts::split(line, &mut parts);
    obey_fields(s, card, register, &parts[..n], out)
}
