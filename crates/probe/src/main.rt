// The command program: takes each line of standard input as a command, and writes the text of its answer to standard output. The probe has a card of 16
// blocks and a register of 64 entries. What lies between reading and writing is `sessions::lines`.
#![tactic(auto)]

ghost use Rattle.std.specs.Prelude.{[], ◌≤◌, length, take};
ghost use Rattle.sessions.specs.Lines.{hand_of, Serves};

use state::State;
use std::io::{Read, Stdin};

// The probe's state, how many bytes of a line are kept, and whether all texts were written.
#[derive(Clone, Copy)]
struct Session {
    state: State,
    kept: usize,
    good: bool,
}

// Takes in a piece of the input, and writes the texts out a batch at a time.
fn serve(
    s: State,
    card: &mut [u8],
    register: &mut [u8],
    line: &mut [u8],
    kept: usize,
    piece: &[u8],
    out: &mut [u8],
) -> Session
    requires { (kept ≤ 513) × (513 ≤ length line.old) × (1024 ≤ length out.old) }
    ensures { Serves (hand_of s card.old register.old (take kept line.old) []) piece.now result.good result.kept
        (hand_of result.state card.new register.new (take result.kept line.new) []) }
{
    let mut state = s;
    let mut n = kept;
    let mut good = true;
    let mut i: usize = 0;
    // no counted index: each turn goes on past what was taken in
    while i < piece.len() {
        let t = sessions::lines::take_some(state, card, register, line, n, &piece[i..], out);
        state = t.state;
        n = t.kept;
        i += t.passed;
        let used = t.used;
        good = io::write_all(1, &out[..used]);
        if !good {
            break;
        }
    }
    Session {
        state,
        kept: n,
        good,
    }
}

// Says on standard error what failed.
fn tell(message: &[u8]) {
    io::write_all(2, message);
}

// The last line needs no line feed.
fn serve_end(
    s: State,
    card: &mut [u8],
    register: &mut [u8],
    line: &[u8],
    kept: usize,
    out: &mut [u8],
)
    requires { (kept ≤ length line.now) × (1024 ≤ length out.old) }
{
    let d = sessions::lines::take_end(s, card, register, line, kept, out);
    let used = d.used;
    let good = io::write_all(1, &out[..used]);
    if !good {
        tell(b"probe: cannot write the output\n");
    }
}

// Reads to the end of the input. The turns are counted up to a number that no run comes to, since a proved loop has to end.
fn run(from: Stdin, s: State, card: &mut [u8], register: &mut [u8]) {
    let mut source = from;
    let mut line: [u8; 513] = [0; 513];
    let mut input = io::large_buffer();
    let mut out = io::large_buffer();
    let mut t = Session {
        state: s,
        kept: 0,
        good: true,
    };
    for _ in 0..u64::MAX {
        let n = match source.read(&mut input) {
            Ok(n) => n,
            Err(_) => {
                tell(b"probe: cannot read the input\n");
                return;
            }
        };
        if n == 0 {
            serve_end(t.state, card, register, &line, t.kept, &mut out);
            return;
        }
        t = serve(
            t.state,
            card,
            register,
            &mut line,
            t.kept,
            &input[..n],
            &mut out,
        );
        if !t.good {
            tell(b"probe: cannot write the output\n");
            return;
        }
    }
}

fn main(rt: HostRuntime) {
    let mut card = io::large_buffer();
    let mut register: [u8; 4160] = [0; 4160];
    let r = engine::start(&mut card, &mut register);
    match r.answer {
        Ok(()) => run(rt.stdin(), r.state, &mut card, &mut register),
        Err(_) => {
            tell(b"probe: the card or the register is refused\n");
        }
    }
}
