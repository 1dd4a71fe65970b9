// The program's input cut into lines as it comes in, piece by piece, and each line obeyed. Texts are gathered in a lent buffer.
ghost use Rattle.std.specs.Prelude.{[], ◌+◌, ◌≤◌, length, take};
ghost use Rattle.sessions.specs.Lines.{hand_of, Keeps, Answers, Takes, Ends};

use super::Done;
use state::State;

// How many bytes of a line are kept, and how many of a piece of the input were taken in for that.
#[derive(Clone, Copy)]
struct Kept {
    kept: usize,
    passed: usize,
}

// The state after some bytes of a piece, how many bytes of the line at hand are kept, how many of the piece were taken in, and how many of text there are.
#[derive(Clone, Copy)]
pub struct Taken {
    pub state: State,
    pub kept: usize,
    pub passed: usize,
    pub used: usize,
}

// Takes in a piece's bytes up to a line feed, or all. Of a line longer than 512 bytes the first 513 are kept, which are no command either.
fn keep_some(line: &mut [u8], kept: usize, piece: &[u8]) -> Kept
    requires { (kept ≤ 513) × (513 ≤ length line.old) }
    ensures { Keeps line.old kept piece.now line.new result.kept result.passed }
{
    let mut n = kept;
    for i in 0..piece.len() {
        let b = piece[i];
        if b == b'\n' {
            return Kept { kept: n, passed: i };
        }
        if n < 513 {
            line[n] = b;
            n += 1;
        }
    }
    Kept {
        kept: n,
        passed: piece.len(),
    }
}

// Obeys a line, its text behind the first `used` bytes of the buffer.
fn answer(
    s: State,
    card: &mut [u8],
    register: &mut [u8],
    line: &[u8],
    out: &mut [u8],
    used: usize,
) -> Done
    requires { used + 1024 ≤ length out.old }
    ensures { Answers (hand_of s card.old register.old line.now (take used out.old)) (length out.new) result.used
        (hand_of result.state card.new register.new [] (take result.used out.new)) }
{
    let mut d = super::obey(s, card, register, line, &mut out[used..]);
    d.used = used + d.used;
    d
}

// Takes in the bytes of a piece until it ends, or the buffer may be too full for one more line's text.
pub fn take_some(
    s: State,
    card: &mut [u8],
    register: &mut [u8],
    line: &mut [u8],
    kept: usize,
    piece: &[u8],
    out: &mut [u8],
) -> Taken
    requires { (kept ≤ 513) × (513 ≤ length line.old) }
    ensures { Takes (hand_of s card.old register.old (take kept line.old) []) piece.now result.passed (length out.new) result.used result.kept
        (hand_of result.state card.new register.new (take result.kept line.new) (take result.used out.new)) }
{
    let mut state = s;
    let mut used: usize = 0;
    let first = keep_some(line, kept, piece);
    let mut n = first.kept;
    let mut i = first.passed;
    // A turn moves on by a line, not by a byte.
    while i < piece.len() {
        if out.len() - used < 1024 {
            break;
        }
        let d = answer(state, card, register, &line[..n], out, used);
        state = d.state;
        used = d.used;
        i += 1;
        let next = keep_some(line, 0, &piece[i..]);
        n = next.kept;
        i += next.passed;
    }
    Taken {
        state,
        kept: n,
        passed: i,
        used,
    }
}

// The end of the input: a last line without line feed is a line.
pub fn take_end(
    s: State,
    card: &mut [u8],
    register: &mut [u8],
    line: &[u8],
    kept: usize,
    out: &mut [u8],
) -> Done
    requires { (kept ≤ length line.now) × (1024 ≤ length out.old) }
    ensures { Ends (hand_of s card.old register.old (take kept line.now) []) (length out.new) result.used
        (hand_of result.state card.new register.new [] (take result.used out.new)) }
{
    if kept == 0 {
        return Done { state: s, used: 0 };
    }
    answer(s, card, register, &line[..kept], out, 0)
}
