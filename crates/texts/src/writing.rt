// Text written behind the first bytes of a lent buffer. Each function gives how many bytes stand there then.
ghost use Rattle.std.specs.Prelude.{[], ◌∷◌, ◌++◌, map, ◌+◌, ◌*◌, ◌≤◌, ◌<◌, length, take};
ghost use Rattle.lists.specs.Lists.{joined};
ghost use Rattle.answers.specs.Answers.{refused, hits as Answer·hits};
ghost use Rattle.answers.specs.Numbers.{refusal_number, replied, opened_as, found_as};
ghost use Rattle.texts.specs.Texts.{decimal, pair_text, hit_text, answer_text, unknown_text, Wrote, Says, Few};

use answers::{Found, Hit, Refusal};

// One byte.
fn put_byte(out: &mut [u8], n: usize, b: u8) -> usize
    requires { n < length out.old }
    ensures { Wrote out.old n (b ∷ []) out.new result }
{
    out[n] = b;
    n + 1
}

// The bytes of `added`.
fn put_bytes(out: &mut [u8], n: usize, added: &[u8]) -> usize
    requires { n + length added.now ≤ length out.old }
    ensures { Wrote out.old n added.now out.new result }
{
    let end = n + added.len();
    out[n..end].copy_from_slice(added);
    end
}

// A number in decimal: at most 10 bytes.
fn put_number(out: &mut [u8], n: usize, value: u32) -> usize
    requires { n + 10 ≤ length out.old }
    ensures { Wrote out.old n (decimal value) out.new result × (result ≤ n + 10) }
{
    let mut digits: [u8; 20] = [0; 20];
    let k = io::decimal(value as u64, &mut digits);
    put_bytes(out, n, &digits[..k])
}

// A line of two numbers: at most 22 bytes.
fn put_pair(out: &mut [u8], n: usize, a: u32, b: u32) -> usize
    requires { n + 22 ≤ length out.old }
    ensures { Wrote out.old n (pair_text a b) out.new result × (result ≤ n + 22) }
{
    let first = put_number(out, n, a);
    let space = put_byte(out, first, b' ');
    let second = put_number(out, space, b);
    put_byte(out, second, b'\n')
}

// The lines of the first `used` hits.
fn put_hits(out: &mut [u8], n: usize, hits: [Hit; 32], used: usize) -> usize
    requires { (used ≤ 32) × (n + used * 22 ≤ length out.old) }
    ensures { Wrote out.old n (joined (map hit_text (take used hits))) out.new result × (result ≤ n + used * 22) }
{
    let mut m = n;
    for i in 0..used {
        let h = hits[i];
        m = put_pair(out, m, h.window as u32, h.score);
    }
    m
}

// A refusal: `!` and its number.
fn put_refusal(out: &mut [u8], why: Refusal) -> usize
    requires { 1024 ≤ length out.old }
    ensures { Says out.new result (answer_text (refused (refusal_number why))) }
{
    let mark = put_byte(out, 0, b'!');
    let number = put_number(out, mark, u32::from(why));
    put_byte(out, number, b'\n')
}

// A line of one number.
fn put_line(out: &mut [u8], value: u32) -> usize
    requires { 1024 ≤ length out.old }
    ensures { Says out.new result (decimal value ++ (10 ∷ [])) }
{
    let number = put_number(out, 0, value);
    put_byte(out, number, b'\n')
}

// The text of an answer that gives no value.
pub fn write_reply(out: &mut [u8], answer: Result<(), Refusal>) -> usize
    requires { 1024 ≤ length out.old }
    ensures { Says out.new result (answer_text (replied answer)) }
{
    match answer {
        Ok(()) => put_line(out, 0),
        Err(why) => put_refusal(out, why),
    }
}

// The text of an open's answer.
pub fn write_opened(out: &mut [u8], answer: Result<u16, Refusal>) -> usize
    requires { 1024 ≤ length out.old }
    ensures { Says out.new result (answer_text (opened_as answer)) }
{
    match answer {
        Ok(window) => put_line(out, window as u32),
        Err(why) => put_refusal(out, why),
    }
}

// A query's lines: how many hits and the postings taken, then the hits.
fn put_found(out: &mut [u8], used: u16, taken: u32, hits: [Hit; 32]) -> usize
    requires { (1024 ≤ length out.old) × (used ≤ 32) }
    ensures { Says out.new result (answer_text (Answer·hits (take used hits) taken)) }
{
    let n = put_pair(out, 0, used as u32, taken);
    put_hits(out, n, hits, used as usize)
}

// The text of a query's answer, with its hits beside it.
pub fn write_found(out: &mut [u8], answer: Result<Found, Refusal>, hits: [Hit; 32]) -> usize
    requires { (1024 ≤ length out.old) × Few answer }
    ensures { Says out.new result (answer_text (found_as answer hits)) }
{
    match answer {
        Ok(f) => put_found(out, f.hits, f.taken, hits),
        Err(why) => put_refusal(out, why),
    }
}

// The text for a line that is no command.
pub fn write_unknown(out: &mut [u8]) -> usize
    requires { 1024 ≤ length out.old }
    ensures { Says out.new result unknown_text }
{
    let mark = put_byte(out, 0, b'?');
    put_byte(out, mark, b'\n')
}
