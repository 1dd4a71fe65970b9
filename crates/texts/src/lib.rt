// Lines of text: the fields of a line, the number that a field gives, and the text of an answer.
#![tactic(auto)]

ghost use Rattle.std.specs.Prelude.{map, ◌≡◌, ◌≤◌, length, take};
ghost use Rattle.texts.specs.Fields.{parts_of, number_in};

pub mod writing; // the text of an answer

// Puts the fields of a line into `parts` and gives their number: 0 where the line is longer than 512 bytes or a field is empty.
pub fn split<'a>(line: &'a [u8], parts: &mut [&'a [u8]]) -> usize
    requires { 256 ≤ length parts.old }
    ensures { (map (λ x. x.now) (take result parts.new) ≡ parts_of line.now) × (result ≤ 256) × (length parts.new ≡ length parts.old) }
{
    if 512 < line.len() {
        return 0;
    }
    let mut n: usize = 0;
    let mut start: usize = 0;
    for i in 0..line.len() {
        if line[i] == b' ' {
            if start == i {
                return 0;
            }
            parts[n] = &line[start..i];
            n += 1;
            start = i + 1;
        }
    }
    if start == line.len() {
        return 0;
    }
    parts[n] = &line[start..];
    n + 1
}

// The number of 1 to 5 digits that a field is.
pub fn read_number(field: &[u8]) -> Option<u32>
    ensures { result ≡ number_in field.now }
{
    if !((1 <= field.len()) & (field.len() <= 5)) {
        return None;
    }
    let mut n: u32 = 0;
    for b in field {
        if !b.is_ascii_digit() {
            return None;
        }
        n = n * 10 + (*b - b'0') as u32;
    }
    Some(n)
}
