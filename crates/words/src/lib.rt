// A slice of bytes as little-endian words. A place counts words, so that nothing above this crate counts bytes.
#![tactic(auto, using(crate::proofs::Views::lengths))]

ghost use Rattle.std.specs.Prelude.{◌≡◌, ◌*◌, ◌<◌, length, get_or, set, drop};
ghost use Rattle.words.specs.Words.{words};

// The word at a place.
pub fn word_at(bytes: &[u8], at: usize) -> u32
    requires { at < length (words bytes.now) }
    ensures { result ≡ get_or (words bytes.now) at 0 }
{
    let k = 4 * at;
    u32::from_le_bytes([bytes[k], bytes[k + 1], bytes[k + 2], bytes[k + 3]])
}

// One word changes; neither another word nor a byte past the last word does.
pub fn put_word(bytes: &mut [u8], at: usize, value: u32)
    requires { at < length (words bytes.old) }
    ensures put { words bytes.new ≡ set (words bytes.old) at value }
    ensures rest { drop (4 * length (words bytes.old)) bytes.new ≡ drop (4 * length (words bytes.old)) bytes.old }
{
    let k = 4 * at;
    bytes[k..k + 4].copy_from_slice(&value.to_le_bytes());
}
