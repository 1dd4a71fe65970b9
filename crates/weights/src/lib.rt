// The weights of a score: that of a count, and that of how few windows have an identifier.
#![tactic(auto)]

pub mod logarithms;

ghost use Rattle.std.specs.Prelude.{◌≡◌, ◌+◌, ◌≤◌, ◌^◌};
ghost use Rattle.weights.specs.Weights.{tf_weight, idf_weight, Highest};

// The weight of a count of events.
pub fn tf_weight(f: u16) -> u32
    requires { f ≤ 32767 }
    ensures weight { result ≡ tf_weight f }
    ensures highest { Highest ((f + 1) ^ 16) result }
{
    logarithms::sixteenths(f as u32 + 1)
}

// The weight of an identifier that f of n windows have. A card from elsewhere may say an f past n.
pub fn idf_weight(n: u16, f: u16) -> u32
    ensures { result ≡ idf_weight n f }
{
    if f == 0 {
        return 0;
    }
    if n < f {
        return 0;
    }
    logarithms::sixteenths(n as u32) - logarithms::sixteenths(f as u32)
}
