// The mean count of an identifier, where its windows and its sum are known.
#![tactic(auto)]

ghost use Rattle.std.specs.Prelude.{◌≡◌, ◌*◌, ◌≤◌};
ghost use Rattle.answers.specs.Answers.{answer_of};
ghost use Rattle.answers.specs.Numbers.{averaged_as};
ghost use Rattle.averages.specs.Average.{averaging};

use answers::{Mean, Refusal};

// The sum divided by the number of windows, with what is left over. A window counts at most 32,767, so that the quotient has 16 bits.
pub fn divide(id: &[u8], windows: u32, total: u32) -> Result<Mean, Refusal>
    requires { (windows ≤ 65535) × (total ≤ 32767 * windows) }
    ensures { averaged_as result ≡ answer_of (averaging id.now windows total) }
{
    if identifiers::bad_length(id) {
        return Err(Refusal::BadIdentifier);
    }
    if windows == 0 {
        return Err(Refusal::Uncounted);
    }
    let quotient = total / windows;
    let remainder = total % windows;
    Ok(Mean {
        quotient: quotient as u16,
        remainder: remainder as u16,
        windows: windows as u16,
    })
}
