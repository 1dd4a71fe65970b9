// What calls judge first: refusal 1 of the state, 2 of the buffers lent, and 3 of the register.
#![tactic(auto)]

ghost use Rattle.std.specs.Prelude.{true, [], ◌∷◌, ◌≡◌, ◌≤◌};
ghost use Rattle.admission.specs.Admission.{first_of, told, card_tests, probe_tests};

use answers::Refusal;
use state::Lengths;

// Judges whether the state is sound, as its rules said, and then the card's length. The state itself is not handed on: a copy of it is large.
pub fn judge_card(sound: bool, l: Lengths, card: &[u8]) -> Result<(), Refusal>
    ensures { told result ≡ first_of (1 ∷ 2 ∷ []) (card_tests sound l card.now) }
{
    if !sound {
        return Err(Refusal::BrokenState);
    }
    if card.len() != l.card as usize {
        return Err(Refusal::WrongLength);
    }
    Ok(())
}

// The same with the register's length, and then the register's rule. A sound state's register has at most 1,024 entries of 65 bytes.
pub fn judge_probe(sound: bool, l: Lengths, card: &[u8], register: &[u8]) -> Result<(), Refusal>
    requires { sound ≡ true → l.register ≤ 66560 }
    ensures { told result ≡ first_of (1 ∷ 2 ∷ 3 ∷ []) (probe_tests sound l card.now register.now) }
{
    if !sound {
        return Err(Refusal::BrokenState);
    }
    if !((card.len() == l.card as usize) & (register.len() == l.register as usize)) {
        return Err(Refusal::WrongLength);
    }
    if !registers::register_ok(register) {
        return Err(Refusal::Malformed);
    }
    Ok(())
}
