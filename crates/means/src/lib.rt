// The mean count of an identifier.
#![tactic(auto)]

ghost use Rattle.std.specs.Prelude.{true, not, ◌≡◌, ◌*◌, length};
ghost use Rattle.words.specs.Words.{words as words_of};
ghost use Rattle.postings.specs.Sums.{frequency, amount};
ghost use Rattle.answers.specs.Answers.{answer_of, refuse_if};
ghost use Rattle.answers.specs.Numbers.{averaged_as};
ghost use Rattle.state.specs.Rules.{state_rule};
ghost use Rattle.state.specs.Views.{blocks, finished};
ghost use Rattle.state.specs.Shown.{shown_in};
ghost use Rattle.identifiers.specs.Register.{register_rule};
ghost use Rattle.partitions.specs.Reading.{stored};
ghost use Rattle.partitions.specs.Formed.{partitions_formed, identifier_formed};
ghost use Rattle.averages.specs.Average.{averaging};
ghost use Rattle.stretches.specs.Reached.{whole};
ghost use Rattle.queries.specs.Gathered.{Sound};
ghost use Rattle.means.specs.Mean.{Averages, AveragesRead};

use answers::{Mean, Refusal};
use postings::Stretch;
use state::{BLOCK_BYTES, MOST_BUFFERED, State};

// The stretch of all windows.
fn all_windows() -> Stretch
    ensures { result ≡ whole }
{
    Stretch {
        first: 1,
        last: 65535,
    }
}

// The mean of an identifier that the register has, where the state is as it is read: 3 for what is read of it, and then the division.
fn mean_known(s: State, card: &[u8], id: &[u8], number: u16) -> Result<Mean, Refusal>
    requires { (state_rule s ≡ true) × (length (words_of card.now) ≡ 1024 * blocks s)
        × (partitions_formed (words_of card.now) (blocks s) (finished s.partitions) ≡ true) }
    ensures { averaged_as result ≡ answer_of (refuse_if (not (identifier_formed (words_of card.now) s number)) 3
        (averaging id.now (frequency (shown_in whole s.windows) (stored (words_of card.now) s) number)
        (amount (shown_in whole s.windows) (stored (words_of card.now) s) number))) }
{
    let mut run: [u32; MOST_BUFFERED] = [0; MOST_BUFFERED];
    let mut heads: [u32; 208] = [0; 208];
    terms::opening::pack_run(s.buffer, &mut run);
    let end = 4 * s.partitions.used as usize + 4;
    let told = scores::counting::count_term(
        card,
        &run,
        &mut heads[..end],
        s,
        number,
        all_windows(),
    );
    let Some(told) = told else {
        return Err(Refusal::Malformed);
    };
    averages::divide(id, told.windows, told.total)
}

// A mean where the state is as it is read: 3 for all lists of its partitions, and then what is read of the identifier, if the register has it.
fn mean_read(s: State, card: &[u8], register: &[u8], id: &[u8]) -> Result<Mean, Refusal>
    requires { Sound s card.now register.now }
    ensures { AveragesRead s card.now register.now id.now result }
{
    if !census::lists_ok(card, s) {
        return Err(Refusal::Malformed);
    }
    let used = identifiers::used_entries(register);
    let number = identifiers::find(register, id);
    if number < used {
        return mean_known(s, card, id, number as u16);
    }
    averages::divide(id, 0, 0)
}

// A mean that is admitted: 3 for the finished partitions, and then what is read.
fn mean_admitted(s: State, card: &[u8], register: &[u8], id: &[u8]) -> Result<Mean, Refusal>
    requires { (state_rule s ≡ true) × (length card.now ≡ s.lengths.card) × (length register.now ≡ s.lengths.register) × (register_rule register.now ≡ true) }
    ensures { Averages s card.now register.now id.now result }
{
    let ps = s.partitions;
    if !partitions::partitions_ok(card, s.lengths.card / BLOCK_BYTES, ps) {
        return Err(Refusal::Malformed);
    }
    let read = stretches::read_by(s, all_windows());
    mean_read(read, card, register, id)
}

// The mean count of an identifier over the closed windows in which it counts.
pub fn mean(s: State, card: &[u8], register: &[u8], id: &[u8]) -> Result<Mean, Refusal>
    ensures { Averages s card.now register.now id.now result }
{
    admission::judge_probe(rules::state_ok(s), s.lengths, card, register)?;
    mean_admitted(s, card, register, id)
}
