// A query's identifiers: what is read of them is judged and counted, and they are tested.
ghost use Rattle.std.specs.Prelude.{map, ◌*◌, ◌≤◌, ◌<◌, length};
ghost use Rattle.words.specs.Words.{words as words_of};
ghost use Rattle.queries.specs.Query.{numbers};
ghost use Rattle.queries.specs.Gathered.{Sound, Readied, KeptOf, Gathered};

use postings::Stretch;
use state::State;

// How many of the first five identifiers have a term, and how many postings these have.
#[derive(Clone, Copy)]
pub struct Known {
    pub used: u16,
    pub taken: u32,
}

// One identifier more, if what is read of it is well formed. A query of more than five is refused, so that no further one is kept: it is judged in the spare heads alone.
fn keep_one(
    s: State,
    card: &[u8],
    run: &[u32],
    heads: &mut [u32],
    spare: &mut [u32],
    k: Known,
    id: u16,
    t: Stretch,
    live: u16,
) -> Option<Known>
    requires { Readied s card.now run.now (length heads.old) (length spare.old) × (k.used ≤ 5) × (k.taken ≤ 3407872 * k.used) }
    ensures { KeptOf (words_of card.now) run.now s t live k heads.old id result heads.new }
{
    if k.used >= 5 {
        let fine = scores::counting::judge_term(card, run, spare, s, id, t);
        return fine.then_some(k);
    }
    let m = s.partitions.used as usize + 1;
    let size = 4 * m + 4;
    let at = size * k.used as usize;
    let end = at + size;
    let taken = scores::counting::keep_term(card, run, &mut heads[at..end], spare, s, id, t, live)?;
    Some(Known {
        used: k.used + 1,
        taken: k.taken + taken,
    })
}

// Looks up every identifier, judges what is read of it, and keeps the terms of the first five: `None` where what is read is malformed.
pub fn gather(
    s: State,
    card: &[u8],
    register: &[u8],
    ids: &[&[u8]],
    run: &[u32],
    heads: &mut [u32],
    spare: &mut [u32],
    t: Stretch,
    live: u16,
) -> Option<Known>
    requires { Sound s card.now register.now × Readied s card.now run.now (length heads.old) (length spare.old) }
    ensures { Gathered (words_of card.now) run.now s t live (numbers register.now (map (λ x. x.now) ids.now)) result heads.new }
{
    let used = identifiers::used_entries(register);
    let mut known = Known { used: 0, taken: 0 };
    for id in ids {
        let number = identifiers::find(register, id);
        if number < used {
            known = keep_one(s, card, run, heads, spare, known, number as u16, t, live)?;
        }
    }
    Some(known)
}
