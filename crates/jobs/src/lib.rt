// The merge step that is lent the record of the merge in progress.
#![tactic(auto)]

ghost use Rattle.std.specs.Prelude.{◌≡◌};
ghost use Rattle.answers.specs.Numbers.{replied};
ghost use Rattle.windows.specs.Promises.{Gives};
ghost use Rattle.jobs.specs.Lent.{lent_of, lent_step_of};

use answers::Refusal;
use state::{MergeJob, State};
use windows::After;

// What a step gives back beside the state: the record of the merge in progress.
#[derive(Clone, Copy)]
struct Stepped {
    after: After<()>,
    job: MergeJob,
}

// A step with the record of the merge beside the state.
fn step_beside(s: State, job: MergeJob, card: &mut [u8]) -> Stepped
    ensures { Gives (lent_of s card.old job) (lent_step_of (lent_of s card.old job))
        (replied result.after.answer) (lent_of result.after.state card.new result.job) }
{
    let own = s.merge;
    if job != own {
        return Stepped {
            after: windows::refuse(s, Refusal::BrokenState),
            job,
        };
    }
    let after = engine::step_value(s, card);
    Stepped {
        after,
        job: after.state.merge,
    }
}

// A merge step: the lent record of the merge in progress is moved on. A record that is not the state's own is refused with 1.
pub fn step(s: State, job: &mut MergeJob, card: &mut [u8]) -> After<()>
    ensures { Gives (lent_of s card.old job.old) (lent_step_of (lent_of s card.old job.old))
        (replied result.answer) (lent_of result.state card.new job.new) }
{
    let m = step_beside(s, *job, card);
    *job = m.job;
    m.after
}
