//! What a machine answers, and what it keeps and answers again.
ghost use Rattle.std.specs.Prelude.{◌≡◌};
ghost use Rattle.rv_machine.specs.Inner.Advance.{step_with};
ghost use Rattle.rv_machine.specs.Outcomes.{run_again, kept_by_step, kept_by_run};

use crate::acted::Acted;
use crate::{MachineFault, Outcome, Seen, Step};
use rv_code::Ending;

/// What a machine keeps, as an answer of a run.
pub(crate) fn as_outcome(kept: Result<Ending, MachineFault>) -> Result<Outcome, MachineFault>
    ensures { result ≡ run_again kept }
{
    match kept {
        Ok(ending) => Ok(Outcome::Ended(ending)),
        Err(fault) => Err(fault),
    }
}

/// What a machine keeps after a step.
pub(crate) fn kept_by_step(
    answer: Result<Step, MachineFault>,
) -> Option<Result<Ending, MachineFault>>
    ensures { result ≡ kept_by_step answer }
{
    match answer {
        Ok(Step::Went(_)) => None,
        Ok(Step::Ended(ending, _)) => Some(Ok(ending)),
        Err(fault) => Some(Err(fault)),
    }
}

/// What a machine keeps after a run.
pub(crate) fn kept_by_run(
    answer: Result<Outcome, MachineFault>,
) -> Option<Result<Ending, MachineFault>>
    ensures { result ≡ kept_by_run answer }
{
    match answer {
        Ok(Outcome::Spent) => None,
        Ok(Outcome::Ended(ending)) => Some(Ok(ending)),
        Err(fault) => Some(Err(fault)),
    }
}

/// What a step answers that fetched at this pc, and whose instruction did this.
#[inline(always)]
pub(crate) fn step_with(pc: u32, acted: Result<Acted, MachineFault>) -> Result<Step, MachineFault>
    ensures { result ≡ step_with pc acted }
{
    let fetch = Some(pc);
    match acted {
        Ok(Acted::Went(access)) => Ok(Step::Went(Seen { fetch, access })),
        Ok(Acted::Ended(ending)) => Ok(Step::Ended(
            ending,
            Seen {
                fetch,
                access: None,
            },
        )),
        Err(fault) => Err(fault),
    }
}
