ghost use Rattle.std.specs.Prelude.{◌≡◌};
ghost use Rattle.ev_format.specs.Answers.{answer_of};

use crate::{EventFault, Next, Stop};
use ae_ports::Failed;

/// Why there is no further record: reading has stopped, or the source failed.
#[derive(Clone, Copy, Debug, PartialEq, Eq)]
pub enum Halt {
    Stopped(Stop),
    Failed,
}

impl Halt {
    /// What each call of `next` answers from then on.
    pub(crate) fn answer(self) -> Result<Next, EventFault>
        ensures { result ≡ answer_of self }
    {
        match self {
            Halt::Stopped(Stop::Cut) => Ok(Next::Cut),
            Halt::Stopped(Stop::Finished) => Ok(Next::Finished),
            Halt::Stopped(Stop::OtherProgram) => Err(EventFault::OtherProgram),
            Halt::Stopped(Stop::BadRecord { offset }) => Err(EventFault::BadRecord { offset }),
            Halt::Failed => Err(EventFault::SourceFault),
        }
    }
}

impl From<Failed> for Halt {
    ghost use Rattle.ev_format.specs.declared.halt.Halt.TheVariants as halts;

    ghost from_gives = { λ _ halt. halt ≡ halts.Failed };

    fn from(_: Failed) -> Halt {
        Halt::Failed
    }
}
