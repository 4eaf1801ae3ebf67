ghost use Rattle.std.specs.Prelude.{◌≡◌};
ghost use Rattle.ae_top.specs.Status.{exit_code_of};

use crate::{EventsRefusal, Refusal};
use rv_code::Ending;
use schema_form::SchemaFault;

/// What came of a command.
#[derive(Clone, Copy, Debug, PartialEq, Eq)]
pub enum Status {
    /// The command did all its work. A run that it made ended with an exit.
    Done,
    /// The words spell no command that is carried out.
    Usage,
    /// The event file ends before a record says that the run ended. All that it has was worked on.
    CutShort,
    /// The file that this word names, counted from 0, isn't there.
    Missing { word: u32 },
    /// The file isn't taken as an executable.
    Refused(Refusal),
    /// The file isn't a schema.
    BadSchema(SchemaFault),
    /// The file isn't an event file of the program.
    BadEvents(EventsRefusal),
    /// The store failed.
    StoreFault,
    /// The input failed.
    InputFault,
    /// The output failed.
    OutFault,
    /// The second output failed.
    ErrFault,
    /// The run made all the steps that it may take, this many, and none ended it.
    FuelSpent { steps: u64 },
    /// The run ended otherwise than with an exit.
    Faulted(Ending),
    /// Memory was wanting.
    Memory,
}

impl Status {
    /// The exit code of the program.
    pub fn code(&self) -> u8
        ensures { result ≡ exit_code_of self.now }
    {
        match self {
            Status::Done => 0,
            Status::Usage => 2,
            Status::CutShort => 3,
            Status::Missing { .. } => 4,
            Status::Refused(_) => 5,
            Status::BadSchema(_) => 6,
            Status::BadEvents(_) => 7,
            Status::StoreFault => 8,
            Status::InputFault => 9,
            Status::OutFault => 10,
            Status::ErrFault => 10,
            Status::FuelSpent { .. } => 11,
            Status::Faulted(_) => 12,
            Status::Memory => 70,
        }
    }
}
