//! How a run ends: the line of its ending, and its status.
ghost use Rattle.std.specs.Prelude.{◌≡◌, ◌≤◌, ◌++◌, Ok, Err, IsErrOf, OnErr};
ghost use Rattle.ae_ports.specs.Content.{Appends, AppendsFront};
ghost use Rattle.ae_top.specs.EndingLines.{line_of_outcome};
ghost use Rattle.ae_top.specs.Inner.Machine.{TellsEnd};
ghost use Rattle.ae_top.specs.Running.{status_of};
ghost use Rattle.ae_top.specs.World.{Blames};

use crate::Status;
use crate::ending_lines::line_of_ending;
use ae_ports::{Failed, Sink, write_all};
use rv_code::Ending;
use rv_machine::{MachineFault, Outcome};

/// Gives the second output the line of a run's ending, if it has ended. The answer is then the run's own.
pub fn tell_end<P: Sink>(outcome: Outcome, err: &mut P) -> Result<Outcome, MachineFault>
    ensures tells { TellsEnd outcome result (P.told err.old) (P.told err.new) }
    ensures blames { Blames (IsErrOf result MachineFault.ErrFault) (P.faults err.old) (P.faults err.new) }
    ensures rest { P.same_rest err.old err.new }
{
    let Outcome::Ended(ending) = outcome else {
        return Ok(outcome);
    };
    match write_all(err, line_of_ending(&ending).bytes()) {
        Ok(()) => Ok(outcome),
        Err(Failed) => Err(MachineFault::ErrFault),
    }
}

/// The status of a run that had so much fuel. The machine's events and items go to files, so their fault is the store's.
pub fn status_of(fuel: u64, answer: Result<Outcome, MachineFault>) -> Status
    ensures { result ≡ status_of fuel answer }
{
    match answer {
        Ok(Outcome::Ended(Ending::Exit(_))) => Status::Done,
        Ok(Outcome::Ended(ending)) => Status::Faulted(ending),
        Ok(Outcome::Spent) => Status::FuelSpent { steps: fuel },
        Err(MachineFault::InputFault) => Status::InputFault,
        Err(MachineFault::OutFault) => Status::OutFault,
        Err(MachineFault::ErrFault) => Status::ErrFault,
        Err(MachineFault::EventFault) => Status::StoreFault,
    }
}
