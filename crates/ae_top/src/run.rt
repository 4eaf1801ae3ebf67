//! The command `run PROG`.
ghost use Rattle.std.specs.Prelude.{◌≡◌, ◌≢◌, ◌<◌, [], length, slice_index_or, None, Err};
ghost use Rattle.ae_top.specs.Inner.Command.{Carries};
ghost use Rattle.ae_top.specs.Inner.Machine.{RanMachine};
ghost use Rattle.ae_top.specs.Run.{KeepsRun};
ghost use Rattle.ae_top.specs.World.{port, streams, world};

use crate::Status;
use crate::finishing::{status_of, tell_end};
use crate::no_file::status_without;
use crate::program::{Wanted, load_program};
use crate::task::name_at;
use ae_ports::{Dropped, Sink, Source, Store, Word};
use rv_machine::{Machine, MachineFault, Outcome};
use std::alloc::Global;

/// Runs a machine that stands before its first step, and gives the second output the line of its ending.
fn run_machine<I: Source, O: Sink, P: Sink>(
    machine: &mut Machine,
    fuel: u64,
    input: &mut I,
    out: &mut O,
    err: &mut P,
) -> Result<Outcome, MachineFault>
    requires { machine.old.kept ≡ None }
    ensures ran { let before = streams (port (I.told input.old) (I.faults input.old))
        (port (O.told out.old) (O.faults out.old)) (port (P.told err.old) (P.faults err.old)) in
        let now = streams (port (I.told input.new) (I.faults input.new))
        (port (O.told out.new) (O.faults out.new)) (port (P.told err.new) (P.faults err.new)) in
        RanMachine machine.old fuel result before now }
    ensures served { result ≢ Err MachineFault.EventFault }
    ensures input { I.same_rest input.old input.new }
    ensures out { O.same_rest out.old out.new }
    ensures err { P.same_rest err.old err.new }
{
    let outcome = machine.run(fuel, input, out, err, &mut Dropped)?;
    tell_end(outcome, err)
}

/// Runs the executable that the store has under the name at the place `prog` among these words, for at most `fuel`
/// steps. The second output gets the ending's line behind what the program gave it.
///
/// A file that isn't accepted is `Refused`. Memory may be wanting before the first step.
pub fn run<S: Store, I: Source, O: Sink, P: Sink>(
    alloc: Global,
    words: &[Word],
    prog: u32,
    fuel: u64,
    store: &mut S,
    input: &mut I,
    out: &mut O,
    err: &mut P,
) -> Status
    requires { prog < length words.now }
    ensures keeps { let before = world (port (S.told store.old) (S.faults store.old))
        (port (I.told input.old) (I.faults input.old)) (port (O.told out.old) (O.faults out.old))
        (port (P.told err.old) (P.faults err.old)) in
        let now = world (port (S.told store.new) (S.faults store.new))
        (port (I.told input.new) (I.faults input.new)) (port (O.told out.new) (O.faults out.new))
        (port (P.told err.new) (P.faults err.new)) in
        Carries (KeepsRun prog (slice_index_or words.now prog []) fuel result before now) result before now }
    ensures store { S.same_rest store.old store.new }
    ensures input { I.same_rest input.old input.new }
    ensures out { O.same_rest out.old out.new }
    ensures err { P.same_rest err.old err.new }
{
    match load_program(alloc, store, name_at(words, prog), Wanted::Any) {
        Ok(mut machine) => status_of(fuel, run_machine(&mut machine, fuel, input, out, err)),
        Err(why) => status_without(why, prog),
    }
}
