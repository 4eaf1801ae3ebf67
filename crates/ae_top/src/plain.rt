//! The command `plain PROG TRACE`.
ghost use Rattle.std.specs.Prelude.{◌≡◌, ◌<◌, None, Some, ℕ, List, [], length, slice_index_or, IsErrOf};
ghost use Rattle.ae_nums.specs.Trace.{trace_text};
ghost use Rattle.ae_ports.specs.Files.{IsEmptyFile, SameOthers};
ghost use Rattle.rv_machine.specs.Outcomes.{items_in_run};
ghost use Rattle.ae_top.specs.Inner.Command.{Carries};
ghost use Rattle.ae_top.specs.Inner.Machine.{RanMachine};
ghost use Rattle.ae_top.specs.Inner.Tracing.{TraceGot};
ghost use Rattle.ae_top.specs.Plain.{KeepsPlain, TraceHas};
ghost use Rattle.ae_top.specs.World.{port, streams, world, Blames};

use crate::Status;
use crate::finishing::{status_of, tell_end};
use crate::no_file::status_without;
use crate::program::{Wanted, load_program};
use crate::task::name_at;
use ae_nums::LineWriter;
use ae_ports::{Failed, Sink, Source, Store, StoreSink, Word};
use rv_machine::{Machine, MachineFault, Outcome};
use std::alloc::Global;

/// Runs a machine that stands before its first step, with the lines of its items going to a sink, and gives the second
/// output the line of its ending. The last lines go to the sink before that, and only if no device has failed.
fn trace_to<I: Source, O: Sink, P: Sink, K: Sink>(
    machine: &mut Machine,
    fuel: u64,
    input: &mut I,
    out: &mut O,
    err: &mut P,
    sink: &mut K,
) -> Result<Outcome, MachineFault>
    requires ready { machine.old.kept ≡ None }
    requires no_note { machine.old.note ≡ None }
    ensures ran { let before = streams (port (I.told input.old) (I.faults input.old))
        (port (O.told out.old) (O.faults out.old)) (port (P.told err.old) (P.faults err.old)) in
        let now = streams (port (I.told input.new) (I.faults input.new))
        (port (O.told out.new) (O.faults out.new)) (port (P.told err.new) (P.faults err.new)) in
        RanMachine machine.old fuel result before now }
    ensures lines { (bytes : List ℕ) → I.told input.old ≡ Some bytes
        → TraceGot result (trace_text (items_in_run machine.old bytes fuel)) (K.told sink.old) (K.told sink.new) }
    ensures blames { Blames (IsErrOf result MachineFault.EventFault) (K.faults sink.old) (K.faults sink.new) }
    ensures input { I.same_rest input.old input.new }
    ensures out { O.same_rest out.old out.new }
    ensures err { P.same_rest err.old err.new }
    ensures sink { K.same_rest sink.old sink.new }
{
    let mut lines = LineWriter::new(sink);
    let outcome = machine.trace(fuel, input, out, err, &mut lines)?;
    match lines.finish() {
        Ok(()) => tell_end(outcome, err),
        Err(Failed) => Err(MachineFault::EventFault),
    }
}

/// Runs a machine that stands before its first step, with the lines of its items going to the file of this name, which is
/// empty.
fn trace_machine<S: Store, I: Source, O: Sink, P: Sink>(
    machine: &mut Machine,
    trace: &Word,
    fuel: u64,
    store: &mut S,
    input: &mut I,
    out: &mut O,
    err: &mut P,
) -> Result<Outcome, MachineFault>
    requires ready { machine.old.kept ≡ None }
    requires no_note { machine.old.note ≡ None }
    requires empty { IsEmptyFile (S.told store.old) trace.now }
    ensures ran { let before = streams (port (I.told input.old) (I.faults input.old))
        (port (O.told out.old) (O.faults out.old)) (port (P.told err.old) (P.faults err.old)) in
        let now = streams (port (I.told input.new) (I.faults input.new))
        (port (O.told out.new) (O.faults out.new)) (port (P.told err.new) (P.faults err.new)) in
        RanMachine machine.old fuel result before now }
    ensures lines { (bytes : List ℕ) → I.told input.old ≡ Some bytes
        → TraceHas result (trace_text (items_in_run machine.old bytes fuel)) (S.told store.new) trace.now }
    ensures blames { Blames (IsErrOf result MachineFault.EventFault) (S.faults store.old) (S.faults store.new) }
    ensures others { SameOthers (S.told store.old) (S.told store.new) trace.now }
    ensures store { S.same_rest store.old store.new }
    ensures input { I.same_rest input.old input.new }
    ensures out { O.same_rest out.old out.new }
    ensures err { P.same_rest err.old err.new }
{
    let mut sink = StoreSink::new(store, trace);
    trace_to(machine, fuel, input, out, err, &mut sink)
}

/// Runs the executable that the store has under the name at the place `prog` among these words, for at most `fuel` steps,
/// and writes the lines of its items to the file whose name is at the place `trace`. The outputs get what they get of `run`.
///
/// The lines go to the store in pieces of some thousand bytes. After a device's fault the store isn't called any more, and
/// TRACE has the front of them that was handed on before. A file that isn't accepted or has been rewritten is `Refused`.
/// Memory may be wanting before TRACE is made.
pub fn plain<S: Store, I: Source, O: Sink, P: Sink>(
    alloc: Global,
    words: &[Word],
    prog: u32,
    trace: u32,
    fuel: u64,
    store: &mut S,
    input: &mut I,
    out: &mut O,
    err: &mut P,
) -> Status
    requires prog { prog < length words.now }
    requires trace { trace < length words.now }
    ensures keeps { let before = world (port (S.told store.old) (S.faults store.old))
        (port (I.told input.old) (I.faults input.old)) (port (O.told out.old) (O.faults out.old))
        (port (P.told err.old) (P.faults err.old)) in
        let now = world (port (S.told store.new) (S.faults store.new))
        (port (I.told input.new) (I.faults input.new)) (port (O.told out.new) (O.faults out.new))
        (port (P.told err.new) (P.faults err.new)) in
        Carries (KeepsPlain prog (slice_index_or words.now prog []) (slice_index_or words.now trace []) fuel result before now)
        result before now }
    ensures store { S.same_rest store.old store.new }
    ensures input { I.same_rest input.old input.new }
    ensures out { O.same_rest out.old out.new }
    ensures err { P.same_rest err.old err.new }
{
    let trace = name_at(words, trace);
    let mut machine = match load_program(alloc, store, name_at(words, prog), Wanted::Original) {
        Ok(machine) => machine,
        Err(why) => return status_without(why, prog),
    };
    if store.make(trace).is_err() {
        return Status::StoreFault;
    }
    let answer = trace_machine(&mut machine, trace, fuel, store, input, out, err);
    status_of(fuel, answer)
}
