//! The text of slices.
ghost use Rattle.std.specs.Prelude.{◌≡◌, ◌≤◌, true, [], ◌∷◌, OnOk, OnErr, IsErrOf, filter};
ghost use Rattle.ae_nums.specs.Writer.{Puts};
ghost use Rattle.ae_ports.specs.Fault.{HasRisen};
ghost use Rattle.reach_slice.specs.Slices.{is_access};
ghost use Rattle.ae_print.specs.Inner.SomePut.{PutsSome};
ghost use Rattle.ae_print.specs.Lines.{AreFirstLines, AreLines};
ghost use Rattle.ae_print.specs.SliceText.{IsFirstOfSliceText, IsSliceLine, IsSliceText, slice_line};
ghost use Rattle.ae_print.specs.SomeText.{AppendsFrontOfSome, AppendsSome};

use crate::PrintFault;
use crate::spaced::write_spaced;
use ae_nums::{LineWriter, hex8};
use ae_ports::{Failed, Sink};
use flow_graph::{Graph, address_at};
use reach_slice::{Reaching, SliceFault};
use rv_code::count_in;
use std::alloc::Global;

/// Writes the line of an access with this slice.
fn write_slice<K: Sink>(
    access: u32,
    slice: &[u32],
    lines: &mut LineWriter<'_, K>,
) -> Result<(), Failed>
    ensures { Puts K.told K.faults K.same_rest lines.old lines.new (slice_line access slice.now) result }
{
    lines.write(&hex8(access))?;
    write_spaced(slice, lines)?;
    lines.write(b"\n")
}

/// Writes the line of the word at the address, if it is a load or store.
fn write_slice_at<K: Sink>(
    alloc: Global,
    reaching: &Reaching,
    address: u32,
    lines: &mut LineWriter<'_, K>,
) -> Result<(), PrintFault>
    ensures all { OnOk result
        (PutsSome K.told K.faults K.same_rest (AreLines (IsSliceLine reaching.now) (filter (is_access reaching.now) (address ∷ []))) lines.old lines.new) }
    ensures front { OnErr result
        (PutsSome K.told K.faults K.same_rest (AreFirstLines (IsSliceLine reaching.now) (filter (is_access reaching.now) (address ∷ []))) lines.old lines.new) }
    ensures broken { IsErrOf result PrintFault.Failed → lines.new.broken ≡ true }
{
    let slice = match reaching.slice_of(alloc, address) {
        Ok(slice) => slice,
        Err(SliceFault::NotAccess) => return Ok(()),
        Err(SliceFault::NoMemory) => return Err(PrintFault::NoMemory),
    };
    match write_slice(address, &slice, lines) {
        Ok(()) => Ok(()),
        Err(Failed) => Err(PrintFault::Failed),
    }
}

/// Writes the lines of the loads and stores.
fn write_slices<K: Sink>(
    alloc: Global,
    graph: &Graph,
    reaching: &Reaching,
    lines: &mut LineWriter<'_, K>,
) -> Result<(), PrintFault>
    requires { reaching.now ≡ graph.now.code }
    ensures all { OnOk result (PutsSome K.told K.faults K.same_rest (IsSliceText graph.now.code) lines.old lines.new) }
    ensures front { OnErr result (PutsSome K.told K.faults K.same_rest (IsFirstOfSliceText graph.now.code) lines.old lines.new) }
    ensures broken { IsErrOf result PrintFault.Failed → lines.new.broken ≡ true }
{
    let ranges = graph.ranges();
    for place in 0..count_in(ranges) {
        write_slice_at(alloc, reaching, address_at(ranges, place), lines)?;
    }
    Ok(())
}

/// Appends the text of the slices of a graph's words to a sink, in pieces of some thousand bytes: a line for each load and each store, in the
/// order of addresses. What is asked for slices is that of the graph. The slices are made one by one, so memory may also be wanting behind
/// what was printed. After an error the sink got a front of the lines.
pub fn print_slices<K: Sink>(
    alloc: Global,
    graph: &Graph,
    reaching: &Reaching,
    sink: &mut K,
) -> Result<(), PrintFault>
    requires { reaching.now ≡ graph.now.code }
    ensures all { OnOk result (AppendsSome (IsSliceText graph.now.code) (K.told sink.old) (K.told sink.new)) }
    ensures front { OnErr result (AppendsFrontOfSome (IsFirstOfSliceText graph.now.code) (K.told sink.old) (K.told sink.new)) }
    ensures failed { IsErrOf result PrintFault.Failed → HasRisen (K.faults sink.old) (K.faults sink.new) }
    ensures served { OnOk result (K.faults sink.new ≡ K.faults sink.old) }
    ensures unfailed { IsErrOf result PrintFault.NoMemory → K.faults sink.new ≡ K.faults sink.old }
    ensures later { K.faults sink.old ≤ K.faults sink.new }
    ensures rest { K.same_rest sink.old sink.new }
{
    let mut lines = LineWriter::new(sink);
    let written = write_slices(alloc, graph, reaching, &mut lines);
    match lines.finish() {
        Ok(()) => written,
        Err(Failed) => Err(PrintFault::Failed),
    }
}
