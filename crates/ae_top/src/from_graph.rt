//! What `print` shows of an executable's flow graph.
ghost use Rattle.std.specs.Prelude.{◌≡◌, ◌≤◌, length, IsErrOf};
ghost use Rattle.flow_tree.specs.Weight.{weights_by_depth};
ghost use Rattle.ae_top.specs.Inner.FromGraph.{printed_as, PrintsFrom};
ghost use Rattle.ae_top.specs.Inner.Printing.{Prints};
ghost use Rattle.ae_top.specs.World.{Blames};

use crate::graph::graph_of;
use crate::no_file::NotTaken;
use crate::printing::NotPrinted;
use ae_ports::{Failed, Sink};
use ae_print::PrintFault;
use elf_raw::FILE_LIMIT;
use flow_graph::Graph;
use flow_tree::{Weights, witnesses};
use need_sets::Needs;
use reach_slice::Reaching;
use std::alloc::{AllocError, Global};

/// What is printed of a flow graph.
#[derive(Clone, Copy, Debug, PartialEq, Eq)]
pub enum FromGraph {
    /// The graph itself, with its witness edges.
    Witnesses,
    /// The registers that its words need.
    Needs,
    /// The slices of its loads and stores.
    Slices,
}

/// Prints a graph with these weights, which are those by depth.
fn print_weighted<O: Sink>(
    alloc: Global,
    graph: &Graph,
    weights: &Weights,
    out: &mut O,
) -> Result<(), NotPrinted>
    requires weights { weights.now ≡ weights_by_depth graph.now }
    ensures prints { PrintsFrom FromGraph.Witnesses graph.now result (O.told out.old) (O.told out.new) }
    ensures blames { Blames (IsErrOf result NotPrinted.OutFault) (O.faults out.old) (O.faults out.new) }
    ensures rest { O.same_rest out.old out.new }
{
    let forest = match witnesses(alloc, graph, weights) {
        Ok(forest) => forest,
        Err(AllocError) => return Err(NotPrinted::NotTaken(NotTaken::NoMemory)),
    };
    match ae_print::print_graph(alloc, graph, weights, &forest, out) {
        Ok(()) => Ok(()),
        Err(PrintFault::Failed) => Err(NotPrinted::OutFault),
        Err(PrintFault::NoMemory) => Err(NotPrinted::NoMemory),
    }
}

/// Prints a graph with its weights by depth and its witnesses.
fn print_witnesses<O: Sink>(alloc: Global, graph: &Graph, out: &mut O) -> Result<(), NotPrinted>
    ensures prints { PrintsFrom FromGraph.Witnesses graph.now result (O.told out.old) (O.told out.new) }
    ensures blames { Blames (IsErrOf result NotPrinted.OutFault) (O.faults out.old) (O.faults out.new) }
    ensures rest { O.same_rest out.old out.new }
{
    match Weights::by_depth(alloc, graph) {
        Ok(weights) => print_weighted(alloc, graph, &weights, out),
        Err(AllocError) => Err(NotPrinted::NotTaken(NotTaken::NoMemory)),
    }
}

/// Prints the needs of a graph's words.
fn print_needs<O: Sink>(alloc: Global, graph: &Graph, out: &mut O) -> Result<(), NotPrinted>
    ensures prints { PrintsFrom FromGraph.Needs graph.now result (O.told out.old) (O.told out.new) }
    ensures blames { Blames (IsErrOf result NotPrinted.OutFault) (O.faults out.old) (O.faults out.new) }
    ensures rest { O.same_rest out.old out.new }
{
    let needs = match Needs::build(alloc, graph) {
        Ok(needs) => needs,
        Err(AllocError) => return Err(NotPrinted::NotTaken(NotTaken::NoMemory)),
    };
    match ae_print::print_needs(graph, &needs, out) {
        Ok(()) => Ok(()),
        Err(Failed) => Err(NotPrinted::OutFault),
    }
}

/// Prints the slices of a graph's loads and stores.
fn print_slices<O: Sink>(alloc: Global, graph: &Graph, out: &mut O) -> Result<(), NotPrinted>
    ensures prints { PrintsFrom FromGraph.Slices graph.now result (O.told out.old) (O.told out.new) }
    ensures blames { Blames (IsErrOf result NotPrinted.OutFault) (O.faults out.old) (O.faults out.new) }
    ensures rest { O.same_rest out.old out.new }
{
    let reaching = match Reaching::build(alloc, graph) {
        Ok(reaching) => reaching,
        Err(AllocError) => return Err(NotPrinted::NotTaken(NotTaken::NoMemory)),
    };
    match ae_print::print_slices(alloc, graph, &reaching, out) {
        Ok(()) => Ok(()),
        Err(PrintFault::Failed) => Err(NotPrinted::OutFault),
        Err(PrintFault::NoMemory) => Err(NotPrinted::NoMemory),
    }
}

/// Prints what is asked of a graph.
fn print_of<O: Sink>(
    alloc: Global,
    from: FromGraph,
    graph: &Graph,
    out: &mut O,
) -> Result<(), NotPrinted>
    ensures prints { PrintsFrom from graph.now result (O.told out.old) (O.told out.new) }
    ensures blames { Blames (IsErrOf result NotPrinted.OutFault) (O.faults out.old) (O.faults out.new) }
    ensures rest { O.same_rest out.old out.new }
{
    match from {
        FromGraph::Witnesses => print_witnesses(alloc, graph, out),
        FromGraph::Needs => print_needs(alloc, graph, out),
        FromGraph::Slices => print_slices(alloc, graph, out),
    }
}

/// Prints what is asked of the graph of an executable without a note, whose bytes these are.
pub fn print_from_graph<O: Sink>(
    alloc: Global,
    from: FromGraph,
    bytes: &[u8],
    out: &mut O,
) -> Result<(), NotPrinted>
    requires small { length bytes.now ≤ FILE_LIMIT }
    ensures prints { Prints (printed_as from) bytes.now result (O.told out.old) (O.told out.new) }
    ensures blames { Blames (IsErrOf result NotPrinted.OutFault) (O.faults out.old) (O.faults out.new) }
    ensures rest { O.same_rest out.old out.new }
{
    match graph_of(alloc, bytes) {
        Ok(graph) => print_of(alloc, from, &graph, out),
        Err(why) => Err(NotPrinted::NotTaken(why)),
    }
}
