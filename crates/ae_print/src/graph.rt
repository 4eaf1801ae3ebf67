//! The text of a flow graph.
ghost use Rattle.std.specs.Prelude.{◌≡◌, ◌≤◌, ℕ, List, ◌++◌, OnOk, OnErr, IsErrOf, length};
ghost use Rattle.ae_nums.specs.Writer.{Puts};
ghost use Rattle.ae_ports.specs.Content.{Appends, AppendsFront};
ghost use Rattle.ae_ports.specs.Fault.{HasRisen};
ghost use Rattle.flow_graph.specs.Edges.{edges_of};
ghost use Rattle.flow_tree.specs.Depth.{depths_of};
ghost use Rattle.flow_tree.specs.WitnessEdges.{AreGrown, AreWitnesses};
ghost use Rattle.ae_print.specs.GraphText.{AreCertificates, IsGraphText, block_lines, graph_text, routine_lines};
ghost use Rattle.ae_print.specs.Inner.Short.{PutsShort};
ghost use Rattle.ae_print.specs.SomeText.{AppendsFrontOfSome, AppendsSome};

use crate::PrintFault;
use crate::block_lines::write_blocks;
use crate::edge_lines::write_edges;
use crate::routine_lines::write_routines;
use ae_nums::LineWriter;
use ae_ports::{Failed, Sink};
use flow_graph::Graph;
use flow_tree::{Forest, Weights, depths};
use std::alloc::{AllocError, Global};

/// Writes the lines of routines and blocks, where these are the depths of the blocks.
fn write_to_edges<K: Sink>(
    graph: &Graph,
    depths: &[u32],
    lines: &mut LineWriter<'_, K>,
) -> Result<(), Failed>
    requires { depths.now ≡ depths_of graph.now }
    ensures { Puts K.told K.faults K.same_rest lines.old lines.new (routine_lines graph.now.routines ++ block_lines graph.now) result }
{
    write_routines(graph, lines)?;
    write_blocks(graph, depths, lines)
}

/// Writes the lines of routines, blocks and edges, where these are the depths of the blocks and the weights of the edges.
fn write_graph<K: Sink>(
    alloc: Global,
    graph: &Graph,
    depths: &[u32],
    weights: &[u32],
    forest: &Forest,
    lines: &mut LineWriter<'_, K>,
) -> Result<(), PrintFault>
    requires depths { depths.now ≡ depths_of graph.now }
    requires weights { length weights.now ≡ length (edges_of graph.now) }
    requires grown { AreGrown (edges_of graph.now) forest.now.witness }
    ensures { (path_of : ℕ → List ℕ) → AreCertificates (edges_of graph.now) forest.now.witness path_of →
        PutsShort K.told K.faults K.same_rest lines.old lines.new (graph_text graph.now weights.now forest.now.witness path_of) result }
{
    match write_to_edges(graph, depths, lines) {
        Ok(()) => write_edges(alloc, graph, weights, forest, lines),
        Err(Failed) => Err(PrintFault::Failed),
    }
}

/// Appends the text to a sink, where these are the depths of the blocks and the weights of the edges. Where memory is wanting, what
/// was written before goes to the sink.
fn append_graph<K: Sink>(
    alloc: Global,
    graph: &Graph,
    depths: &[u32],
    weights: &[u32],
    forest: &Forest,
    sink: &mut K,
) -> Result<(), PrintFault>
    requires depths { depths.now ≡ depths_of graph.now }
    requires weights { length weights.now ≡ length (edges_of graph.now) }
    requires grown { AreGrown (edges_of graph.now) forest.now.witness }
    ensures all { (path_of : ℕ → List ℕ) → AreCertificates (edges_of graph.now) forest.now.witness path_of →
        OnOk result (Appends (K.told sink.old) (K.told sink.new) (graph_text graph.now weights.now forest.now.witness path_of)) }
    ensures front { (path_of : ℕ → List ℕ) → AreCertificates (edges_of graph.now) forest.now.witness path_of →
        OnErr result (AppendsFront (K.told sink.old) (K.told sink.new) (graph_text graph.now weights.now forest.now.witness path_of)) }
    ensures failed { IsErrOf result PrintFault.Failed → HasRisen (K.faults sink.old) (K.faults sink.new) }
    ensures served { OnOk result (K.faults sink.new ≡ K.faults sink.old) }
    ensures unfailed { IsErrOf result PrintFault.NoMemory → K.faults sink.new ≡ K.faults sink.old }
    ensures later { K.faults sink.old ≤ K.faults sink.new }
    ensures rest { K.same_rest sink.old sink.new }
{
    let mut lines = LineWriter::new(sink);
    let written = write_graph(alloc, graph, depths, weights, forest, &mut lines);
    match lines.finish() {
        Ok(()) => written,
        Err(Failed) => Err(PrintFault::Failed),
    }
}

/// Appends the text of a flow graph to a sink, in pieces of some thousand bytes: a line for each routine, each block and each
/// edge. The weights are those of the graph's edges, and the forest is the one that [`flow_tree::witnesses`] makes with them. The
/// certificates of witnesses are made one by one, so memory may also be wanting behind what was printed. After an error the sink got a
/// front of the text. Time grows as the square of blocks and edges at most.
pub fn print_graph<K: Sink>(
    alloc: Global,
    graph: &Graph,
    weights: &Weights,
    forest: &Forest,
    sink: &mut K,
) -> Result<(), PrintFault>
    requires weights { length weights.now ≡ length (edges_of graph.now) }
    requires witnesses { AreWitnesses (edges_of graph.now) weights.now forest.now.witness }
    ensures all { OnOk result (AppendsSome (IsGraphText graph.now weights.now forest.now.witness) (K.told sink.old) (K.told sink.new)) }
    ensures front { OnErr result (AppendsFrontOfSome (IsGraphText graph.now weights.now forest.now.witness) (K.told sink.old) (K.told sink.new)) }
    ensures failed { IsErrOf result PrintFault.Failed → HasRisen (K.faults sink.old) (K.faults sink.new) }
    ensures served { OnOk result (K.faults sink.new ≡ K.faults sink.old) }
    ensures unfailed { IsErrOf result PrintFault.NoMemory → K.faults sink.new ≡ K.faults sink.old }
    ensures later { K.faults sink.old ≤ K.faults sink.new }
    ensures rest { K.same_rest sink.old sink.new }
{
    let depths = match depths(alloc, graph) {
        Ok(depths) => depths,
        Err(AllocError) => return Err(PrintFault::NoMemory),
    };
    append_graph(alloc, graph, &depths, weights.as_slice(), forest, sink)
}
