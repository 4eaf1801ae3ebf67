//! The lines of edges.
ghost use Rattle.std.specs.Prelude.{◌≡◌, ℕ, List, ◌++◌, length};
ghost use Rattle.ae_nums.specs.Writer.{Puts};
ghost use Rattle.flow_graph.specs.Edges.{edges_of};
ghost use Rattle.flow_tree.specs.WitnessEdges.{AreGrown};
ghost use Rattle.ae_print.specs.GraphText.{AreCertificates, edge_front, edge_line, edge_lines, kind_text, weight_text};
ghost use Rattle.ae_print.specs.Inner.Short.{PutsShort};

use crate::PrintFault;
use crate::mark::write_mark;
use crate::pieces::{push_number, push_word};
use ae_nums::{LineWriter, Text};
use ae_ports::{Failed, Sink};
use flow_graph::{Edge, Graph, Kind};
use flow_tree::{Forest, certificate, edges_in};
use std::alloc::{AllocError, Global};

/// The front of an edge's line, before its weight.
fn front_of_edge(number: usize, edge: &Edge) -> Text
    ensures { result ≡ edge_front number edge.now }
{
    let mut line = Text::new();
    push_number(&mut line, b"edge ", number as u64);
    push_word(&mut line, b" ", edge.from);
    match edge.kind {
        Kind::Fall => push_word(&mut line, b" fall ", edge.target),
        Kind::Taken => push_word(&mut line, b" taken ", edge.target),
    }
    line
}

/// The piece of an edge's line with its weight.
fn text_of_weight(weight: u32) -> Text
    ensures { result ≡ weight_text weight }
{
    let mut line = Text::new();
    push_number(&mut line, b" weight ", weight as u64);
    line
}

/// Writes an edge's line up to its weight.
fn write_to_weight<K: Sink>(
    number: usize,
    weight: u32,
    edge: &Edge,
    lines: &mut LineWriter<'_, K>,
) -> Result<(), Failed>
    ensures { Puts K.told K.faults K.same_rest lines.old lines.new (edge_front number edge.now ++ weight_text weight) result }
{
    lines.write(front_of_edge(number, edge).bytes())?;
    lines.write(text_of_weight(weight).bytes())
}

/// Writes the line of an edge, where this is its certificate.
fn write_edge<K: Sink>(
    number: usize,
    weight: u32,
    is_witness: bool,
    path: &[u32],
    edge: &Edge,
    lines: &mut LineWriter<'_, K>,
) -> Result<(), Failed>
    ensures { Puts K.told K.faults K.same_rest lines.old lines.new (edge_line is_witness path.now number weight edge.now) result }
{
    write_to_weight(number, weight, edge, lines)?;
    write_mark(is_witness, edge.to, path, lines)?;
    lines.write(b"\n")
}

/// Writes the lines of the edges, which have these weights. The certificates are made one by one.
pub fn write_edges<K: Sink>(
    alloc: Global,
    graph: &Graph,
    weights: &[u32],
    forest: &Forest,
    lines: &mut LineWriter<'_, K>,
) -> Result<(), PrintFault>
    requires weights { length weights.now ≡ length (edges_of graph.now) }
    requires grown { AreGrown (edges_of graph.now) forest.now.witness }
    ensures { (path_of : ℕ → List ℕ) → AreCertificates (edges_of graph.now) forest.now.witness path_of →
        PutsShort K.told K.faults K.same_rest lines.old lines.new (edge_lines graph.now weights.now forest.now.witness path_of) result }
{
    let witness = forest.witness.as_slice();
    for (number, edge) in edges_in(graph).iter().enumerate() {
        let path = match certificate(alloc, graph, forest, number as u32) {
            Ok(path) => path,
            Err(AllocError) => return Err(PrintFault::NoMemory),
        };
        match write_edge(number, weights[number], witness[number], &path, edge, lines) {
            Ok(()) => {}
            Err(Failed) => return Err(PrintFault::Failed),
        }
    }
    Ok(())
}
