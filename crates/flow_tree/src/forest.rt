//! The forest of a flow graph, and the edges off it.
ghost use Rattle.std.specs.Prelude.{◌≡◌, IfOk, length};
ghost use Rattle.flow_graph.specs.Edges.{edges_of};
ghost use Rattle.flow_tree.specs.WitnessEdges.{AreWitnesses, CutsCycles, HaveLeastWeight};

use crate::Weights;
use crate::edges::edges_in;
use crate::growing::marks_off;
use flow_graph::Graph;
use rv_code::ListOf;
use std::alloc::{AllocError, Global};

/// Which edges are witnesses, by the edges' numbers. Those that aren't are the edges of a forest.
#[derive(Drop)]
pub struct Forest {
    pub witness: ListOf<bool>,
}

/// The witness edges of the graph under these weights: the edges off a maximum spanning forest, and those that leave the code
/// (Ball and Larus, Optimally profiling and tracing programs). Among all sets of edges that hold every leaving edge and
/// whose removal leaves no undirected cycle, none weighs less.
///
/// The only error is want of memory. Time grows as n log n in blocks and edges, memory as n.
pub fn witnesses(alloc: Global, graph: &Graph, weights: &Weights) -> Result<Forest, AllocError>
    requires { length weights.now ≡ length (edges_of graph.now) }
    ensures marks { IfOk result (λ forest. AreWitnesses (edges_of graph.now) weights.now forest.witness) }
    ensures cuts { IfOk result (λ forest. CutsCycles (edges_of graph.now) forest.witness) }
    ensures least { IfOk result (λ forest. HaveLeastWeight (edges_of graph.now) weights.now forest.witness) }
{
    let edges = edges_in(graph);
    let witness = marks_off(alloc, edges, graph.blocks().len(), weights)?;
    Ok(Forest {
        witness: ListOf::from_vec(witness),
    })
}
