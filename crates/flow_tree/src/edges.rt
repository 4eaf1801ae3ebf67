//! The edges of a graph, with what the forest's calls need to know of them.
ghost use Rattle.std.specs.Prelude.{◌≡◌, ◌<◌, ◌≤◌, ◌^◌, ℕ, length};
ghost use Rattle.flow_graph.specs.Blocks.{blocks_of};
ghost use Rattle.flow_graph.specs.Edges.{edges_of};
ghost use Rattle.flow_tree.specs.WitnessEdges.{Joins};

use flow_graph::{Edge, Graph};

/// The edges of the graph. There are few enough for numbers of 32 bits, since code words are few.
pub fn edges_in(graph: &Graph) -> &[Edge]
    ensures edges { result.now ≡ edges_of graph.now }
    ensures few { length result.now ≤ 2 ^ 31 }
    ensures blocks { length (blocks_of graph.now) ≤ 2 ^ 30 }
    ensures within { (edge one other : ℕ) → Joins result.now edge one other → one < length (blocks_of graph.now) }
{
    let _words = graph.ranges();
    graph.edges()
}
