//! The depth of one block.
ghost use Rattle.std.specs.Prelude.{◌≡◌, ◌<◌, length};
ghost use Rattle.flow_graph.specs.Blocks.{blocks_of};
ghost use Rattle.flow_tree.specs.Depth.{depth_of, depth_over};

use crate::back::goes_back_past;
use crate::heads::Heads;
use flow_graph::Graph;

/// The depth of the block with this number: how many addresses there are to which edges go back past the block, at most
/// `DEPTH_LIMIT`. Takes no memory, and time as the number of edges; `depths` gives the depths of all blocks together.
pub fn depth(graph: &Graph, block: u32) -> u32
    requires { block < length (blocks_of graph.now) }
    ensures { result ≡ depth_of graph.now block }
{
    depth_over(graph, graph.blocks()[block as usize].leader)
}

/// How many addresses there are to which edges go back past this one, at most `DEPTH_LIMIT`.
fn depth_over(graph: &Graph, address: u32) -> u32
    ensures { result ≡ depth_over graph.now address }
{
    let mut heads = Heads::new();
    for edge in graph.edges() {
        if goes_back_past(graph, address, edge) {
            heads.add(edge.target);
        }
    }
    heads.len()
}
