//! Edges that go back.
ghost use Rattle.std.specs.Prelude.{◌≡◌};
ghost use Rattle.flow_graph.specs.CodeParts.{instr_at};
ghost use Rattle.flow_tree.specs.Depth.{goes_back_past, keeps_link, may_loop};

use flow_graph::{Edge, Graph};
use rv_code::{decode, writes};

/// Whether the edge is the taken edge of a branch, or of a jump that keeps no link.
pub fn may_loop(graph: &Graph, edge: &Edge) -> bool
    ensures { result ≡ may_loop graph.now edge.now }
{
    edge.kind.is_taken() && !keeps_link(graph, edge.from)
}

/// Whether the word at the address writes a register.
fn keeps_link(graph: &Graph, address: u32) -> bool
    ensures { result ≡ keeps_link (instr_at graph.now address) }
{
    match graph.word_at(address) {
        Some(word) => writes(&decode(word)).is_some(),
        None => false,
    }
}

/// Whether such an edge goes back past the address.
pub fn goes_back_past(graph: &Graph, address: u32, edge: &Edge) -> bool
    ensures { result ≡ goes_back_past graph.now address edge.now }
{
    may_loop(graph, edge) && edge.target <= address && address <= edge.from
}
