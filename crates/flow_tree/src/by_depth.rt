//! The weight of an edge by the depths of the blocks that it joins.
ghost use Rattle.std.specs.Prelude.{◌≡◌, ◌^◌, ◌≤◌, false, slice_get, unwrap_or};
ghost use Rattle.std.specs.Option.{option_map_or};
ghost use Rattle.rv_code.specs.Parts.{class_of};
ghost use Rattle.rv_code.specs.declared.instr.Instr.{Instr};
ghost use Rattle.flow_graph.specs.CodeParts.{CodeParts, instr_at};
ghost use Rattle.flow_tree.specs.Depth.{depths_of};
ghost use Rattle.flow_tree.specs.Weight.{edge_depth, is_branch, skips_ahead, weight_by_depth};

use crate::DEPTH_LIMIT;
use flow_graph::{Edge, Graph};
use rv_code::{Class, class_of, decode};

/// The weight of the edge, where the depths are those of the graph's blocks.
pub fn weight_by_depth(graph: &Graph, depths: &[u32], edge: &Edge) -> u32
    requires { depths.now ≡ depths_of graph.now }
    ensures { result ≡ weight_by_depth graph.now edge.now }
{
    let weight = weight_at(edge_depth(depths, edge));
    if skips_ahead(graph, edge) {
        weight
    } else {
        weight * 2
    }
}

/// Eight times as much with each loop more.
fn weight_at(depth: u32) -> u32
    requires { depth ≤ DEPTH_LIMIT }
    ensures weight { result ≡ 8 ^ depth }
    ensures bound { result ≤ 8 ^ DEPTH_LIMIT }
{
    8u32.pow(depth)
}

/// The smaller depth of the edge's two ends.
fn edge_depth(depths: &[u32], edge: &Edge) -> u32
    ensures { (parts : CodeParts) → depths.now ≡ depths_of parts → result ≡ edge_depth parts edge.now }
{
    let source = depth_in(depths, edge.source);
    match edge.to {
        Some(to) => source.min(depth_in(depths, to)),
        None => 0,
    }
}

/// The depth of the block with this number.
fn depth_in(depths: &[u32], block: u32) -> u32
    ensures { result ≡ unwrap_or (slice_get depths.now block) 0 }
{
    match depths.get(block as usize) {
        Some(depth) => *depth,
        None => 0,
    }
}

/// Whether the edge is the taken edge of a branch to a greater address.
fn skips_ahead(graph: &Graph, edge: &Edge) -> bool
    ensures { result ≡ skips_ahead graph.now edge.now }
{
    edge.kind.is_taken() && is_branch_at(graph, edge.from) && edge.from < edge.target
}

/// Whether a branch stands at the address.
fn is_branch_at(graph: &Graph, address: u32) -> bool
    ensures { result ≡ option_map_or (λ (instr : Instr). is_branch (class_of instr)) (instr_at graph.now address) false }
{
    match graph.word_at(address) {
        Some(word) => matches!(class_of(&decode(word)), Class::Branch),
        None => false,
    }
}
