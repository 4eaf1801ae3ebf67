//! The edges between blocks.
ghost use Rattle.std.specs.Prelude.{◌≡◌, ◌<◌, ◌≤◌, ◌^◌, ◌++◌, ℕ, List, IfOk, OnOk, length, flat_map};
ghost use Rattle.std.specs.List.{enumerate_from};
ghost use Rattle.rv_code.specs.Code.{extents_of};
ghost use Rattle.rv_code.specs.Image.{word_count};
ghost use Rattle.rv_code.specs.Places.{AreCodeExtents};
ghost use Rattle.flow_graph.specs.Edges.{edge_among, edges_from, is_taken_kind};
ghost use Rattle.flow_graph.specs.Numbers.{AreNumbers};

use crate::numbers::number_at;
use crate::{Block, Edge, Kind};
use rv_code::{Range, decode, way_to, word_in};
use std::alloc::{AllocError, Global};

/// The edge of one way from the last word of the block with this number. `None` where that word doesn't have the way.
fn edge_by(ranges: &[Range], numbers: &[u32], kind: Kind, number: u32, from: u32) -> Option<Edge>
    requires order { AreCodeExtents (extents_of ranges.now) }
    requires words { word_count ranges.now < 2 ^ 32 }
    requires cells { length numbers.now ≡ word_count ranges.now }
    ensures { (starts : List ℕ) → AreNumbers ranges.now starts numbers.now
        → result ≡ edge_among ranges.now starts (is_taken_kind kind) number from }
{
    let instr = decode(word_in(ranges, from)?);
    let target = way_to(&instr, from, kind.is_taken())?;
    Some(Edge {
        from,
        kind,
        source: number,
        to: number_at(ranges, numbers, target),
        target,
    })
}

/// Puts the edges of the block with this number behind the others, Fall before Taken.
fn push_edges_of(
    ranges: &[Range],
    numbers: &[u32],
    edges: &mut Vec<Edge>,
    number: u32,
    block: Block,
) -> Result<(), AllocError>
    requires order { AreCodeExtents (extents_of ranges.now) }
    requires words { word_count ranges.now < 2 ^ 32 }
    requires cells { length numbers.now ≡ word_count ranges.now }
    ensures { (starts : List ℕ) → AreNumbers ranges.now starts numbers.now
        → OnOk result (edges.new.items ≡ edges.old.items ++ edges_from ranges.now starts (number, block)) }
{
    if let Some(edge) = edge_by(ranges, numbers, Kind::Fall, number, block.last) {
        edges.push(edge)?;
    }
    if let Some(edge) = edge_by(ranges, numbers, Kind::Taken, number, block.last) {
        edges.push(edge)?;
    }
    Ok(())
}

/// The edges of the blocks, each block's Fall before its Taken.
pub fn edges_in(
    alloc: Global,
    ranges: &[Range],
    numbers: &[u32],
    blocks: &[Block],
) -> Result<Vec<Edge>, AllocError>
    requires order { AreCodeExtents (extents_of ranges.now) }
    requires words { word_count ranges.now < 2 ^ 32 }
    requires cells { length numbers.now ≡ word_count ranges.now }
    requires blocks { length blocks.now ≤ word_count ranges.now }
    ensures { (starts : List ℕ) → AreNumbers ranges.now starts numbers.now
        → IfOk result (λ edges. edges.items ≡ flat_map (edges_from ranges.now starts) (enumerate_from 0 blocks.now)) }
{
    let mut edges = Vec::new(alloc);
    for (number, block) in blocks.iter().enumerate() {
        push_edges_of(ranges, numbers, &mut edges, number as u32, *block)?;
    }
    Ok(edges)
}
