//! The depths of all blocks.
ghost use Rattle.std.specs.Prelude.{◌≡◌, IfOk};
ghost use Rattle.flow_graph.specs.CodeParts.{CodeParts};
ghost use Rattle.flow_tree.specs.Depth.{depth_over, depths_of};
ghost use Rattle.flow_tree.specs.Inner.Spans.{SpansAreInOrder, AreSpans};

use crate::DEPTH_LIMIT;
use crate::farthest::farthest_sources;
use crate::spans::Spans;
use flow_graph::Graph;
use std::alloc::{AllocError, Global};

/// The depths of all blocks, by their numbers. The only error is want of memory. Time grows as n log n in edges and blocks, and
/// memory with the number of both.
pub fn depths(alloc: Global, graph: &Graph) -> Result<Vec<u32>, AllocError>
    ensures { IfOk result (λ depths. depths.items ≡ depths_of graph.now) }
{
    let spans = spans_of(alloc, graph)?;
    let mut depths = Vec::new(alloc);
    for block in graph.blocks() {
        depths.push(depth_by(&spans, block.leader))?;
    }
    Ok(depths)
}

/// The spans from each head to the farthest place from which an edge goes back to it.
fn spans_of(alloc: Global, graph: &Graph) -> Result<Spans, AllocError>
    ensures { IfOk result (AreSpans graph.now) }
{
    let sources = farthest_sources(alloc, graph)?;
    Spans::from_sources(alloc, &sources)
}

/// How many spans the address lies in, at most `DEPTH_LIMIT`.
fn depth_by(spans: &Spans, address: u32) -> u32
    requires { SpansAreInOrder spans.now }
    ensures { (parts : CodeParts) → AreSpans parts spans.now → result ≡ depth_over parts address }
{
    spans.count_at(address).min(DEPTH_LIMIT as usize) as u32
}
