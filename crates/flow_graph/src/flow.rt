//! The blocks and edges of code words.
ghost use Rattle.std.specs.Prelude.{◌≡◌, ◌<◌, ◌^◌, IfOk};
ghost use Rattle.std.specs.List.{AllByRecursion};
ghost use Rattle.rv_code.specs.Code.{extents_of};
ghost use Rattle.rv_code.specs.Image.{word_count};
ghost use Rattle.rv_code.specs.Places.{AreCodeExtents, EndsInSpace};
ghost use Rattle.flow_graph.specs.Flow.{IsFlow};
ghost use Rattle.flow_graph.specs.Leaders.{starts_in};

use crate::blocks::blocks_in;
use crate::edges::edges_in;
use crate::leaders::mark_leaders;
use crate::numbers::numbers_in;
use crate::{Block, Edge};
use rv_code::{ListOf, Range};
use std::alloc::{AllocError, Global};

/// Blocks, the number of each word's block by places, and the edges between the blocks.
#[derive(Drop)]
pub struct Flow {
    pub blocks: ListOf<Block>,
    pub numbers: ListOf<u32>,
    pub edges: ListOf<Edge>,
}

/// The blocks and edges of the code words of these ranges.
pub fn flow_in(
    alloc: Global,
    ranges: &[Range],
    entry: u32,
    named: &[u32],
    functions: &[u32],
) -> Result<Flow, AllocError>
    requires order { AreCodeExtents (extents_of ranges.now) }
    requires ends { AllByRecursion EndsInSpace (extents_of ranges.now) }
    requires words { word_count ranges.now < 2 ^ 32 }
    ensures { IfOk result (IsFlow ranges.now (starts_in ranges.now entry named.now functions.now)) }
{
    let marks = mark_leaders(alloc, ranges, entry, named, functions)?;
    let numbers = numbers_in(alloc, ranges, &marks)?;
    let blocks = blocks_in(alloc, ranges, &marks)?;
    let edges = edges_in(alloc, ranges, &numbers, &blocks)?;
    Ok(Flow {
        blocks: ListOf::from_vec(blocks),
        numbers: ListOf::from_vec(numbers),
        edges: ListOf::from_vec(edges),
    })
}
