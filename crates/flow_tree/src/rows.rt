//! The rows of edges of a graph's blocks.
ghost use Rattle.std.specs.Prelude.{◌≡◌, ◌<◌, ◌+◌, ◌^◌, [], ℕ, length, IfOk, OnOk};
ghost use Rattle.flow_tree.specs.WitnessEdges.{Joins};
ghost use Rattle.flow_tree.specs.Inner.Growing.{AreRows, row_of};
ghost use Rattle.flow_tree.specs.Inner.Rows.{PutsInRow, HaveJoined};

use flow_graph::Edge;
use std::alloc::{AllocError, Global};

/// Puts the edge into the block's row.
fn put_in_row(rows: &mut [Vec<u32>], block: usize, number: u32) -> Result<(), AllocError>
    requires { block < length rows.old }
    ensures { OnOk result (PutsInRow rows.old rows.new block number) }
{
    rows[block].push(number)?;
    Ok(())
}

/// Puts the edge into the rows of the blocks that it joins. An edge that leaves is in no row.
fn put_at_ends(rows: &mut [Vec<u32>], edges: &[Edge], number: u32) -> Result<(), AllocError>
    requires number { number < length edges.now }
    requires blocks { (edge one other : ℕ) → Joins edges.now edge one other → one < length rows.old }
    ensures { HaveJoined edges.now rows.old number → OnOk result (HaveJoined edges.now rows.new (number + 1)) }
{
    let edge = &edges[number as usize];
    let Some(to) = edge.to else {
        return Ok(());
    };
    put_in_row(rows, edge.source as usize, number)?;
    put_in_row(rows, to as usize, number)
}

/// Puts the edges into the rows of the blocks that they join.
fn put_edges(rows: &mut [Vec<u32>], edges: &[Edge]) -> Result<(), AllocError>
    requires few { length edges.now < 2 ^ 32 }
    requires blocks { (edge one other : ℕ) → Joins edges.now edge one other → one < length rows.old }
    ensures { HaveJoined edges.now rows.old 0 → OnOk result (HaveJoined edges.now rows.new (length edges.now)) }
{
    for number in 0..edges.len() {
        put_at_ends(rows, edges, number as u32)?;
    }
    Ok(())
}

/// So many rows without an edge.
fn empty_rows(alloc: Global, blocks: usize) -> Result<Vec<Vec<u32>>, AllocError>
    ensures count { IfOk result (λ rows. length rows.items ≡ blocks) }
    ensures empty { IfOk result (λ rows. (block : ℕ) → row_of rows.items block ≡ []) }
{
    let mut rows = Vec::with_capacity(alloc, blocks)?;
    for _ in 0..blocks {
        rows.push(Vec::new(alloc))?;
    }
    Ok(rows)
}

/// The rows of so many blocks: of each the edges that join it.
pub fn rows_of(alloc: Global, edges: &[Edge], blocks: usize) -> Result<Vec<Vec<u32>>, AllocError>
    requires few { length edges.now < 2 ^ 32 }
    requires blocks { (edge one other : ℕ) → Joins edges.now edge one other → one < blocks }
    ensures count { IfOk result (λ rows. length rows.items ≡ blocks) }
    ensures rows { IfOk result (λ rows. AreRows edges.now rows.items) }
{
    let mut rows = empty_rows(alloc, blocks)?;
    put_edges(&mut rows, edges)?;
    Ok(rows)
}
