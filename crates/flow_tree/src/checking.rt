//! Checking that marks are those of edges off a forest.
ghost use Rattle.std.specs.Prelude.{◌≡◌, ◌↔◌, ◌≤◌, ◌<◌, ◌^◌, ℕ, IfOk, IsTrue, length};
ghost use Rattle.flow_graph.specs.Blocks.{blocks_of};
ghost use Rattle.flow_graph.specs.Edges.{edges_of};
ghost use Rattle.flow_tree.specs.WitnessEdges.{CutsCycles, Joins};

use crate::cells::{Cell, clear, fill, settle_all};
use crate::edges::edges_in;
use flow_graph::{Edge, Graph};
use std::alloc::{AllocError, Global};
use std::marker::Model;

/// Room that a check of a forest works in. Contracts see for how many blocks it is.
#[derive(Drop)]
pub struct WorkRow {
    cells: Vec<Cell>,
}

impl Model for WorkRow {
    ghost use Rattle.std.specs.Prelude.{ℕ, length};

    ghost Value = { ℕ };

    ghost view = { λ row. length row.cells.items };
}

impl WorkRow {
    /// Room for so many blocks. The only error is want of memory.
    pub fn new(alloc: Global, count: u32) -> Result<WorkRow, AllocError>
        ensures { IfOk result (λ row. row ≡ count) }
    {
        let cells = vec![in alloc; Cell::EMPTY; count as usize]?;
        Ok(WorkRow { cells })
    }
}

/// Whether each edge that leaves is marked and the others that aren't marked have no cycle.
fn check(cells: &mut [Cell], edges: &[Edge], witness: &[bool]) -> bool
    requires few { length edges.now ≤ 2 ^ 31 }
    requires fit { length cells.old ≤ 2 ^ 32 }
    requires marks { length witness.now ≡ length edges.now }
    requires blocks { (edge one other : ℕ) → Joins edges.now edge one other → one < length cells.old }
    ensures { IsTrue result ↔ CutsCycles edges.now witness.now }
{
    clear(cells);
    let Some(left) = fill(cells, edges, witness) else {
        return false;
    };
    settle_all(cells, edges, &[], left) == 0
}

/// Whether the marks, one an edge, cut all cycles: each edge that leaves the code is marked, and the edges that aren't have no
/// undirected cycle. It takes leaves off, in time linear in blocks and edges, and takes no memory. The row is for at least as many
/// blocks as the graph has, and any row will do that was made for its blocks and edges together.
pub fn check_forest(graph: &Graph, witness: &[bool], row: &mut WorkRow) -> bool
    requires marks { length witness.now ≡ length (edges_of graph.now) }
    requires room { length (blocks_of graph.now) ≤ row.old }
    ensures forest { IsTrue result ↔ CutsCycles (edges_of graph.now) witness.now }
    ensures room { row.new ≡ row.old }
{
    let blocks = graph.blocks().len();
    check(&mut row.cells[..blocks], edges_in(graph), witness)
}

/// Whether the marks, one an edge, cut all cycles of these edges, as [`check_forest`] says it of a graph's. The row is for more than the
/// number of each block that they join. It takes no memory either.
pub fn check_edges(edges: &[Edge], witness: &[bool], row: &mut WorkRow) -> bool
    requires few { length edges.now ≤ 2 ^ 31 }
    requires marks { length witness.now ≡ length edges.now }
    requires fit { row.old ≤ 2 ^ 32 }
    requires blocks { (edge one other : ℕ) → Joins edges.now edge one other → one < row.old }
    ensures forest { IsTrue result ↔ CutsCycles edges.now witness.now }
    ensures room { row.new ≡ row.old }
{
    check(&mut row.cells, edges, witness)
}
