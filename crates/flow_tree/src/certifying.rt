//! The certificate of a witness edge.
ghost use Rattle.std.specs.Prelude.{◌≡◌, ◌≤◌, ◌<◌, ◌^◌, ℕ, IfOk, Some, length, slice_get};
ghost use Rattle.graph_paths.specs.Paths.{Path};
ghost use Rattle.flow_graph.specs.Edges.{edges_of};
ghost use Rattle.flow_tree.specs.WitnessEdges.{AreGrown, CutsCycles, IsCertificate, IsTreePath, IsUnmarked, Joins};

use crate::Forest;
use crate::cells::{Cell, fill, settle_all, strip};
use crate::edges::edges_in;
use flow_graph::{Edge, Graph};
use std::alloc::{AllocError, Global};

/// The path between two blocks over the edges of the forest, which joins them. It takes all leaves off but the two blocks, and
/// walks along what is left. The cells are of no edge.
fn walk(
    alloc: Global,
    cells: &mut [Cell],
    edges: &[Edge],
    witness: &[bool],
    from: u32,
    to: u32,
) -> Result<Vec<u32>, AllocError>
    requires few { length edges.now ≤ 2 ^ 31 }
    requires fit { length cells.old ≤ 2 ^ 32 }
    requires marks { length witness.now ≡ length edges.now }
    requires blocks { (edge one other : ℕ) → Joins edges.now edge one other → one < length cells.old }
    requires empty { (block : ℕ) → block < length cells.old → slice_get cells.old block ≡ Some (record { count = 0; sum = 0 }) }
    requires cuts { CutsCycles edges.now witness.now }
    requires joined { Path (Joins edges.now) (IsUnmarked witness.now) from to }
    ensures { IfOk result (λ path. IsTreePath edges.now witness.now path.items from to) }
{
    let Some(left) = fill(cells, edges, witness) else {
        unreachable!()
    };
    settle_all(cells, edges, &[from, to], left);
    let mut path = Vec::new(alloc);
    let mut at = from;
    while at != to {
        path.push(cells[at as usize].sum as u32)?;
        at = strip(cells, edges, at);
    }
    Ok(path)
}

/// The path between two blocks over the edges of the forest, which joins them.
fn tree_path(
    alloc: Global,
    edges: &[Edge],
    witness: &[bool],
    blocks: usize,
    from: u32,
    to: u32,
) -> Result<Vec<u32>, AllocError>
    requires few { length edges.now ≤ 2 ^ 31 }
    requires fit { blocks ≤ 2 ^ 32 }
    requires marks { length witness.now ≡ length edges.now }
    requires blocks { (edge one other : ℕ) → Joins edges.now edge one other → one < blocks }
    requires cuts { CutsCycles edges.now witness.now }
    requires joined { Path (Joins edges.now) (IsUnmarked witness.now) from to }
    ensures { IfOk result (λ path. IsTreePath edges.now witness.now path.items from to) }
{
    let mut cells = vec![in alloc; Cell::EMPTY; blocks]?;
    walk(alloc, &mut cells, edges, witness, from, to)
}

/// The certificate of an edge. That of a witness which doesn't leave is the path from its source to its target over edges that
/// are no witnesses: they all rank before it. That of every other edge is empty, and so is that of a witness from a block to itself.
///
/// The forest is one that [`crate::witnesses`] made of the graph. The only error is want of memory. Time and memory grow as blocks and
/// edges.
pub fn certificate(
    alloc: Global,
    graph: &Graph,
    forest: &Forest,
    edge: u32,
) -> Result<Vec<u32>, AllocError>
    requires grown { AreGrown (edges_of graph.now) forest.now.witness }
    requires edge { edge < length (edges_of graph.now) }
    ensures { IfOk result (λ path. IsCertificate (edges_of graph.now) forest.now.witness edge path.items) }
{
    let edges = edges_in(graph);
    let witness = forest.witness.as_slice();
    let number = edge as usize;
    let is_witness = witness[number];
    match edges[number].to {
        Some(to) if is_witness => tree_path(
            alloc,
            edges,
            witness,
            graph.blocks().len(),
            edges[number].source,
            to,
        ),
        _ => Ok(Vec::new(alloc)),
    }
}
