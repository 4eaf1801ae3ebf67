//! Growing a forest block by block (Prim): from a root on, always by the edge that ranks first of those that lead on.
ghost use Rattle.std.specs.Prelude.{◌≡◌, ◌∷◌, ◌+◌, ◌<◌, ◌++◌, ◌^◌, [], ℕ, true, length, map, IfOk, IfSome, MatchOption, OnOk, Some, false, slice_get, slice_set};
ghost use Rattle.graph_paths.specs.Forests.{IsAmong};
ghost use Rattle.std.specs.List.Sorted.{IsPermutation};
ghost use Rattle.flow_tree.specs.WitnessEdges.{Joins};
ghost use Rattle.flow_tree.specs.Inner.Waiting.{ComesFirst};
ghost use Rattle.flow_tree.specs.Inner.Growing.{row_of, AreRows, ranked_of, IsGrown, LeadsBeyond, IsGrowing, HasGrown, IsSpanning, StaysGrown, rows_left};

use crate::Weights;
use crate::rows::rows_of;
use crate::waiting::{Ranked, Waiting};
use flow_graph::Edge;
use std::alloc::{AllocError, Global};
use std::cmp::Reverse;

/// The edge with its rank.
fn ranked(weights: &Weights, number: u32) -> Ranked
    requires { number < length weights.now }
    ensures { result ≡ ranked_of weights.now number }
{
    match weights.at(number) {
        Some(weight) => Ranked {
            weight,
            number: Reverse(number),
        },
        None => unreachable!(),
    }
}

/// Lets the edges of a row wait.
fn wait_for(row: &[u32], weights: &Weights, waiting: &mut Waiting) -> Result<(), AllocError>
    requires { (number : ℕ) → IsAmong row.now number → number < length weights.now }
    ensures { OnOk result (IsPermutation (waiting.old ++ map (ranked_of weights.now) row.now) waiting.new) }
{
    for number in row {
        waiting.push(ranked(weights, *number))?;
    }
    Ok(())
}

/// The block to which the edge leads from those that are grown. `None` where it leads on to no other.
fn beyond(edges: &[Edge], grown: &[bool], number: usize) -> Option<u32>
    requires number { number < length edges.now }
    requires blocks { (number one other : ℕ) → Joins edges.now number one other → one < length grown.now }
    ensures { MatchOption result ((one other : ℕ) → Joins edges.now number one other → IsGrown grown.now one → IsGrown grown.now other)
        (λ block. LeadsBeyond edges.now grown.now number block) }
{
    let edge = &edges[number];
    let to = edge.to?;
    if grown[edge.source as usize] == grown[to as usize] {
        None
    } else if grown[to as usize] {
        Some(edge.source)
    } else {
        Some(to)
    }
}

/// Takes a block into the forest: its edges wait.
fn reach(
    rows: &[Vec<u32>],
    weights: &Weights,
    grown: &mut [bool],
    waiting: &mut Waiting,
    block: usize,
) -> Result<(), AllocError>
    requires rows { (place number : ℕ) → IsAmong (row_of rows.now place) number → number < length weights.now }
    requires marks { length grown.old ≡ length rows.now }
    requires block { block < length rows.now }
    ensures grown { OnOk result (grown.new ≡ slice_set grown.old block true) }
    ensures waiting { OnOk result (IsPermutation (waiting.old ++ map (ranked_of weights.now) (row_of rows.now block)) waiting.new) }
{
    grown[block] = true;
    wait_for(&rows[block], weights, waiting)
}

/// Takes the edge into the forest, with the block that it leads to, if it leads on to one.
fn take_in(
    edges: &[Edge],
    rows: &[Vec<u32>],
    weights: &Weights,
    grown: &mut [bool],
    witness: &mut [bool],
    waiting: &mut Waiting,
    number: u32,
) -> Result<(), AllocError>
    requires rows { AreRows edges.now rows.now }
    requires blocks { (edge one other : ℕ) → Joins edges.now edge one other → one < length rows.now }
    requires weights { length weights.now ≡ length edges.now }
    requires grown { length grown.old ≡ length rows.now }
    requires witness { length witness.old ≡ length edges.now }
    requires number { number < length edges.now }
    ensures grows { (root : ℕ) → IsGrowing edges.now weights.now grown.old witness.old (ranked_of weights.now number ∷ waiting.old) root
        → ComesFirst (ranked_of weights.now number) waiting.old
        → OnOk result (IsGrowing edges.now weights.now grown.new witness.new waiting.new root) }
    ensures stays { OnOk result (StaysGrown grown.old grown.new) }
    ensures left { OnOk result (length waiting.new + rows_left rows.now grown.new ≡ length waiting.old + rows_left rows.now grown.old) }
{
    let Some(block) = beyond(edges, grown, number as usize) else {
        return Ok(());
    };
    witness[number as usize] = false;
    reach(rows, weights, grown, waiting, block as usize)
}

/// Grows the tree of a root, which is the first of its blocks.
fn grow_tree(
    edges: &[Edge],
    rows: &[Vec<u32>],
    weights: &Weights,
    grown: &mut [bool],
    witness: &mut [bool],
    waiting: &mut Waiting,
    root: usize,
) -> Result<(), AllocError>
    requires rows { AreRows edges.now rows.now }
    requires blocks { (edge one other : ℕ) → Joins edges.now edge one other → one < length rows.now }
    requires weights { length weights.now ≡ length edges.now }
    requires grown { length grown.old ≡ length rows.now }
    requires witness { length witness.old ≡ length edges.now }
    requires root { slice_get grown.old root ≡ Some false }
    requires before { HasGrown edges.now weights.now grown.old witness.old }
    requires waiting { waiting.old ≡ [] }
    ensures whole { OnOk result (HasGrown edges.now weights.now grown.new witness.new) }
    ensures waiting { OnOk result (waiting.new ≡ []) }
    ensures stays { OnOk result (StaysGrown grown.old grown.new) }
    ensures root { OnOk result (IsGrown grown.new root) }
{
    reach(rows, weights, grown, waiting, root)?;
    while let Some(first) = waiting.pop() {
        take_in(
            edges,
            rows,
            weights,
            grown,
            witness,
            waiting,
            first.number.0,
        )?;
    }
    Ok(())
}

/// Grows the trees of all blocks.
pub fn grow_forest(
    edges: &[Edge],
    rows: &[Vec<u32>],
    weights: &Weights,
    grown: &mut [bool],
    witness: &mut [bool],
    waiting: &mut Waiting,
) -> Result<(), AllocError>
    requires rows { AreRows edges.now rows.now }
    requires blocks { (edge one other : ℕ) → Joins edges.now edge one other → one < length rows.now }
    requires weights { length weights.now ≡ length edges.now }
    requires grown { length grown.old ≡ length rows.now }
    requires witness { length witness.old ≡ length edges.now }
    requires before { HasGrown edges.now weights.now grown.old witness.old }
    requires waiting { waiting.old ≡ [] }
    ensures whole { OnOk result (HasGrown edges.now weights.now grown.new witness.new) }
    ensures all { OnOk result ((block : ℕ) → block < length rows.now → IsGrown grown.new block) }
{
    for root in 0..rows.len() {
        if !grown[root] {
            grow_tree(edges, rows, weights, grown, witness, waiting, root)?;
        }
    }
    Ok(())
}

/// The marks of all edges but those of the forest.
pub fn marks_off(
    alloc: Global,
    edges: &[Edge],
    blocks: usize,
    weights: &Weights,
) -> Result<Vec<bool>, AllocError>
    requires few { length edges.now < 2 ^ 32 }
    requires blocks { (edge one other : ℕ) → Joins edges.now edge one other → one < blocks }
    requires weights { length weights.now ≡ length edges.now }
    ensures { IfOk result (λ marks. IsSpanning edges.now weights.now marks.items) }
{
    let rows = rows_of(alloc, edges, blocks)?;
    let mut grown = vec![in alloc; false; blocks]?;
    let mut witness = vec![in alloc; true; edges.len()]?;
    let mut waiting = Waiting::new(alloc);
    grow_forest(
        edges,
        &rows,
        weights,
        &mut grown,
        &mut witness,
        &mut waiting,
    )?;
    Ok(witness)
}
