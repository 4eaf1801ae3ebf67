//! The first edge, among those that aren't recorded, that closes a cycle.
ghost use Rattle.std.specs.Prelude.{◌≡◌, ◌↔◌, ◌<◌, ◌≤◌, ◌^◌, false, IsTrue, IfOk, MatchOption, length, replicate};
ghost use Rattle.std.specs.List.{AllByRecursion};
ghost use Rattle.graph_paths.specs.Forests.{HasNoCycle};
ghost use Rattle.flow_tree.specs.WitnessEdges.{Joins};
ghost use Rattle.schema_form.specs.FreeEdges.{free_edges, HaveNoCycle, IsFirstToClose, NamesFirstToClose};
ghost use Rattle.schema_form.specs.Inner.Inners.{IsInner};
ghost use Rattle.schema_form.specs.Valid.{AreStretches, AreSchemaWords};

use crate::SchemaWord;
use crate::edges::{edge_name, free_edges};
use flow_graph::Edge;
use flow_tree::{WorkRow, check_edges};
use rv_code::Extent;
use std::alloc::{AllocError, Global};

/// Whether the first so many edges have no cycle. None is marked.
fn first_have_none(edges: &[Edge], marks: &[bool], row: &mut WorkRow, count: usize) -> bool
    requires few { length edges.now ≤ 2 ^ 31 }
    requires marks { marks.now ≡ replicate (length edges.now) false }
    requires room { row.old ≤ 2 ^ 32 }
    requires inner { AllByRecursion (IsInner row.old) edges.now }
    requires count { count ≤ length edges.now }
    ensures forest { IsTrue result ↔ HasNoCycle (Joins edges.now) (λ number. number < count) }
    ensures room { row.new ≡ row.old }
{
    check_edges(&edges[..count], &marks[..count], row)
}

/// The number of the first edge that closes a cycle over edges before it, if one does. It is found by halving.
fn first_to_close(edges: &[Edge], marks: &[bool], row: &mut WorkRow) -> Option<usize>
    requires few { length edges.now ≤ 2 ^ 31 }
    requires marks { marks.now ≡ replicate (length edges.now) false }
    requires room { row.old ≤ 2 ^ 32 }
    requires inner { AllByRecursion (IsInner row.old) edges.now }
    ensures { MatchOption result (HaveNoCycle edges.now) (IsFirstToClose edges.now) }
{
    if first_have_none(edges, marks, row, edges.len()) {
        return None;
    }
    let mut without = 0;
    let mut with = edges.len();
    while with - without > 1 {
        let middle = without + (with - without) / 2;
        if first_have_none(edges, marks, row, middle) {
            without = middle;
        } else {
            with = middle;
        }
    }
    Some(without)
}

/// The name of the first edge that closes a cycle, if one does.
pub fn first_cycle(
    alloc: Global,
    stretches: &[Extent],
    words: &[SchemaWord],
) -> Result<Option<u32>, AllocError>
    requires stretches { AreStretches stretches.now }
    requires words { AreSchemaWords stretches.now words.now }
    ensures { IfOk result (λ name. MatchOption name (HaveNoCycle (free_edges stretches.now words.now))
        (NamesFirstToClose (free_edges stretches.now words.now))) }
{
    let edges = free_edges(alloc, stretches, words)?;
    let marks = vec![in alloc; false; edges.len()]?;
    let mut row = WorkRow::new(alloc, words.len() as u32)?;
    match first_to_close(&edges, &marks, &mut row) {
        Some(number) => Ok(Some(edge_name(&edges[number]))),
        None => Ok(None),
    }
}
