//! One program: all sets of its edges, and all its tables of weights.
ghost use Rattle.std.specs.Prelude.{◌≡◌, length};
ghost use Rattle.flow_graph.specs.Edges.{edges_of};
ghost use Rattle.flow_tree.specs.WitnessEdges.{AreGrown};

use crate::plain::{Marked, cuts_cycles, least_weight, marks_of, weight_of};
use crate::tally::Tally;
use flow_graph::Graph;
use flow_tree::{Forest, Weights, WorkRow, certificate, check_forest, witnesses};
use row_answers::image_of;
use row_form::not_understood;
use rv_code::Image;
use std::alloc::{AllocError, Global};
use std::io;

/// How many sets there are of 0 to 5 edges.
const SETS: [u32; 6] = [1, 2, 4, 8, 16, 32];

/// Tries the program of an executable, if its graph has at most five edges.
pub fn try_program(alloc: Global, file: &[u8], tally: &mut Tally) -> io::Result<()> {
    match image_of(alloc, file) {
        Some(image) => try_image(alloc, &image, tally)?,
        None => return Err(not_understood()),
    }
    Ok(())
}

fn try_image(alloc: Global, image: &Image, tally: &mut Tally) -> Result<(), AllocError> {
    let graph = Graph::build(alloc, image)?;
    match SETS.get(graph.edges().len()) {
        Some(sets) => try_graph(alloc, &graph, *sets, tally),
        None => Ok(()),
    }
}

/// Tries a graph whose edges have so many sets.
fn try_graph(alloc: Global, graph: &Graph, sets: u32, tally: &mut Tally) -> Result<(), AllocError> {
    tally.count_program();
    tally.judge(graph.blocks().len() == 4);
    for number in 0..sets {
        tally.judge(checks_marks(alloc, graph, number)?);
        tally.count_table();
        tally.judge(tries_table(alloc, graph, number, sets)?);
    }
    Ok(())
}

/// Whether the check of a forest says of a set of edges what the plain program says.
fn checks_marks(alloc: Global, graph: &Graph, number: u32) -> Result<bool, AllocError> {
    let marks = marks_of(number);
    let edges = graph.edges();
    if edges.len() > marks.len() || graph.blocks().len() > 4 {
        return Ok(false);
    }
    let marks = &marks[..edges.len()];
    let mut row = WorkRow::new(alloc, 4)?;
    Ok(check_forest(graph, marks, &mut row) == cuts_cycles(edges, marks))
}

/// Whether the witness edges under the table of weights with this number weigh least, and all certificates are right.
fn tries_table(alloc: Global, graph: &Graph, number: u32, sets: u32) -> Result<bool, AllocError> {
    let mut table = Vec::new(alloc);
    for (_, heavier) in graph.edges().iter().zip(marks_of(number)) {
        table.push(if heavier { 2 } else { 1 })?;
    }
    match Weights::given(graph, table) {
        Ok(weights) => tries_weights(alloc, graph, &weights, sets),
        Err(_) => Ok(false),
    }
}

fn tries_weights(
    alloc: Global,
    graph: &Graph,
    weights: &Weights,
    sets: u32,
) -> Result<bool, AllocError>
    requires { length weights.now ≡ length (edges_of graph.now) }
{
    let forest = witnesses(alloc, graph, weights)?;
    let marked = Marked {
        edges: graph.edges(),
        marks: forest.witness.as_slice(),
        weights: weights.as_slice(),
    };
    Ok(weighs_least(&marked, sets) && has_certificates(alloc, graph, &forest, &marked)?)
}

/// Whether the marked edges cut all cycles and none of so many sets that do weighs less.
fn weighs_least(marked: &Marked, sets: u32) -> bool {
    let least = least_weight(marked.edges, marked.weights, sets);
    cuts_cycles(marked.edges, marked.marks) && weight_of(marked.marks, marked.weights) == least
}

/// Whether the certificate of each edge is one.
fn has_certificates(
    alloc: Global,
    graph: &Graph,
    forest: &Forest,
    marked: &Marked,
) -> Result<bool, AllocError>
    requires { AreGrown (edges_of graph.now) forest.now.witness }
{
    let Ok(count) = u32::try_from(graph.edges().len()) else {
        return Ok(false);
    };
    for number in 0..count {
        let path = certificate(alloc, graph, forest, number)?;
        if !marked.is_certificate(number, &path) {
            return Ok(false);
        }
    }
    Ok(true)
}
