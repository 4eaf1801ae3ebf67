//! The flow graph of an executable: blocks, depths, weights, witness edges and their certificates.
ghost use Rattle.std.specs.Prelude.{◌≡◌, ◌<◌, length};
ghost use Rattle.flow_graph.specs.Edges.{edges_of};

use crate::telling::{add, bytes, decimal_or_nothing, split, words};
use flow_graph::Graph;
use flow_tree::{Forest, Weights, WorkRow, certificate, check_forest, depth, witnesses};
use row_form::not_understood;
use std::alloc::{AllocError, Global};
use std::io;

/// The answer to a question of a flow graph.
pub fn graph_answer(alloc: Global, graph: &Graph, question: &str) -> io::Result<Vec<u8>> {
    let (key, rest) = split(question);
    let numbers = words(alloc, rest)?;
    match key {
        "block" => blocks_at(alloc, graph, &numbers),
        "depth" => depths_of(alloc, graph, &numbers),
        "weight" => weights_of(alloc, graph, &numbers),
        "witnesses" => marks_by(alloc, graph, numbers),
        "forest" => is_forest(alloc, graph, &numbers),
        "certificate" => path_of(alloc, graph, &numbers),
        _ => Err(not_understood()),
    }
}

/// The numbers of the blocks that hold these addresses.
fn blocks_at(alloc: Global, graph: &Graph, addresses: &[u32]) -> io::Result<Vec<u8>> {
    let mut answers = Vec::new(alloc);
    for address in addresses {
        let block = graph.block_at(*address).map(u64::from);
        add(&mut answers, &decimal_or_nothing(alloc, block)?)?;
    }
    Ok(answers)
}

/// The depths of the blocks with these numbers.
fn depths_of(alloc: Global, graph: &Graph, blocks: &[u32]) -> io::Result<Vec<u8>> {
    let mut answers = Vec::new(alloc);
    for block in blocks {
        let is_there = (*block as usize) < graph.blocks().len();
        let depth = if is_there {
            Some(u64::from(depth(graph, *block)))
        } else {
            None
        };
        add(&mut answers, &decimal_or_nothing(alloc, depth)?)?;
    }
    Ok(answers)
}

/// The weights by depth of the edges with these numbers.
fn weights_of(alloc: Global, graph: &Graph, edges: &[u32]) -> io::Result<Vec<u8>> {
    let weights = Weights::by_depth(alloc, graph)?;
    let mut answers = Vec::new(alloc);
    for edge in edges {
        let weight = weights.at(*edge).map(u64::from);
        add(&mut answers, &decimal_or_nothing(alloc, weight)?)?;
    }
    Ok(answers)
}

/// Numbers in decimal, between blanks; `none` where there are none.
fn list_text(alloc: Global, numbers: &[u32]) -> io::Result<Vec<u8>> {
    if numbers.is_empty() {
        return bytes(alloc, "none");
    }
    let mut answer = Vec::new(alloc);
    for number in numbers {
        add(&mut answer, format!(in alloc; "{number}")?.as_bytes())?;
    }
    Ok(answer)
}

/// The numbers of the edges that are witnesses under this table of weights; of a table that doesn't fit, the table that comes back.
fn marks_by(alloc: Global, graph: &Graph, table: Vec<u32>) -> io::Result<Vec<u8>> {
    match Weights::given(graph, table) {
        Ok(weights) => marks_under(alloc, graph, &weights),
        Err(back) => back_text(alloc, &back),
    }
}

fn back_text(alloc: Global, back: &[u32]) -> io::Result<Vec<u8>> {
    let mut answer = bytes(alloc, "back")?;
    add(&mut answer, &list_text(alloc, back)?)?;
    Ok(answer)
}

fn marks_under(alloc: Global, graph: &Graph, weights: &Weights) -> io::Result<Vec<u8>>
    requires { length weights.now ≡ length (edges_of graph.now) }
{
    let forest = witnesses(alloc, graph, weights)?;
    list_text(alloc, &marked(alloc, &forest)?)
}

/// The numbers of the marked edges.
fn marked(alloc: Global, forest: &Forest) -> Result<Vec<u32>, AllocError> {
    let mut numbers = Vec::new(alloc);
    let mut number: u32 = 0;
    for mark in forest.witness.as_slice() {
        if *mark {
            numbers.push(number)?;
        }
        number = number.saturating_add(1);
    }
    Ok(numbers)
}

/// Whether these marks, one an edge, 1 or 0, are those of edges off a forest.
fn is_forest(alloc: Global, graph: &Graph, digits: &[u32]) -> io::Result<Vec<u8>> {
    let mut marks = Vec::new(alloc);
    for digit in digits {
        marks.push(*digit == 1)?;
    }
    if marks.len() != graph.edges().len() {
        return Err(not_understood());
    }
    bytes(alloc, checked(alloc, graph, &marks)?)
}

fn checked(alloc: Global, graph: &Graph, marks: &[bool]) -> io::Result<&'static str>
    requires { length marks.now ≡ length (edges_of graph.now) }
{
    let Ok(blocks) = u32::try_from(graph.blocks().len()) else {
        return Err(not_understood());
    };
    let mut row = WorkRow::new(alloc, blocks)?;
    Ok(if check_forest(graph, marks, &mut row) {
        "yes"
    } else {
        "no"
    })
}

/// The certificate of an edge, whose number comes first, under a table of weights.
fn path_of(alloc: Global, graph: &Graph, numbers: &[u32]) -> io::Result<Vec<u8>> {
    let [edge, table @ ..] = numbers else {
        return Err(not_understood());
    };
    if *edge as usize >= graph.edges().len() {
        return Err(not_understood());
    }
    match Weights::given(graph, table.to_vec(alloc)?) {
        Ok(weights) => path_under(alloc, graph, &weights, *edge),
        Err(_) => Err(not_understood()),
    }
}

fn path_under(alloc: Global, graph: &Graph, weights: &Weights, edge: u32) -> io::Result<Vec<u8>>
    requires weights { length weights.now ≡ length (edges_of graph.now) }
    requires edge { edge < length (edges_of graph.now) }
{
    let forest = witnesses(alloc, graph, weights)?;
    list_text(alloc, &certificate(alloc, graph, &forest, edge)?)
}
