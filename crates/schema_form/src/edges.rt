//! The edges between code words that aren't recorded.
ghost use Rattle.std.specs.Prelude.{◌≡◌, ◌<◌, ◌^◌, ◌++◌, IfOk, length};
ghost use Rattle.flow_graph.specs.Edges.{kind_by};
ghost use Rattle.schema_form.specs.FreeEdges.{free_edge, free_edges_as, free_edges_of, free_edges_at, free_edges, edge_name};
ghost use Rattle.schema_form.specs.Layout.{words_total};
ghost use Rattle.schema_form.specs.Valid.{AreStretches};

use crate::SchemaWord;
use crate::flags::{class_in, is_set};
use crate::rules::{way_of, witness_mark};
use crate::stretches::{address_of, place_of};
use flow_graph::{Edge, Kind};
use rv_code::{Class, Extent};
use std::alloc::{AllocError, Global};

fn kind_by(taken: bool) -> Kind
    ensures { result ≡ kind_by taken }
{
    if taken { Kind::Taken } else { Kind::Fall }
}

/// The edge of one way from a word at a place and address, if the word has that way and it isn't recorded.
fn free_edge(
    stretches: &[Extent],
    taken: bool,
    class: Class,
    word: SchemaWord,
    place: u32,
    address: u32,
) -> Option<Edge>
    requires { AreStretches stretches.now }
    ensures { result ≡ free_edge stretches.now taken class word place address }
{
    if is_set(witness_mark(taken), word.flags) {
        return None;
    }
    let target = way_of(taken, class, word.raw, address)?;
    Some(Edge {
        from: address,
        kind: kind_by(taken),
        source: place,
        to: place_of(stretches, target),
        target,
    })
}

/// Adds the edges of a word of the class.
fn add_edges(
    edges: &mut Vec<Edge>,
    stretches: &[Extent],
    class: Class,
    word: SchemaWord,
    place: u32,
    address: u32,
) -> Result<(), AllocError>
    requires { AreStretches stretches.now }
    ensures { IfOk result (λ _. edges.new.items ≡ edges.old.items ++ free_edges_as stretches.now word place address class) }
{
    if let Some(edge) = free_edge(stretches, false, class, word, place, address) {
        edges.push(edge)?;
    }
    if let Some(edge) = free_edge(stretches, true, class, word, place, address) {
        edges.push(edge)?;
    }
    Ok(())
}

/// Adds the edges of a word at a place and address.
fn add_edges_of(
    edges: &mut Vec<Edge>,
    stretches: &[Extent],
    word: SchemaWord,
    place: u32,
    address: u32,
) -> Result<(), AllocError>
    requires { AreStretches stretches.now }
    ensures { IfOk result (λ _. edges.new.items ≡ edges.old.items ++ free_edges_of stretches.now place word address) }
{
    match class_in(word.flags) {
        Some(class) => add_edges(edges, stretches, class, word, place, address),
        None => Ok(()),
    }
}

/// Adds the edges of the word at a place, if there is one.
fn add_edges_at(
    edges: &mut Vec<Edge>,
    stretches: &[Extent],
    words: &[SchemaWord],
    place: u32,
) -> Result<(), AllocError>
    requires { AreStretches stretches.now }
    ensures { IfOk result (λ _. edges.new.items ≡ edges.old.items ++ free_edges_at stretches.now words.now place) }
{
    if place as usize >= words.len() {
        return Ok(());
    }
    let word = words[place as usize];
    match address_of(stretches, place) {
        Some(address) => add_edges_of(edges, stretches, word, place, address),
        None => Ok(()),
    }
}

/// The edges between code words that aren't recorded, in the order of words, Fall first.
pub fn free_edges(
    alloc: Global,
    stretches: &[Extent],
    words: &[SchemaWord],
) -> Result<Vec<Edge>, AllocError>
    requires stretches { AreStretches stretches.now }
    requires count { length words.now ≡ words_total stretches.now }
    ensures { IfOk result (λ edges. edges.items ≡ free_edges stretches.now words.now) }
{
    let mut edges = Vec::new(alloc);
    for place in 0..words.len() {
        add_edges_at(&mut edges, stretches, words, place as u32)?;
    }
    Ok(edges)
}

/// The name of an edge.
pub fn edge_name(edge: &Edge) -> u32
    requires { edge.now.from < 2 ^ 31 }
    ensures { result ≡ edge_name edge.now }
{
    if edge.kind.is_taken() {
        edge.from + 1
    } else {
        edge.from
    }
}
