//! The edges that a walk passes without any record, and the paths over them.
ghost use Rattle.std.specs.Prelude.{◌≡◌, IfOk, length};
ghost use Rattle.regen_path.specs.Arcs.{AreWays};
ghost use Rattle.regen_walk.specs.FreeArcs.{goes_quietly, word_goes_quietly, kind_number, quiet_arc, quiet_arcs_among, quiet_arcs};

use flow_graph::Edge;
use regen_path::{Arc, Paths};
use rv_code::Class;
use schema_form::{KEPT, Schema, SchemaWord, class_in, free_edges, is_set};
use std::alloc::{AllocError, Global};

/// Whether a word of the class goes on by a way, and needs no record for it.
#[inline(always)]
pub fn goes_quietly(kept: bool, taken: bool, class: Class) -> bool
    ensures { result ≡ goes_quietly kept taken class }
{
    match class {
        Class::Plain | Class::Store => !taken,
        Class::Load => !kept && !taken,
        Class::Branch => true,
        Class::Jump => taken,
        Class::Indirect | Class::Call | Class::Stop => false,
    }
}

/// Whether a word goes on by a way, and needs no record for it.
fn word_goes_quietly(taken: bool, word: SchemaWord) -> bool
    ensures { result ≡ word_goes_quietly taken word }
{
    match class_in(word.flags) {
        Some(class) => goes_quietly(is_set(KEPT, word.flags), taken, class),
        None => false,
    }
}

/// The number of an arc's kind, by its way.
#[inline(always)]
fn kind_number(taken: bool) -> u8
    ensures { result ≡ kind_number taken }
{
    if taken { 1 } else { 0 }
}

/// The arc of an edge whose word needs no record, if it leads to a code word.
fn quiet_arc(words: &[SchemaWord], edge: &Edge) -> Option<Arc>
    ensures { result ≡ quiet_arc words.now edge.now }
{
    let taken = edge.kind.is_taken();
    let word = words.get(edge.source as usize).copied()?;
    if !word_goes_quietly(taken, word) {
        return None;
    }
    let to = edge.to?;
    Some(Arc {
        from: edge.source,
        to,
        kind: kind_number(taken),
    })
}

/// The arcs of these edges.
fn quiet_arcs_among(
    alloc: Global,
    words: &[SchemaWord],
    edges: &[Edge],
) -> Result<Vec<Arc>, AllocError>
    ensures { IfOk result (λ arcs. arcs.items ≡ quiet_arcs_among words.now edges.now) }
{
    let mut arcs = Vec::new(alloc);
    for edge in edges {
        if let Some(arc) = quiet_arc(words, edge) {
            arcs.push(arc)?;
        }
    }
    Ok(arcs)
}

/// The arcs of a schema.
fn quiet_arcs(alloc: Global, schema: &Schema) -> Result<Vec<Arc>, AllocError>
    ensures { IfOk result (λ arcs. arcs.items ≡ quiet_arcs schema.now) }
{
    let words = schema.words.as_slice();
    let edges = free_edges(alloc, schema.stretches.as_slice(), words)?;
    quiet_arcs_among(alloc, words, &edges)
}

/// The paths over the edges that a walk passes without any record.
pub fn quiet_paths(alloc: Global, schema: &Schema) -> Result<Paths, AllocError>
    ensures { IfOk result (AreWays (quiet_arcs schema.now) (length schema.now.words)) }
{
    let arcs = quiet_arcs(alloc, schema)?;
    let count = schema.words.as_slice().len() as u32;
    Paths::build(alloc, count, &arcs)
}
