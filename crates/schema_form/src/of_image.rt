//! The schema of an image.
ghost use Rattle.std.specs.Prelude.{◌≡◌, ◌↔◌, ◌⊎◌, ◌<◌, ◌^◌, ℕ, Bool, true, false, List, Some, None, IfOk, IsTrue, length};
ghost use Rattle.std.specs.List.{AllByRecursion, slice_index_or};
ghost use Rattle.rv_code.specs.Code.{extent_of, extents_of};
ghost use Rattle.rv_code.specs.Image.{word_count};
ghost use Rattle.rv_code.specs.Places.{AreCodeExtents, EndsInSpace, address_of};
ghost use Rattle.flow_graph.specs.CodeParts.{code_parts, has_code};
ghost use Rattle.flow_graph.specs.Edges.{edges_of, is_taken_kind};
ghost use Rattle.flow_graph.specs.Leaders.{is_leader};
ghost use Rattle.flow_tree.specs.WitnessEdges.{CutsCycles};
ghost use Rattle.need_sets.specs.Words.{class_at};
ghost use Rattle.schema_form.specs.Inner.Recorded.{AreRecorded};
ghost use Rattle.schema_form.specs.OfImage.{AreSchemaWordsOf, GivesKept, IsRecorded, IsSchemaOf, IsSchemaWordOf, flags_of, mark_if, raw_word_of};
ghost use Rattle.schema_form.specs.Valid.{AreNumbersOfWord};

use crate::flags::{FALL_WITNESS, KEPT, LEADER, TAKEN_WITNESS, class_number};
use crate::schema::with_parts;
use crate::{Schema, SchemaWord};
use flow_graph::{Edge, Graph, address_at, blocks_are_runs_of_code_words};
use flow_tree::Forest;
use need_sets::Needs;
use rv_code::{Class, Extent, Image, Range, class_of, count_in, decode};
use std::alloc::{AllocError, Global};

fn mark_if(mark: u32, set: bool) -> u32
    ensures { result ≡ mark_if mark set }
{
    if set { mark } else { 0 }
}

/// The flags of a word of the class with these marks.
fn flags_of(class: Class, leader: bool, fall: bool, taken: bool, kept: bool) -> u32
    ensures { result ≡ flags_of class leader fall taken kept }
{
    class_number(class)
        + mark_if(LEADER, leader)
        + mark_if(FALL_WITNESS, fall)
        + mark_if(TAKEN_WITNESS, taken)
        + mark_if(KEPT, kept)
}

/// The code word, left out as 0 where it is Plain and isn't kept.
fn raw_word_of(class: Class, kept: bool, value: u32) -> u32
    ensures { result ≡ raw_word_of class kept value }
{
    if class_number(class) == 0 && !kept {
        0
    } else {
        value
    }
}

/// Sets the cell of the code word at the address, if one stands there.
fn set_cell(graph: &Graph, cells: &mut [bool], address: u32)
    requires order { AreCodeExtents (extents_of graph.now.code) }
    requires cells { length cells.old ≡ word_count graph.now.code }
    ensures size { length cells.new ≡ length cells.old }
    ensures set { (place there : ℕ) → address_of (extents_of graph.now.code) place ≡ Some there
        → (slice_index_or cells.new place false ≡ true) ↔ ((slice_index_or cells.old place false ≡ true) ⊎ (there ≡ address)) }
{
    if let Some(place) = graph.place_of(address) {
        cells[place as usize] = true;
    }
}

/// Whether an edge is marked, and leaves by this way.
fn is_recorded(edge: &Edge, marked: bool, taken: bool) -> bool
    ensures { IsTrue result ↔ (IsTrue marked × (is_taken_kind edge.now.kind ≡ taken)) }
{
    marked && edge.kind.is_taken() == taken
}

/// Which words have an edge by this way that is marked, by their places.
fn recorded_ways(
    alloc: Global,
    graph: &Graph,
    marks: &[bool],
    taken: bool,
) -> Result<Vec<bool>, AllocError>
    requires { length marks.now ≡ length (edges_of graph.now) }
    ensures { IfOk result (λ cells. AreRecorded graph.now marks.now taken cells.items) }
{
    let edges = graph.edges();
    let mut cells = vec![in alloc; false; count_in(graph.ranges()) as usize]?;
    for number in 0..edges.len() {
        if is_recorded(&edges[number], marks[number], taken) {
            set_cell(graph, &mut cells, edges[number].from);
        }
    }
    Ok(cells)
}

/// Whether the code word at the address is a leader.
fn is_leader(graph: &Graph, address: u32) -> bool
    requires order { AreCodeExtents (extents_of graph.now.code) }
    requires ends { AllByRecursion EndsInSpace (extents_of graph.now.code) }
    requires code { has_code graph.now address ≡ true }
    ensures { result ≡ is_leader graph.now address }
{
    blocks_are_runs_of_code_words();
    match graph.block_at(address) {
        Some(number) => graph.blocks()[number as usize].leader == address,
        None => unreachable!(),
    }
}

/// Whether what a word of the class gives is kept.
fn gives_kept(needs: &Needs, class: Class, address: u32) -> bool
    requires { class_at needs.now address ≡ Some class }
    ensures { IsTrue result ↔ GivesKept needs.now address }
{
    match class {
        Class::Plain => needs.kept(address),
        Class::Load => needs.hard(address),
        _ => false,
    }
}

/// What a schema has for the code word at the address, of which it is known which ways are recorded.
fn schema_word_of(graph: &Graph, needs: &Needs, address: u32, fall: bool, taken: bool) -> SchemaWord
    requires order { AreCodeExtents (extents_of graph.now.code) }
    requires ends { AllByRecursion EndsInSpace (extents_of graph.now.code) }
    requires needs { needs.now ≡ graph.now.code }
    requires code { has_code graph.now address ≡ true }
    ensures word { (marks : List Bool) → (IsTrue fall ↔ IsRecorded graph.now marks false address) → (IsTrue taken ↔ IsRecorded graph.now marks true address)
        → IsSchemaWordOf graph.now marks address result }
    ensures numbers { AreNumbersOfWord result }
{
    match (graph.word_at(address), needs.mask(address)) {
        (Some(value), Some(mask)) => {
            let class = class_of(&decode(value));
            let leader = is_leader(graph, address);
            let kept = gives_kept(needs, class, address);
            SchemaWord {
                flags: flags_of(class, leader, fall, taken, kept),
                raw: raw_word_of(class, kept, value),
                mask,
            }
        }
        _ => unreachable!(),
    }
}

/// What a schema has for each code word, where it is known which ways are recorded.
fn schema_words_by(
    alloc: Global,
    graph: &Graph,
    needs: &Needs,
    falls: &[bool],
    takes: &[bool],
) -> Result<Vec<SchemaWord>, AllocError>
    requires needs { needs.now ≡ graph.now.code }
    requires falls { length falls.now ≡ word_count graph.now.code }
    requires takes { length takes.now ≡ word_count graph.now.code }
    ensures words { (marks : List Bool) → AreRecorded graph.now marks false falls.now → AreRecorded graph.now marks true takes.now
        → IfOk result (λ words. AreSchemaWordsOf graph.now marks (word_count graph.now.code) words.items) }
    ensures numbers { IfOk result (λ words. AllByRecursion AreNumbersOfWord words.items) }
{
    let ranges = graph.ranges();
    let mut words = Vec::with_capacity(alloc, count_in(ranges) as usize)?;
    for place in 0..count_in(ranges) {
        let fall = falls[place as usize];
        let taken = takes[place as usize];
        words.push(schema_word_of(graph, needs, address_at(ranges, place), fall, taken))?;
    }
    Ok(words)
}

/// What a schema has for each code word.
fn schema_words_of(
    alloc: Global,
    graph: &Graph,
    marks: &[bool],
    needs: &Needs,
) -> Result<Vec<SchemaWord>, AllocError>
    requires marks { length marks.now ≡ length (edges_of graph.now) }
    requires needs { needs.now ≡ graph.now.code }
    ensures words { IfOk result (λ words. AreSchemaWordsOf graph.now marks.now (word_count graph.now.code) words.items) }
    ensures numbers { IfOk result (λ words. AllByRecursion AreNumbersOfWord words.items) }
{
    let falls = recorded_ways(alloc, graph, marks, false)?;
    let takes = recorded_ways(alloc, graph, marks, true)?;
    schema_words_by(alloc, graph, needs, &falls, &takes)
}

fn extent_of(range: &Range) -> Extent
    requires { length range.now.words < 2 ^ 32 }
    ensures { result ≡ extent_of range.now }
{
    Extent {
        start: range.start,
        count: range.words.as_slice().len() as u32,
    }
}

/// Where the words of the ranges stand.
fn extents_of(alloc: Global, ranges: &[Range]) -> Result<Vec<Extent>, AllocError>
    requires { word_count ranges.now < 2 ^ 32 }
    ensures { IfOk result (λ extents. extents.items ≡ extents_of ranges.now) }
{
    let mut extents = Vec::with_capacity(alloc, ranges.len())?;
    for range in ranges {
        extents.push(extent_of(range))?;
    }
    Ok(extents)
}

/// The schema of an image without a note, where graph, forest and needs were made from it. The edges that are marked are those off the
/// forest; any marks will do that leave no undirected cycle.
///
/// The only error is want of memory. Time and memory grow with the number of code words.
pub fn schema_of(
    alloc: Global,
    image: &Image,
    graph: &Graph,
    forest: &Forest,
    needs: &Needs,
) -> Result<Schema, AllocError>
    requires note { image.now.note ≡ None }
    requires graph { graph.now ≡ code_parts image.now }
    requires marks { length forest.now.witness ≡ length (edges_of graph.now) }
    requires cuts { CutsCycles (edges_of graph.now) forest.now.witness }
    requires needs { needs.now ≡ graph.now.code }
    ensures { IfOk result (IsSchemaOf graph.now forest.now.witness) }
{
    blocks_are_runs_of_code_words();
    let words = schema_words_of(alloc, graph, forest.witness.as_slice(), needs)?;
    let stretches = extents_of(alloc, graph.ranges())?;
    with_parts(alloc, image.entry, stretches, words)
}
