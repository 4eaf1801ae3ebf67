//! The schema of an executable with its witnesses by depth.
ghost use Rattle.std.specs.Prelude.{◌≡◌, None, length};
ghost use Rattle.flow_graph.specs.CodeParts.{code_parts};
ghost use Rattle.flow_graph.specs.Edges.{edges_of};
ghost use Rattle.flow_tree.specs.WitnessEdges.{CutsCycles};

use crate::telling::{enough, hex_or_nothing, hex_text};
use ae_ports::MemorySink;
use flow_graph::Graph;
use flow_tree::{Forest, Weights, witnesses};
use need_sets::Needs;
use row_form::not_understood;
use rv_code::Image;
use schema_form::{Schema, put_schema, schema_of};
use std::alloc::Global;
use std::io;

/// The bytes of the schema of an image, or that it has none since it has a note.
pub fn schema_answer(alloc: Global, image: &Image) -> io::Result<Vec<u8>> {
    if image.note.is_some() {
        return hex_or_nothing(alloc, None);
    }
    let graph = Graph::build(alloc, image)?;
    of_graph(alloc, image, &graph)
}

fn of_graph(alloc: Global, image: &Image, graph: &Graph) -> io::Result<Vec<u8>>
    requires note { image.now.note ≡ None }
    requires graph { graph.now ≡ code_parts image.now }
{
    let weights = Weights::by_depth(alloc, graph)?;
    under_weights(alloc, image, graph, &weights)
}

fn under_weights(
    alloc: Global,
    image: &Image,
    graph: &Graph,
    weights: &Weights,
) -> io::Result<Vec<u8>>
    requires note { image.now.note ≡ None }
    requires graph { graph.now ≡ code_parts image.now }
    requires weights { length weights.now ≡ length (edges_of graph.now) }
{
    let forest = witnesses(alloc, graph, weights)?;
    with_forest(alloc, image, graph, &forest)
}

fn with_forest(alloc: Global, image: &Image, graph: &Graph, forest: &Forest) -> io::Result<Vec<u8>>
    requires note { image.now.note ≡ None }
    requires graph { graph.now ≡ code_parts image.now }
    requires marks { length forest.now.witness ≡ length (edges_of graph.now) }
    requires cuts { CutsCycles (edges_of graph.now) forest.now.witness }
{
    let needs = Needs::build(alloc, graph)?;
    let schema = schema_of(alloc, image, graph, forest, &needs)?;
    bytes_text(alloc, &schema)
}

/// The bytes of a schema.
fn bytes_text(alloc: Global, schema: &Schema) -> io::Result<Vec<u8>> {
    let mut sink = MemorySink::new(alloc, Vec::new(alloc));
    if put_schema(schema, &mut sink).is_err() {
        return Err(not_understood());
    }
    enough(sink.starved())?;
    hex_text(alloc, sink.taken())
}
