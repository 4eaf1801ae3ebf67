//! The schema of a program: what is known of it beforehand, so that a run's trace can be rebuilt from the events of the run.
//!
//! A [`Schema`] has the entry, where code words stand, and for each code word its class, its marks and the registers that it needs.
//! Its type keeps that it is valid, and that the edges that aren't recorded have no undirected cycle: so at most one path of such
//! edges leads from one word to another. [`schema_of`] makes the schema of an image; [`put_schema`] writes the one spelling of a schema;
//! and [`read_schema`] reads bytes as a schema, or says why they are refused.
#![tactic(auto)]

mod cycles;
mod edges;
mod fault;
mod flags;
mod front;
mod laws;
mod limits;
mod numbers;
mod of_image;
mod reading;
mod refusing;
mod rules;
mod schema;
mod stretches;
mod word;
mod writing;

pub use edges::free_edges;
pub use fault::SchemaFault;
pub use flags::{
    CLASSES, FALL_WITNESS, KEPT, LEADER, TAKEN_WITNESS, class_in, class_number, is_set,
};
pub use laws::{
    a_schema_has_one_spelling, a_schema_has_the_shape_of_its_code,
    a_schema_has_the_words_of_its_code, code_has_one_schema, event_files_are_read_back,
    refusals_are_exact, runs_have_one_list_of_events, written_schemas_are_read,
};
pub use limits::SCHEMA_LIMIT;
pub use of_image::schema_of;
pub use reading::read_schema;
pub use rules::{way_of, witness_mark};
pub use rv_code::Extent as Stretch;
pub use schema::{Schema, gives_value, is_indirect};
pub use word::SchemaWord;
pub use writing::put_schema;
