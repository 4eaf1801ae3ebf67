//! The texts that `print` gives, a module for each: that of an ELF file's tables, the listing of an image's code, the texts of its flow
//! graph, of what its words need, and of the slices of its loads and stores, and those of a schema and of an event file.
//!
//! Each is written line by line to a sink. After a fault the sink has a front of the text.
#![tactic(auto)]

mod block_lines;
mod code;
mod edge_lines;
mod elf;
mod events;
mod fault;
mod graph;
mod mark;
mod needs;
mod pieces;
mod routine_lines;
mod schema;
mod slices;
mod spaced;

pub use code::print_code;
pub use elf::print_elf;
pub use events::{print_events, print_record};
pub use fault::PrintFault;
pub use graph::print_graph;
pub use needs::print_needs;
pub use schema::print_schema;
pub use slices::print_slices;
