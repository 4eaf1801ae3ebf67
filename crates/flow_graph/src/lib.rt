//! The flow graph of an executable's code: its basic blocks, and the edges between them.
//!
//! Leaders, blocks and edges are those of compilers (Aho, Sethi and Ullman; Ball and Larus), over the code words of an image.
#![tactic(auto)]

mod block;
mod blocks;
mod copies;
mod edge;
mod edges;
mod flow;
mod graph;
mod laws;
mod leaders;
mod marks;
mod numbers;
mod routines;
mod walk;

pub use block::Block;
pub use copies::copies_of;
pub use edge::{Edge, Kind};
pub use graph::Graph;
pub use laws::{
    blocks_are_runs_of_code_words, edges_join_blocks, the_first_symbol_of_a_name_keeps_it,
};
pub use walk::address_at;
