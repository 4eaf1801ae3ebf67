//! The walk over a schema: a run's items, worked out from the events of the run.
//!
//! A [`Walk`] stands before a word, after it, or outside the code, and has the registers that are needed. It takes a record at a time:
//! [`Walk::advance`] makes the moves up to and with the one that gives the record, and hands on their items. From one word to another
//! at most one way leads over edges that aren't recorded, so a record says which moves these are. Memory is no part of a walk: what is
//! read from it and is needed stands in the records.
#![tactic(auto)]

mod accesses;
mod arcs;
mod crossing;
mod decoded;
mod going;
mod laws;
mod met;
mod position;
mod registers;
mod replaying;
mod telling;
mod turn;
mod walk;

pub use laws::{
    bytes_give_back_one_trace, explained_records_have_one_list_of_items,
    fronts_of_explained_records_are_explained, the_shortest_walk_ends_with_a_record,
    walks_with_the_same_records_are_one,
};
pub use replaying::{Halted, replay};
pub use turn::{Turn, WalkFault};
pub use walk::Walk;
