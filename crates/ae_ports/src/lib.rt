//! The outside of `ae` as traits: bytes come from a [`Source`], go to a [`Sink`], and files stand in a [`Store`].
//!
//! Each trait says what a call does to the content of its object, where the object tells it, and that a call answers
//! [`Failed`] only where the object's count of faults rose in that call. Objects in memory, which tell everything and
//! fail at the calls that were named, stand in for files and streams in tests.
#![tactic(auto)]

mod calls;
mod copy;
mod dropped;
mod failed;
mod file;
mod memory_sink;
mod memory_source;
mod memory_store;
mod sink;
mod source;
mod steady_source;
mod store;
mod store_sink;
mod store_source;
mod whole;
mod word;

pub use dropped::Dropped;
pub use failed::Failed;
pub use memory_sink::MemorySink;
pub use memory_source::MemorySource;
pub use memory_store::MemoryStore;
pub use sink::Sink;
pub use source::Source;
pub use steady_source::SteadySource;
pub use store::Store;
pub use store_sink::StoreSink;
pub use store_source::StoreSource;
pub use whole::{write_all, write_file};
pub use word::Word;
