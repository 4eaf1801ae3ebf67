//! The devices of the real system: files and streams, as the traits of the outside that the program's calls are over.
//!
//! [`FileStore`] is a store over the system's files, [`StdSource`] a source over a reader, and [`StdSink`] a sink over a writer. They
//! tell nothing of the bytes that pass, and count their faults.
#![tactic(auto)]

mod faults;
mod file_store;
mod open_files;
mod retry;
mod std_sink;
mod std_source;

pub use file_store::FileStore;
pub use std_sink::StdSink;
pub use std_source::StdSource;
