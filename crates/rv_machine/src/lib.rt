//! The user-level machine that runs an image, and what its runs are.
//!
//! `specs/` has the whole of it: the state, the step with every ending and the table of calls, runs with their items and
//! event bytes, dumps, and clean and good runs. [`laws`] has what holds of all runs.
#![tactic(auto)]

mod acted;
mod buffers;
mod code;
mod kept;
pub mod laws;
mod loaded;
mod loading;
mod machine;
mod outcome;
mod recording;
mod seen;
mod sizes;
mod table;
mod taking;
mod untraced;

pub use machine::Machine;
pub use outcome::{MachineFault, Outcome};
pub use seen::{Seen, Step};
pub use sizes::{load_size, store_size};
