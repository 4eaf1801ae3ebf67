//! The memory of a machine: mapped bytes in regions, in the order of their addresses.
//!
//! [`Memory`] holds the regions of an image and the stack. `specs/` sees it as a list of cells, one for each mapped byte,
//! and an access as one of each byte at addresses that follow each other modulo 2^32. The code finds a region by binary
//! search, and reads or writes all the bytes of an access there; only where they don't lie in one region does it go byte by
//! byte. Both ways have the same contract. [`laws`] says that reads give what was last written.
#![tactic(auto)]

mod hole;
pub mod laws;
mod loading;
mod memory;
mod place;
mod reading;
mod stretch;
mod writing;

pub use hole::Hole;
pub use memory::Memory;
