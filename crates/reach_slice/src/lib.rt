//! Which words compute the address of a load or store: its slice.
#![tactic(auto)]

mod fault;
mod laws;
mod marked;
mod reaching;

pub use fault::SliceFault;
pub use laws::kept_words_are_in_slices;
pub use reaching::Reaching;
