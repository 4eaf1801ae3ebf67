//! Which values a run has to record: those that later addresses depend on.
//!
//! A register is needed at a word where the address of a later load or store may depend on its value there. Values that are needed and
//! can't be worked out from others, as those of loads, are recorded; the rest is worked out again. It is an analysis backwards over the direct
//! successors of words (Aho, Lam, Sethi and Ullman, section 9.2.5).
#![tactic(auto)]

mod before;
mod demand;
mod needs;
mod predecessors;
mod search;
mod sources;
mod successors;
mod waiting;

pub use demand::Needed;
pub use needs::Needs;
pub use predecessors::Predecessors;
