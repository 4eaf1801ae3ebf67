//! Paths in a forest of arcs: which way to go first from one node to another.
//!
//! Each node has at most one arc of each kind out of it, and the arcs have no undirected cycle, so at most one directed walk leads from one
//! node to another. Each tree is rooted, and its nodes are numbered so that the nodes at and under a node have numbers in a row (an
//! order by depth, as in Tarjan, "Depth-first search and linear graph algorithms", 1972). A directed walk rises towards the root and
//! then sinks away from it, so a few comparisons of numbers tell whether there is one.
#![tactic(auto)]

mod arcs;
mod growing;
mod heights;
mod lasts;
mod paths;
mod sources;

pub use arcs::{Arc, Ways};
pub use paths::{Hop, Paths};
