//! The listing of code: a line for each code word, with the word's address and the instruction that it is.
//!
//! Instructions are written as in the manual's assembly, with registers by number and nothing abbreviated.
#![tactic(auto)]

mod lines;
mod names;
mod pieces;
mod shapes;

pub use lines::listing;
