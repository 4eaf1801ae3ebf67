//! Paths over the edges of a graph, cycles and forests: definitions and laws, with no code.
//!
//! What an edge joins is a parameter, so the same laws serve the witness edges of a graph of blocks, the reading of a schema, and
//! the directed paths between code words. The definitions are in `specs/`, and the laws in the public files of laws in `proofs/`.
#![tactic(auto)]
