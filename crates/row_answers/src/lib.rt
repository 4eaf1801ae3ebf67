//! Answers, as texts, to what rows ask of the calls beneath the top call: of command words, numbers, code words, images, flow graphs,
//! needs and slices, memory, devices in memory and the writer of lines.
//!
//! The page `docs/ROWS.md` lists the questions. An answer is what the call gave and nothing that was worked out here, so that
//! a row compares it with a text from elsewhere.
#![tactic(auto)]

mod asked;
mod changing;
mod code;
mod commands;
mod devices;
mod graph;
mod image;
mod lent;
mod memory;
mod needs;
mod numbers;
mod schema;
mod telling;
mod writing;

pub use asked::Asked;
pub use image::image_of;
