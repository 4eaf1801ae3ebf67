//! Rows as a person writes them: what the lines of a row say, as bytes, words, numbers and small executables.
//!
//! The page `docs/ROWS.md` has the whole format. Nothing here knows what a row is for: the programs that carry rows out
//! read their own lines, and leave to [`shape`] those that make the bytes of a file.
#![tactic(auto)]

mod elf;
mod executable;
mod fields;
mod forms;
mod numerals;
mod shaping;
mod text;

pub use forms::file_bytes;
pub use numerals::{number, numbers, word};
pub use shaping::shape;
pub use text::{counted, hex_bytes, not_understood, plain_bytes, word_bytes, words_of};
