//! The grammar of the command line: which command the words spell, and where among them its files are named.
#![tactic(auto)]

mod command;
mod files;
mod forms;
mod numbers;
mod options;

pub use command::{Command, read_words};
