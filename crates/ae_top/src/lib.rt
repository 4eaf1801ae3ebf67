//! The top call of `ae`: it reads the words of a command line, carries out the command over the outside that it is
//! handed, and answers with a status.
#![tactic(auto)]

mod ending_lines;
mod event_files;
mod events_refusal;
mod exit;
mod finishing;
mod from_graph;
mod graph;
mod inputs;
mod no_file;
mod plain;
mod print_events;
mod print_schema;
mod printing;
mod program;
mod reading;
mod refusal;
mod refusal_lines;
mod regenerate;
mod run;
mod schema_file;
mod status;
mod status_lines;
mod task;
mod top;

pub use events_refusal::EventsRefusal;
pub use exit::exit_code;
pub use refusal::Refusal;
pub use status::Status;
pub use top::ae;
