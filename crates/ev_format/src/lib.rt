//! The event file of a run: what a rewritten program records so that its trace can be rebuilt.
//!
//! A file is a header of 16 bytes, which names the program, and then records, each one word or a few. [`put_record`] spells a
//! record. Which records may stand in a file, and how long each is, is known from the program, seen as a [`Shape`].
//! [`Records`] reads the records of a file one by one, and says why reading stopped. What was written is read back, and no
//! file spells two lists of records.
#![tactic(auto)]

mod body;
mod fill;
mod halt;
mod header;
mod kind;
mod laws;
mod next;
mod piece;
mod place;
mod put;
mod reader;
mod record;
mod records;
mod shape;
mod slot;
mod steady;
mod stop;
mod values;

pub use body::value_count;
pub use halt::Halt;
pub use header::are_of_another;
pub use kind::RecordKind;
pub use laws::{
    a_reading_begins_with_each_front, a_reading_is_the_only_one, one_front_begins_the_other,
    records_have_one_spelling, written_records_are_read,
};
pub use next::{EventFault, Next};
pub use place::Place;
pub use put::put_record;
pub use record::Record;
pub use records::Records;
pub use shape::Shape;
pub use slot::Slot;
pub use stop::Stop;
pub use values::Values;
