//! Numbers and texts: what a trace records, where its items go to, and how it is printed.
#![tactic(auto)]

mod digits;
mod header;
mod hex;
mod item;
mod laws;
mod registers;
mod room;
mod span;
mod taker;
mod text;
mod trace;
mod words;
mod writer;

pub use digits::{decimal, read_decimal};
pub use header::event_header;
pub use hex::hex8;
pub use item::Item;
pub use laws::masks_have_their_registers;
pub use registers::{Registers, registers_of};
pub use span::Span64;
pub use taker::Taker;
pub use text::Text;
pub use trace::item_line;
pub use words::{put_u32, take_u32};
pub use writer::LineWriter;
