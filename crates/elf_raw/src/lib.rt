//! The tables of an ELF32 file, as numbers (System V ABI, chapters 4 and 5).
//!
//! [`read_raw`] reads the header, the program headers, the sections, the symbols and the relocations of a file, or says why
//! it isn't taken for a static executable of RV32. What it reads is all that the file's tables say; nothing is interpreted.
//! [`write_raw`] writes a file with such tables, and with pieces of bytes at offsets, that is read back as the same tables.
#![tactic(auto)]

mod encoding;
mod entries;
mod fault;
mod header;
mod laws;
mod laying;
mod limits;
mod names;
mod numbers;
mod piece;
mod raw;
mod reading;
mod refusing;
mod relocation;
mod section;
mod segment;
mod symbol;
mod symbols;
mod tables;
mod writing;

pub use entries::{relocation_table, string_table, symbol_table};
pub use fault::ElfFault;
pub use header::RawHeader;
pub use laws::{taken_files_are_sound, words_are_read_back};
pub use limits::FILE_LIMIT;
pub use numbers::{add_words, word_at};
pub use piece::Piece;
pub use raw::RawElf;
pub use reading::read_raw;
pub use relocation::RawRelocation;
pub use section::{RawSection, SYMBOLS, has_no_bytes};
pub use segment::RawSegment;
pub use symbol::{RawSymbol, SYMBOL_SIZE};
pub use writing::write_raw;
