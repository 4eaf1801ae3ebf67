//! Which ELF32 files are accepted as executables of RV32IM, and their images.
//!
//! [`accept`] gives the image of a file whose tables [`elf_raw::read_raw`] has read, or the first refusal that holds.
#![tactic(auto)]

mod accepting;
mod fault;
mod laws;
mod loads;
mod names;
mod note;
mod note_writing;
mod regions;
mod relocations;
mod sections;
mod words;

pub use accepting::{accept, for_rewrite};
pub use fault::{ImageFault, Over};
pub use laws::accepted_files_have_images;
pub use note_writing::note_bytes;
