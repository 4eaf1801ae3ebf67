//! The instructions of RV32IM, what each reads, writes and gives, and the image of an executable.
//!
//! The meaning of a word is the instruction table of the RISC-V unprivileged manual, written down in `specs/` as a list
//! of pairs: an instruction's form, and the fields that are fixed in it. [`decode`] is exactly that table, and [`encode`]
//! gives the one word that means an instruction.
#![tactic(auto)]

mod class;
mod decoder;
mod encoder;
mod ending;
mod extent;
mod image;
mod instr;
mod laws;
mod limits;
mod lists;
mod parts;
mod places;
mod results;
mod ways;

pub use class::Class;
pub use decoder::decode;
pub use encoder::{encode, fits};
pub use ending::Ending;
pub use extent::Extent;
pub use image::{Image, Mark, Name, Note, Range, Region};
pub use instr::{BranchOp, ImmOp, Instr, LoadOp, RegOp, StoreOp};
pub use laws::{
    a_word_means_its_entry, extents_are_found_again, images_have_their_code_in_order,
    no_word_agrees_with_two, places_are_in_order, words_and_instructions_agree,
};
pub use limits::{
    FIRST_STACK_POINTER, MAPPED_LIMIT, NOTED_REGIONS_LIMIT, NOTED_WORDS_LIMIT, RANGES_LIMIT,
    REGIONS_LIMIT, STACK_LENGTH, STACK_START, TRACER_START, WORDS_LIMIT,
};
pub use lists::ListOf;
pub use parts::{base, class_of, reads, target, writes};
pub use places::{address_in, count_in, place_in, word_in};
pub use results::{is_taken, on_registers, op_result, result_of};
pub use ways::{Successors, direct_successors, ends_a_run, falls, way_to};
