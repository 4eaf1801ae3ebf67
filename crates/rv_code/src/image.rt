use crate::ListOf;
use std::marker::Model;

/// What an executable puts into memory, which of it is code, and what its symbols and relocations name.
///
/// Addresses are those of bytes.
#[derive(Debug, Drop)]
pub struct Image {
    /// The address of the first instruction.
    pub entry: u32,
    /// The mapped regions but the stack.
    pub regions: ListOf<Region>,
    /// The code words. Only these can be fetched.
    pub code: ListOf<Range>,
    /// The function symbols at code words, in the order of the symbol tables.
    pub names: ListOf<Name>,
    /// The code words that relocations name, each once.
    pub named: ListOf<u32>,
    /// What a rewritten executable says of itself.
    pub note: Option<Note>,
}

impl Model for Image {
    ghost use Rattle.rv_code.specs.ImageParts.{ImageParts};
    ghost use Rattle.rv_code.specs.Image.{IsImage};

    ghost Value = { ImageParts };

    ghost use Rattle.rv_code.specs.ImageView.{image_parts};

    ghost view = { image_parts };

    ghost invariant = { λ image. IsImage (image_parts image) };
}

/// A loaded segment: its bytes, and then so many zero bytes.
#[derive(Debug, Drop)]
pub struct Region {
    pub start: u32,
    pub bytes: ListOf<u8>,
    pub zeros: u32,
    pub writable: bool,
}

/// Code words, one after another.
#[derive(Debug, Drop)]
pub struct Range {
    pub start: u32,
    pub words: ListOf<u32>,
}

/// A function's name, which may be any bytes.
#[derive(Debug, Drop)]
pub struct Name {
    pub address: u32,
    pub text: ListOf<u8>,
}

/// From this address of new code on, the original instruction is the one at `original`.
#[derive(Clone, Copy, Debug, PartialEq, Eq)]
pub struct Mark {
    pub from: u32,
    pub original: u32,
}

/// The note of a rewritten executable: the header of its event files (`entry`, `first` and `count` are those of the
/// original), the buffer of its events, the word that says how much of the buffer is used, and the map from new code to
/// the original instructions.
#[derive(Debug, Drop)]
pub struct Note {
    pub entry: u32,
    pub first: u32,
    pub count: u32,
    pub buffer: u32,
    pub used: u32,
    pub map: ListOf<Mark>,
}
