//! A row: calls of `ae`, and what is to come of each.
use crate::counting::Device;
use std::alloc::{AllocError, Global};

/// What the bytes of a row are.
#[derive(Clone, Copy, Debug, PartialEq, Eq)]
pub enum Kind {
    /// A file that is there before the call.
    File,
    /// A file that is there before the call or isn't: the row is carried out with it and without it.
    Maybe,
    /// A file as a call leaves it that names it.
    Leaves,
    /// Bytes of which a call leaves a front in a file that it names.
    FrontOfFile,
    /// The input.
    Input,
    /// What is left of the input.
    Rest,
    /// What the first output takes.
    Out,
    /// Bytes of which the first output takes a front, before those of `Out`.
    FrontOfOut,
    /// What the second output takes.
    Err,
    /// Bytes of which the second output takes a front, before those of `Err`.
    FrontOfErr,
    /// What the sink of a machine's events takes.
    Events,
    /// The event bytes of a machine's run, with what comes before it and behind it.
    Recorded,
    /// The pc and the registers of a machine after its run.
    Registers,
    /// The lines of the file's tables.
    Tables,
    /// The lines of the executable's image.
    Image,
}

/// Bytes of a row, and the name of the file where they are one's.
#[derive(Drop)]
pub struct Text {
    pub kind: Kind,
    pub name: Vec<u8>,
    pub bytes: Vec<u8>,
}

/// The number of a call of a device, counted from 0, or how many calls it has.
#[derive(Clone, Copy)]
pub struct Call {
    pub device: Device,
    pub number: u64,
}

/// A question, and the answer that it is to have.
#[derive(Drop)]
pub struct Question {
    pub text: String,
    pub answer: Vec<u8>,
}

/// A row as its lines say.
#[derive(Drop)]
pub struct Row {
    pub name: String,
    /// The words of each call.
    pub commands: Vec<Vec<Vec<u8>>>,
    pub code: u8,
    /// The status by name, where it is said.
    pub status: String,
    /// The size that the store says of each file, where the files are ones that it doesn't keep.
    pub said: Option<u64>,
    /// The calls of devices that fail.
    pub fails: Vec<Call>,
    /// The calls of devices of which one fails, each in turn.
    pub each: Vec<Call>,
    /// How many calls devices have.
    pub calls: Vec<Call>,
    pub texts: Vec<Text>,
    /// The files that aren't there afterwards.
    pub none: Vec<Vec<u8>>,
    /// What is asked of calls beneath the top call.
    pub questions: Vec<Question>,
    /// The first command is carried out by calls of the machine too.
    pub is_for_machine: bool,
    /// How many steps the machine may take.
    pub fuel: u64,
    /// The row has a line.
    pub has_line: bool,
    /// Each line of the row is understood.
    pub is_understood: bool,
}

impl Row {
    /// A row without lines.
    pub fn new(alloc: Global) -> Row {
        Row {
            name: String::new(alloc),
            commands: Vec::new(alloc),
            code: 0,
            status: String::new(alloc),
            said: None,
            fails: Vec::new(alloc),
            each: Vec::new(alloc),
            calls: Vec::new(alloc),
            texts: Vec::new(alloc),
            none: Vec::new(alloc),
            questions: Vec::new(alloc),
            is_for_machine: false,
            fuel: 1_000_000_000,
            has_line: false,
            is_understood: true,
        }
    }

    /// The row says what is to be called.
    pub fn has_calls(&self) -> bool {
        self.is_for_machine
            || !self.commands.is_empty()
            || !self.questions.is_empty()
            || self.has(Kind::Tables)
            || self.has(Kind::Image)
    }

    /// The bytes of this kind, none where the row doesn't have them.
    pub fn bytes(&self, kind: Kind) -> &[u8] {
        for text in &self.texts {
            if text.kind == kind {
                return &text.bytes;
            }
        }
        &[]
    }

    /// The bytes of the file of this kind and name.
    pub fn file(&self, kind: Kind, name: &[u8]) -> Option<&[u8]> {
        for text in &self.texts {
            if text.kind == kind && text.name.as_slice() == name {
                return Some(&text.bytes);
            }
        }
        None
    }

    /// The numbers of the calls of a device that fail.
    pub fn failing(&self, alloc: Global, device: Device) -> Result<Vec<u64>, AllocError> {
        let mut calls = Vec::new(alloc);
        for call in &self.fails {
            if call.device == device {
                calls.push(call.number)?;
            }
        }
        Ok(calls)
    }

    /// The row has bytes of this kind.
    pub fn has(&self, kind: Kind) -> bool {
        self.texts.iter().any(|text| text.kind == kind)
    }
}
