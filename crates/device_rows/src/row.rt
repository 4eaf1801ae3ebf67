//! A row: files that are there, and what is asked of devices.
use std::alloc::Global;

/// What a row's devices stand on.
#[derive(Clone, Copy, Debug, PartialEq, Eq)]
pub enum Over {
    /// The files of the system.
    Files,
    /// The same, where calls are counted and can be made to go wrong.
    Watched,
    /// The two ends of a pipe.
    Pipe,
}

/// A file that is there before the first question.
#[derive(Drop)]
pub struct Given {
    pub path: String,
    pub bytes: Vec<u8>,
}

/// A question, and the answer that it is to have.
#[derive(Drop)]
pub struct Question {
    pub text: String,
    pub answer: Vec<u8>,
}

/// A row as its lines say.
#[derive(Drop)]
pub struct Row {
    pub name: String,
    pub over: Over,
    /// The file without which the row is passed over; none where it is empty.
    pub only_with: String,
    pub folders: Vec<String>,
    pub files: Vec<Given>,
    pub questions: Vec<Question>,
    /// The row has a line.
    pub has_line: bool,
    /// Each line of the row is understood.
    pub is_understood: bool,
}

impl Row {
    /// A row without lines.
    pub fn new(alloc: Global) -> Row {
        Row {
            name: String::new(alloc),
            over: Over::Files,
            only_with: String::new(alloc),
            folders: Vec::new(alloc),
            files: Vec::new(alloc),
            questions: Vec::new(alloc),
            has_line: false,
            is_understood: true,
        }
    }
}
