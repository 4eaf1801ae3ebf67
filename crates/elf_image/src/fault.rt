/// Why an executable whose tables could be read isn't accepted, in the order in which they are asked.
#[derive(Clone, Copy, Debug, PartialEq, Eq)]
pub enum ImageFault {
    /// It is linked dynamically or wants an interpreter (PT_DYNAMIC, PT_INTERP).
    Dynamic,
    /// The program header with this number offends, counted from 0; their number, where none loads code.
    Segments { index: u32 },
    /// It has no code word.
    NoCode,
    /// Its entry is no code word.
    EntryNotCode,
    /// The relocation with this number names a symbol that isn't there, counted from 0 over all tables.
    BadRelocation { index: u32 },
    /// It is larger than this project takes.
    TooLarge { what: Over },
    /// It has been rewritten already: it has a note.
    Traced,
    /// Memory was wanting.
    NoMemory,
}

/// What there is too much of.
#[derive(Clone, Copy, Debug, PartialEq, Eq)]
pub enum Over {
    /// Bytes of the file: at most 268,435,456.
    File,
    /// Mapped bytes below the tracer's pages, the stack apart: at most 134,217,728.
    Mapped,
    /// Ranges of code words: at most 16.
    Ranges,
    /// Code words: at most 32,768, or 262,144 in a file with a note.
    Words,
}
