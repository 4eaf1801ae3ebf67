use crate::Record;

/// What comes next in an event file.
#[derive(Debug, Drop)]
pub enum Next {
    /// A record, which begins at this offset, in bytes from the front of the file.
    Whole { offset: u64, rec: Record },
    /// The file ended before its header or a record was whole, or where a record may begin.
    Cut,
    /// The file ended behind an `End`.
    Finished,
}

/// Why an event file can't be read on.
#[derive(Clone, Copy, Debug, PartialEq, Eq)]
pub enum EventFault {
    /// The source failed.
    SourceFault,
    /// The header is that of another program.
    OtherProgram,
    /// At this offset stands a word that begins no record of the program, or a byte behind an `End`.
    BadRecord { offset: u64 },
}
