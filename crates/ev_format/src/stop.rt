/// Why the reading of an event file stopped.
#[derive(Clone, Copy, Debug, PartialEq, Eq)]
pub enum Stop {
    /// The file ended before its header or a record was whole, or where a record may begin.
    Cut,
    /// The file ended behind an `End`.
    Finished,
    /// The header is that of another program.
    OtherProgram,
    /// At this offset stands a word that begins no record of the program, or a byte behind an `End`.
    BadRecord { offset: u64 },
}
