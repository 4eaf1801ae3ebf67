/// Why a file isn't taken as the event file of a program.
#[derive(Clone, Copy, Debug, PartialEq, Eq)]
pub enum EventsRefusal {
    /// Its header is that of another program.
    OtherProgram,
    /// At this offset stands a word that begins no record of the program, or a byte behind the last record.
    BadRecord { offset: u64 },
    /// The record at this offset is the first that no walk has behind those before it.
    Astray { offset: u64 },
}
