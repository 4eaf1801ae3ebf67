/// How a walk stands after a record.
#[derive(Clone, Copy, Debug, PartialEq, Eq)]
pub enum Turn {
    /// It may go on.
    Going,
    /// The record was an End.
    Stopped,
}

/// Why a walk takes no record.
#[derive(Clone, Copy, Debug, PartialEq, Eq)]
pub enum WalkFault {
    /// No moves from where the walk stands end with this record as their only one.
    Astray,
    /// The taker of the items failed.
    Failed,
}
