use rv_code::Ending;

/// How a run stands after the steps that it was given.
#[derive(Clone, Copy, Debug, PartialEq, Eq)]
pub enum Outcome {
    /// It has ended.
    Ended(Ending),
    /// All the steps were made, and none ended.
    Spent,
}

/// Why a machine failed. Every later call answers the same, and calls no port.
#[derive(Clone, Copy, Debug, PartialEq, Eq)]
pub enum MachineFault {
    /// The source of the input failed.
    InputFault,
    /// The first output failed.
    OutFault,
    /// The second output failed.
    ErrFault,
    /// The sink of the event bytes failed, or the taker of the items.
    EventFault,
}
