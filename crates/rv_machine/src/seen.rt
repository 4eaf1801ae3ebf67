use ae_nums::Item;
use rv_code::Ending;

/// What a step shows of itself: the address of the instruction that it fetched, and the access of memory that succeeded.
#[derive(Clone, Copy, Debug, PartialEq, Eq)]
pub struct Seen {
    /// `None` where no code word stands at the pc, and after an ending.
    pub fetch: Option<u32>,
    pub access: Option<Item>,
}

/// What came of a step.
#[derive(Clone, Copy, Debug, PartialEq, Eq)]
pub enum Step {
    /// The run goes on.
    Went(Seen),
    /// The run has ended.
    Ended(Ending, Seen),
}
