use ae_nums::Item;
use rv_code::Ending;

/// What came of an instruction that was carried out.
#[derive(Clone, Copy, Debug, PartialEq, Eq)]
pub(crate) enum Acted {
    /// The machine went on, and made this access of memory; `None` where it made none.
    Went(Option<Item>),
    /// The run is to end so, and the machine is as it was before.
    Ended(Ending),
}

/// A step that called no port and didn't end: where the machine goes on, and the access of memory that it made.
#[derive(Clone, Copy, Debug, PartialEq, Eq)]
pub(crate) struct Gone {
    pub(crate) next: u32,
    pub(crate) access: Option<Item>,
}

/// What came of an instruction that calls no port. It leaves the machine's pc as it was.
#[derive(Clone, Copy, Debug, PartialEq, Eq)]
pub(crate) enum Alone {
    Went(Gone),
    /// The run is to end so, and the machine is as it was before.
    Ended(Ending),
}
