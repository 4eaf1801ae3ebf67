/// A fault of a device: the object that was called didn't do all that was asked. Its count of faults has risen.
#[derive(Clone, Copy, Debug, PartialEq, Eq)]
pub struct Failed;
