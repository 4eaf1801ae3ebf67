/// Which records an address may have.
#[derive(Clone, Copy, Debug, PartialEq, Eq)]
pub struct Slot {
    /// It is that of a code word, so a run may end there.
    pub code: bool,
    /// The edge to the next address is recorded.
    pub fall: bool,
    /// The edge to the direct target is recorded.
    pub taken: bool,
    /// A value is recorded: that of a load that is needed, or of a call.
    pub value: bool,
    /// A landing is recorded: an indirect jump stands here.
    pub landing: bool,
}
