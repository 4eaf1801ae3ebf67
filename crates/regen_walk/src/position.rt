/// Where a walk stands.
#[derive(Clone, Copy, Debug, PartialEq, Eq)]
pub enum Position {
    /// Before the word at this address.
    Before(u32),
    /// After the word at this address, before it passes the edge of a way: that to its direct target where it is `taken`, else that to
    /// the next address.
    After { address: u32, taken: bool },
    /// At an address where no code word stands.
    Outside(u32),
    /// Behind an End.
    Stopped,
}
