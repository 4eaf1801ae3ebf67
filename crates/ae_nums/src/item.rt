/// What a trace records of a step: the instruction that was fetched, or bytes that were read or written by a load or
/// store. Addresses are those of the first byte, sizes are 1, 2 or 4 bytes.
#[derive(Clone, Copy, Debug, PartialEq, Eq)]
pub enum Item {
    Fetch(u32),
    Read { address: u32, size: u8 },
    Write { address: u32, size: u8 },
}
