/// A basic block: the addresses of its first and its last code word.
#[derive(Clone, Copy, Debug, PartialEq, Eq)]
pub struct Block {
    pub leader: u32,
    pub last: u32,
}
