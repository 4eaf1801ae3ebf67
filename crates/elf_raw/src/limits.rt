/// The most bytes that a file may have.
pub const FILE_LIMIT: u64 = 268_435_456;
