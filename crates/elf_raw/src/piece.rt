use rv_code::ListOf;

/// Bytes of a file: `offset` is where the first of them stands.
#[derive(Debug, Drop)]
pub struct Piece {
    pub offset: u32,
    pub bytes: ListOf<u8>,
}
