//! The words of answers.
ghost use Rattle.std.specs.Prelude.{◌≤◌, IfOk};

use ae_ports::Failed;
use row_form::{not_understood, number};
use std::alloc::{AllocError, Global};
use std::io;

/// The first word of a text, and what stands behind the blank.
pub fn split(text: &str) -> (&str, &str) {
    text.split_once(' ').unwrap_or((text, ""))
}

/// The bytes of a text.
pub fn bytes(alloc: Global, text: &str) -> io::Result<Vec<u8>> {
    Ok(text.as_bytes().to_vec(alloc)?)
}

/// Whether a call was done or failed.
pub fn done(alloc: Global, is_ok: bool) -> io::Result<Vec<u8>> {
    bytes(alloc, if is_ok { "done" } else { "failed" })
}

/// A number in decimal.
pub fn decimal(alloc: Global, number: u64) -> Result<Vec<u8>, AllocError> {
    Ok(format!(in alloc; "{number}")?.into_bytes())
}

/// How many bytes a call moved, or that it failed.
pub fn moved(alloc: Global, answer: Result<usize, Failed>) -> io::Result<Vec<u8>> {
    match answer {
        Ok(count) => Ok(decimal(alloc, count as u64)?),
        Err(Failed) => bytes(alloc, "failed"),
    }
}

/// How many bytes a call moved into a piece, or that it failed, and what the piece then has.
pub fn moved_into(
    alloc: Global,
    answer: Result<usize, Failed>,
    piece: &[u8],
) -> io::Result<Vec<u8>> {
    let mut text = moved(alloc, answer)?;
    if !piece.is_empty() {
        text.push(b' ')?;
        text.extend_from_slice(piece)?;
    }
    Ok(text)
}

/// The most bytes that a call may ask for.
const ROOM: usize = 8;

/// A piece before bytes are moved into it.
pub const DASHES: [u8; ROOM] = *b"--------";

/// The size of a piece, at most that of [`DASHES`].
pub fn size_of(digits: &str) -> io::Result<usize>
    ensures { IfOk result (λ size. size ≤ 8) }
{
    let size = number(digits)?;
    if size > ROOM as u64 {
        return Err(not_understood());
    }
    Ok(size as usize)
}
