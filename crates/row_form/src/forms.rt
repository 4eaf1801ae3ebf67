//! The forms in which a row gives the bytes of a file.
use crate::elf::header;
use crate::executable::executable;
use crate::text::{hex_bytes, not_understood, plain_bytes, word_bytes};
use std::alloc::Global;
use std::io;

/// The bytes that a line gives in a form: `code` and the code words of a small executable, with its data and zeros; `elf`
/// and the fields of a header alone; `words` and all words of the file; `hex` and all its bytes; or `text` and its text.
///
/// # Errors
///
/// The line isn't understood, or memory was wanting.
pub fn file_bytes(alloc: Global, form: &str, line: &str) -> io::Result<Vec<u8>> {
    match form {
        "code" => executable(alloc, line),
        "elf" => header(alloc, line),
        "words" => word_bytes(alloc, line),
        "hex" => hex_bytes(alloc, line),
        "text" => plain_bytes(alloc, line),
        _ => Err(not_understood()),
    }
}
