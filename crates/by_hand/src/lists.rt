//! Lists as fields of records.
use crate::telling::{add, bytes, words};
use rv_code::ListOf;
use std::alloc::{AllocError, Global};
use std::io;

/// `NUMBER ..`: the numbers of a list that is made of these, as it shows them and as it gives them back.
pub fn list_answer(alloc: Global, rest: &str) -> io::Result<Vec<u8>> {
    let list = ListOf::from_vec(words(alloc, rest)?);
    let mut answer = numbers_text(alloc, list.as_slice())?;
    let back = numbers_text(alloc, &list.into_vec())?;
    add(&mut answer, b" and ", &back)?;
    Ok(answer)
}

/// Numbers in decimal between blanks, or that there are none.
fn numbers_text(alloc: Global, numbers: &[u32]) -> Result<Vec<u8>, AllocError> {
    if numbers.is_empty() {
        return bytes(alloc, "none");
    }
    let mut text = Vec::new(alloc);
    for number in numbers {
        add(&mut text, b" ", format!(in alloc; "{number}")?.as_bytes())?;
    }
    Ok(text)
}
