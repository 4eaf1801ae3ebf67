//! A row's questions.
use crate::lists::list_answer;
use crate::records::{count_answer, falls_answer, put_answer, records_answer};
use crate::telling::split;
use crate::written::file_answer;
use row_form::not_understood;
use std::alloc::Global;
use std::io;

/// The answer to a question, which begins with what is asked, of a row whose file has these bytes.
///
/// # Errors
///
/// The question isn't understood, or memory was wanting.
pub fn answer(alloc: Global, bytes: &[u8], question: &str) -> io::Result<Vec<u8>> {
    let (what, rest) = split(question);
    match what {
        "list" => list_answer(alloc, rest),
        "file" => file_answer(alloc, bytes, rest),
        "records" => records_answer(alloc, bytes, rest),
        "count" => count_answer(alloc, bytes, rest),
        "put" => put_answer(alloc, rest),
        "falls" => falls_answer(alloc, rest),
        _ => Err(not_understood()),
    }
}
