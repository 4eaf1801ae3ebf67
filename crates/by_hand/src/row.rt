//! A row: the bytes of a file, and what is asked.
use crate::telling::split;
use row_form::{file_bytes, not_understood, plain_bytes, shape};
use std::alloc::Global;
use std::io;

/// A question, and the answer that it is to have.
#[derive(Drop)]
pub struct Question {
    pub text: String,
    pub answer: Vec<u8>,
}

/// A row as its lines say.
#[derive(Drop)]
pub struct Row {
    pub name: String,
    /// The bytes of the row's file.
    pub bytes: Vec<u8>,
    pub questions: Vec<Question>,
    /// The row has a line.
    pub has_line: bool,
    /// Each line of the row is understood.
    pub is_understood: bool,
}

impl Row {
    /// A row without lines.
    pub fn new(alloc: Global) -> Row {
        Row {
            name: String::new(alloc),
            bytes: Vec::new(alloc),
            questions: Vec::new(alloc),
            has_line: false,
            is_understood: true,
        }
    }
}

/// Adds to the row what a line says.
pub fn take_line(alloc: Global, row: &mut Row, line: &str) -> io::Result<()> {
    let (key, rest) = split(line);
    if key == "#" {
        return Ok(());
    }
    row.has_line = true;
    match key {
        "row" => take_name(alloc, row, rest),
        "file" => take_file(alloc, row, rest),
        "ask" => take_question(alloc, row, rest),
        _ => take_shape(alloc, row, key, rest),
    }
}

fn take_name(alloc: Global, row: &mut Row, rest: &str) -> io::Result<()> {
    if !row.name.is_empty() || rest.is_empty() {
        return Err(not_understood());
    }
    row.name = String::from_str(alloc, rest)?;
    Ok(())
}

/// The form and the bytes of the row's file.
fn take_file(alloc: Global, row: &mut Row, rest: &str) -> io::Result<()> {
    let (form, rest) = split(rest);
    row.bytes = file_bytes(alloc, form, rest)?;
    Ok(())
}

/// `QUESTION gives ANSWER`.
fn take_question(alloc: Global, row: &mut Row, rest: &str) -> io::Result<()> {
    let Some((text, answer)) = rest.split_once(" gives ") else {
        return Err(not_understood());
    };
    let text = String::from_str(alloc, text)?;
    let answer = plain_bytes(alloc, answer)?;
    row.questions.push(Question { text, answer })?;
    Ok(())
}

/// A line that adds to the bytes of the file, or changes them.
fn take_shape(alloc: Global, row: &mut Row, key: &str, rest: &str) -> io::Result<()> {
    if shape(alloc, &mut row.bytes, key, rest)? {
        Ok(())
    } else {
        Err(not_understood())
    }
}
