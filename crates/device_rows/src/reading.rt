//! The lines of a row.
use crate::row::{Given, Over, Question, Row};
use crate::telling::split;
use row_form::{file_bytes, not_understood, plain_bytes, shape};
use std::alloc::Global;
use std::io;

/// Adds to the row what a line says.
pub fn take_line(alloc: Global, row: &mut Row, line: &str) -> io::Result<()> {
    let (key, rest) = split(line);
    if key == "#" {
        return Ok(());
    }
    row.has_line = true;
    match key {
        "row" => take_name(alloc, row, rest),
        "over" => take_over(row, rest),
        "where" => take_where(alloc, row, rest),
        "folder" => take_folder(alloc, row, rest),
        "file" => take_file(alloc, row, rest),
        "ask" => take_question(alloc, row, rest),
        _ => take_shape(alloc, row, key, rest),
    }
}

fn take_name(alloc: Global, row: &mut Row, rest: &str) -> io::Result<()> {
    if !row.name.is_empty() || rest.is_empty() {
        return Err(not_understood());
    }
    row.name = String::from_str(alloc, rest)?;
    Ok(())
}

fn take_over(row: &mut Row, rest: &str) -> io::Result<()> {
    row.over = match rest {
        "files" => Over::Files,
        "watched" => Over::Watched,
        "pipe" => Over::Pipe,
        _ => return Err(not_understood()),
    };
    Ok(())
}

fn take_where(alloc: Global, row: &mut Row, rest: &str) -> io::Result<()> {
    row.only_with = String::from_str(alloc, rest)?;
    Ok(())
}

fn take_folder(alloc: Global, row: &mut Row, rest: &str) -> io::Result<()> {
    row.folders.push(String::from_str(alloc, rest)?)?;
    Ok(())
}

/// A file's path, its form and its bytes.
fn take_file(alloc: Global, row: &mut Row, rest: &str) -> io::Result<()> {
    let (path, rest) = split(rest);
    let (form, rest) = split(rest);
    let bytes = file_bytes(alloc, form, rest)?;
    let path = String::from_str(alloc, path)?;
    row.files.push(Given { path, bytes })?;
    Ok(())
}

/// `QUESTION gives ANSWER`.
fn take_question(alloc: Global, row: &mut Row, rest: &str) -> io::Result<()> {
    let Some((text, answer)) = rest.split_once(" gives ") else {
        return Err(not_understood());
    };
    let text = String::from_str(alloc, text)?;
    let answer = plain_bytes(alloc, answer)?;
    row.questions.push(Question { text, answer })?;
    Ok(())
}

/// A line that adds to the bytes of the file that was named last, or changes them.
fn take_shape(alloc: Global, row: &mut Row, key: &str, rest: &str) -> io::Result<()> {
    let Some(file) = row.files.last_mut() else {
        return Err(not_understood());
    };
    if shape(alloc, &mut file.bytes, key, rest)? {
        Ok(())
    } else {
        Err(not_understood())
    }
}
