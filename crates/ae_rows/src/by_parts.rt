//! Rows of what the top call reads and no command shows: the tables of a file, the image of an executable, and what calls
//! beneath the top call answer.
use crate::image_text::image_text;
use crate::row::{Kind, Question, Row};
use crate::tables_text::tables_text;
use elf_raw::read_raw;
use row_answers::{Asked, image_of};
use std::alloc::Global;
use std::io;

/// Reads the file `P` as the row says, prints a line where it comes to something else, and answers whether it doesn't.
pub fn judge_parts(rt: &HostRuntime, row: &Row) -> io::Result<bool> {
    let bytes = row.file(Kind::File, b"P").unwrap_or(&[]);
    let mut all = true;
    if row.has(Kind::Tables) {
        all = is_text(
            rt,
            row,
            "tables",
            Kind::Tables,
            &tables_of(rt.alloc(), bytes)?,
        )?;
    }
    if row.has(Kind::Image) {
        all = is_text(
            rt,
            row,
            "image",
            Kind::Image,
            &text_of_image(rt.alloc(), bytes)?,
        )? && all;
    }
    Ok(all)
}

/// Asks what the row asks, prints a line for each other answer, and answers whether there is none.
pub fn judge_questions(rt: &HostRuntime, row: &Row) -> io::Result<bool> {
    if row.questions.is_empty() {
        return Ok(true);
    }
    let bytes = row.file(Kind::File, b"P").unwrap_or(&[]);
    let mut asked = Asked::new(rt.alloc(), bytes)?;
    let mut all = true;
    for question in &row.questions {
        all = judge_question(rt, row, &mut asked, question)? && all;
    }
    Ok(all)
}

fn judge_question(
    rt: &HostRuntime,
    row: &Row,
    asked: &mut Asked,
    question: &Question,
) -> io::Result<bool> {
    let text = question.text.as_str();
    let Ok(got) = asked.answer(rt.alloc(), text) else {
        println!(rt; "{}: can't be asked: {text}", row.name.as_str())?;
        return Ok(false);
    };
    if got == question.answer {
        return Ok(true);
    }
    println!(rt;
        "{}: {text} gives {}",
        row.name.as_str(),
        got.escape_ascii()
    )?;
    Ok(false)
}

fn is_text(rt: &HostRuntime, row: &Row, what: &str, kind: Kind, got: &[u8]) -> io::Result<bool> {
    if got == row.bytes(kind) {
        return Ok(true);
    }
    println!(rt; "{}: {what}: {}", row.name.as_str(), got.escape_ascii())?;
    Ok(false)
}

/// The text of a file's tables, and no text where it isn't taken.
fn tables_of(alloc: Global, bytes: &[u8]) -> io::Result<Vec<u8>> {
    if bytes.len() > 1_000_000 {
        return Ok(Vec::new(alloc));
    }
    match read_raw(alloc, bytes) {
        Ok(raw) => tables_text(alloc, &raw),
        Err(_) => Ok(Vec::new(alloc)),
    }
}

/// The text of an executable's image, and no text where it isn't accepted.
fn text_of_image(alloc: Global, bytes: &[u8]) -> io::Result<Vec<u8>> {
    match image_of(alloc, bytes) {
        Some(image) => image_text(alloc, &image),
        None => Ok(Vec::new(alloc)),
    }
}
