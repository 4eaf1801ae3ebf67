//! Carries out rows over calls that no command and no other program of rows makes: a list that gives back its vector, files that are
//! written of tables made by hand, event files from a source that gives its bytes in pieces, records that are written. The rows stand
//! in the files that the command line names, and `docs/ROWS.md` says how they are written. The program prints a line for each thing
//! that isn't as its row says, and for each file how many rows it has, how many questions they ask and how many rows are wrong.
#![tactic(auto)]

mod asking;
mod lists;
mod pieces;
mod records;
mod row;
mod telling;
mod two_words;
mod written;

use asking::answer;
use row::{Question, Row, take_line};
use std::{env, fs, io};

fn main(rt: HostRuntime) -> io::Result<()> {
    for path in env::args(&rt)?.skip(1) {
        let text = fs::read_to_string(&rt, path.as_str())?;
        carry_out(&rt, &path, &text)?;
    }
    Ok(())
}

/// What a file came to so far.
#[derive(Drop)]
struct Tally {
    rows: u64,
    questions: u64,
    wrong: u64,
}

/// Carries out the rows of a text.
fn carry_out(rt: &HostRuntime, path: &str, text: &str) -> io::Result<()> {
    let mut tally = Tally {
        rows: 0,
        questions: 0,
        wrong: 0,
    };
    let mut row = Row::new(rt.alloc());
    for line in text.lines() {
        if line.is_empty() {
            settle(rt, &row, &mut tally)?;
            row = Row::new(rt.alloc());
        } else {
            take(rt, &mut row, line)?;
        }
    }
    settle(rt, &row, &mut tally)?;
    let Tally {
        rows,
        questions,
        wrong,
    } = tally;
    println!(rt; "{path}: {rows} rows, {questions} questions, {wrong} wrong")
}

/// Adds a line to the row, or prints that it isn't understood.
fn take(rt: &HostRuntime, row: &mut Row, line: &str) -> io::Result<()> {
    if take_line(rt.alloc(), row, line).is_err() {
        row.is_understood = false;
        println!(rt; "{}: not understood: {line}", row.name.as_str())?;
    }
    Ok(())
}

/// Judges a row that has lines.
fn settle(rt: &HostRuntime, row: &Row, tally: &mut Tally) -> io::Result<()> {
    if !row.has_line {
        return Ok(());
    }
    tally.rows = tally.rows.saturating_add(1);
    tally.questions = tally.questions.saturating_add(row.questions.len() as u64);
    let mut is_right = row.is_understood && !row.name.is_empty() && !row.questions.is_empty();
    if !is_right {
        println!(rt;
            "{}: no name, no question, or a line that isn't understood",
            row.name.as_str()
        )?;
    }
    for question in &row.questions {
        is_right = is_answered(rt, row, question)? && is_right;
    }
    if !is_right {
        tally.wrong = tally.wrong.saturating_add(1);
    }
    Ok(())
}

/// Whether a question has its answer.
fn is_answered(rt: &HostRuntime, row: &Row, question: &Question) -> io::Result<bool> {
    let text = question.text.as_str();
    let Ok(got) = answer(rt.alloc(), &row.bytes, text) else {
        println!(rt; "{}: can't be asked: {text}", row.name.as_str())?;
        return Ok(false);
    };
    if got == question.answer {
        return Ok(true);
    }
    println!(rt;
        "{}: {text} gives {}",
        row.name.as_str(),
        got.escape_ascii()
    )?;
    Ok(false)
}
