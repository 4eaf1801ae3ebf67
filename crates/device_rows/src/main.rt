//! Carries out rows over the devices of the real system, each some calls of a device and what is to come of them. They stand in the
//! files that the command line names, and `docs/ROWS.md` says how they are written. The program prints a line for each thing that
//! isn't as its row says, and for each file how many rows it has, how many questions they ask and how many rows are wrong. The files
//! of a row stand in a folder `made`, which is there only while the row is carried out.
#![tactic(auto)]

mod asking;
mod files;
mod judging;
mod pipes;
mod reading;
mod row;
mod streams;
mod telling;
mod watched;
mod watching;

use judging::judge;
use reading::take_line;
use row::Row;
use std::{env, fs, io};

fn main(rt: HostRuntime) -> io::Result<()> {
    for path in env::args(&rt)?.skip(1) {
        let text = fs::read_to_string(&rt, path.as_str())?;
        carry_out(&rt, &path, &text)?;
    }
    Ok(())
}

/// What a file came to so far.
#[derive(Drop)]
struct Tally {
    rows: u64,
    questions: u64,
    wrong: u64,
}

/// Carries out the rows of a text.
fn carry_out(rt: &HostRuntime, path: &str, text: &str) -> io::Result<()> {
    let mut tally = Tally {
        rows: 0,
        questions: 0,
        wrong: 0,
    };
    let mut row = Row::new(rt.alloc());
    for line in text.lines() {
        if line.is_empty() {
            settle(rt, &row, &mut tally)?;
            row = Row::new(rt.alloc());
        } else {
            take(rt, &mut row, line)?;
        }
    }
    settle(rt, &row, &mut tally)?;
    let Tally {
        rows,
        questions,
        wrong,
    } = tally;
    println!(rt; "{path}: {rows} rows, {questions} questions, {wrong} wrong")
}

/// Adds a line to the row, or prints that it isn't understood.
fn take(rt: &HostRuntime, row: &mut Row, line: &str) -> io::Result<()> {
    if take_line(rt.alloc(), row, line).is_err() {
        row.is_understood = false;
        println!(rt; "{}: not understood: {line}", row.name.as_str())?;
    }
    Ok(())
}

/// Judges a row that has lines.
fn settle(rt: &HostRuntime, row: &Row, tally: &mut Tally) -> io::Result<()> {
    if !row.has_line {
        return Ok(());
    }
    tally.rows = tally.rows.saturating_add(1);
    tally.questions = tally.questions.saturating_add(row.questions.len() as u64);
    let is_whole = row.is_understood && !row.name.is_empty() && !row.questions.is_empty();
    if !is_whole {
        println!(rt;
            "{}: no name, no question, or a line that isn't understood",
            row.name.as_str()
        )?;
    }
    if !is_whole || !judge(rt, row)? {
        tally.wrong = tally.wrong.saturating_add(1);
    }
    Ok(())
}
