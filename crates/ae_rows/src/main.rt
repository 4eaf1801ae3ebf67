//! Carries out rows, each some calls of `ae` over devices in memory and what is to come of them. They stand in the files
//! that the command line names, and `docs/ROWS.md` says how they are written. The program prints a line for each thing
//! that isn't as its row says, and for each file how many rows it has, how many calls they make and how many rows are wrong.
#![tactic(auto)]

mod by_machine;
mod by_parts;
mod counting;
mod devices;
mod image_text;
mod judging;
mod kept_items;
mod machine_ports;
mod reading;
mod recorded;
mod registers;
mod row;
mod said;
mod tables_text;
mod trial;

use by_machine::judge_machine;
use by_parts::{judge_parts, judge_questions};
use judging::judge;
use reading::take_line;
use row::{Call, Kind, Row};
use std::{env, fs, io};
use trial::Trial;

fn main(rt: HostRuntime) -> io::Result<()> {
    for path in env::args(&rt)?.skip(1) {
        let text = fs::read_to_string(&rt, path.as_str())?;
        carry_out(&rt, &path, &text)?;
    }
    Ok(())
}

/// What a file came to so far.
#[derive(Drop)]
struct Tally {
    rows: u64,
    calls: u64,
    wrong: u64,
}

/// Carries out the rows of a text.
fn carry_out(rt: &HostRuntime, path: &str, text: &str) -> io::Result<()> {
    let mut tally = Tally {
        rows: 0,
        calls: 0,
        wrong: 0,
    };
    let mut row = Row::new(rt.alloc());
    for line in text.lines() {
        if line.is_empty() {
            settle(rt, &row, &mut tally)?;
            row = Row::new(rt.alloc());
        } else {
            take(rt, &mut row, line)?;
        }
    }
    settle(rt, &row, &mut tally)?;
    let Tally { rows, calls, wrong } = tally;
    println!(rt; "{path}: {rows} rows, {calls} calls, {wrong} wrong")
}

/// Adds a line to the row, or prints that it isn't understood.
fn take(rt: &HostRuntime, row: &mut Row, line: &str) -> io::Result<()> {
    if take_line(rt.alloc(), row, line).is_err() {
        row.is_understood = false;
        println!(rt; "{}: not understood: {line}", row.name.as_str())?;
    }
    Ok(())
}

/// Judges a row that has lines.
fn settle(rt: &HostRuntime, row: &Row, tally: &mut Tally) -> io::Result<()> {
    if !row.has_line {
        return Ok(());
    }
    tally.rows = tally.rows.saturating_add(1);
    let mut is_right = row.is_understood && !row.name.is_empty() && row.has_calls();
    if !is_right {
        println!(rt;
            "{}: no name, no words, or a line that isn't understood",
            row.name.as_str()
        )?;
    }
    for command in &row.commands {
        is_right = judge_command(rt, row, command, tally)? && is_right;
    }
    is_right = judge_parts(rt, row)? && is_right;
    is_right = judge_asked(rt, row, tally)? && is_right;
    if row.is_for_machine {
        is_right = judge_machine(rt, row)? && is_right;
    }
    if !is_right {
        tally.wrong = tally.wrong.saturating_add(1);
    }
    Ok(())
}

/// Judges the row's questions, each of which is a call.
fn judge_asked(rt: &HostRuntime, row: &Row, tally: &mut Tally) -> io::Result<bool> {
    tally.calls = tally.calls.saturating_add(row.questions.len() as u64);
    judge_questions(rt, row)
}

/// Judges a command with each call that fails in turn, if the row names such.
fn judge_command(
    rt: &HostRuntime,
    row: &Row,
    command: &[Vec<u8>],
    tally: &mut Tally,
) -> io::Result<bool> {
    if row.each.is_empty() {
        return judge_both(rt, row, command, None, tally);
    }
    let mut all = true;
    for call in &row.each {
        all = judge_both(rt, row, command, Some(*call), tally)? && all;
    }
    Ok(all)
}

/// Judges a call without the files that may be there, and with them if the row names such.
fn judge_both(
    rt: &HostRuntime,
    row: &Row,
    command: &[Vec<u8>],
    failing: Option<Call>,
    tally: &mut Tally,
) -> io::Result<bool> {
    let without = Trial {
        command,
        failing,
        has_maybe: false,
    };
    tally.calls = tally.calls.saturating_add(1);
    let is_right = judge(rt, row, &without)?;
    if !row.has(Kind::Maybe) {
        return Ok(is_right);
    }
    let with = Trial {
        has_maybe: true,
        ..without
    };
    tally.calls = tally.calls.saturating_add(1);
    Ok(judge(rt, row, &with)? && is_right)
}
