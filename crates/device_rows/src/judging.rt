//! What a row's questions came to, and what they were to come to.
use crate::asking::Asked;
use crate::files::Filed;
use crate::pipes::Piped;
use crate::row::{Over, Question, Row};
use crate::watched::Calls;
use crate::watching::Watching;
use std::{fs, io};

/// The folder of a row's files.
const FOLDER: &str = "made";

/// Asks a row's questions, prints a line for each that isn't answered as the row says, and answers whether there is none. A row that
/// needs a file which isn't there is right.
pub fn judge(rt: &HostRuntime, row: &Row) -> io::Result<bool> {
    if !row.only_with.is_empty() && !fs::exists(rt, row.only_with.as_str())? {
        return Ok(true);
    }
    if fs::exists(rt, FOLDER)? {
        fs::remove_dir_all(rt, FOLDER)?;
    }
    fs::create_dir(rt, FOLDER)?;
    make_files(rt, row)?;
    let is_right = judge_over(rt, row)?;
    fs::remove_dir_all(rt, FOLDER)?;
    Ok(is_right)
}

/// Makes the folders and the files that are there before the first question.
fn make_files(rt: &HostRuntime, row: &Row) -> io::Result<()> {
    for path in &row.folders {
        fs::create_dir(rt, path.as_str())?;
    }
    for file in &row.files {
        fs::write(rt, file.path.as_str(), file.bytes.as_slice())?;
    }
    Ok(())
}

fn judge_over(rt: &HostRuntime, row: &Row) -> io::Result<bool> {
    match row.over {
        Over::Files => judge_files(rt, row),
        Over::Watched => judge_watched(rt, row),
        Over::Pipe => judge_pipe(rt, row),
    }
}

fn judge_files(rt: &HostRuntime, row: &Row) -> io::Result<bool> {
    let mut devices = Filed::new(rt.alloc(), *rt);
    judge_questions(rt, row, &mut devices)
}

fn judge_watched(rt: &HostRuntime, row: &Row) -> io::Result<bool> {
    let calls = Calls::new();
    let mut devices = Watching::new(rt, &calls);
    judge_questions(rt, row, &mut devices)
}

fn judge_pipe(rt: &HostRuntime, row: &Row) -> io::Result<bool> {
    let mut devices = Piped::new(rt)?;
    judge_questions(rt, row, &mut devices)
}

fn judge_questions<A: Asked>(rt: &HostRuntime, row: &Row, asked: &mut A) -> io::Result<bool> {
    let mut all = true;
    for question in &row.questions {
        all = is_answered(rt, row, asked, question)? && all;
    }
    Ok(all)
}

/// Whether a question has its answer.
fn is_answered<A: Asked>(
    rt: &HostRuntime,
    row: &Row,
    asked: &mut A,
    question: &Question,
) -> io::Result<bool> {
    let Ok(got) = asked.answer(rt.alloc(), &question.text) else {
        println!(rt;
            "{}: {}: no answer",
            row.name.as_str(),
            question.text.as_str()
        )?;
        return Ok(false);
    };
    if got == question.answer {
        return Ok(true);
    }
    println!(rt;
        "{}: {}: {}",
        row.name.as_str(),
        question.text.as_str(),
        got.escape_ascii()
    )?;
    Ok(false)
}
