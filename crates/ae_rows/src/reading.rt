//! The lines of a row.
use crate::counting::Device;
use crate::row::{Call, Kind, Question, Row, Text};
use row_form::{file_bytes, not_understood, number, plain_bytes, shape, words_of};
use std::alloc::Global;
use std::io;

/// Adds to the row what a line says.
pub fn take_line(alloc: Global, row: &mut Row, line: &str) -> io::Result<()> {
    let (key, rest) = line.split_once(' ').unwrap_or((line, ""));
    if key == "#" {
        return Ok(());
    }
    row.has_line = true;
    match key {
        "row" => take_name(alloc, row, rest),
        "words" => take_command(alloc, row, rest),
        "code" => take_code(row, rest),
        "status" => take_status(alloc, row, rest),
        "said" => take_said(row, rest),
        "fails" | "calls" => take_calls(alloc, row, key, rest),
        "machine" => take_machine(row, rest),
        "none" => take_none(alloc, row, rest),
        "ask" => take_question(alloc, row, rest),
        _ => take_bytes(alloc, row, key, rest),
    }
}

/// Adds bytes, or what changes those that were named last.
fn take_bytes(alloc: Global, row: &mut Row, key: &str, rest: &str) -> io::Result<()> {
    match key {
        "file" => take_file(alloc, row, Kind::File, rest),
        "maybe" => take_file(alloc, row, Kind::Maybe, rest),
        "leaves" => take_file(alloc, row, Kind::Leaves, rest),
        "front" => take_front(alloc, row, rest),
        "input" => take_text(alloc, row, Kind::Input, rest),
        "rest" => take_text(alloc, row, Kind::Rest, rest),
        "out" => take_text(alloc, row, Kind::Out, rest),
        "err" => take_text(alloc, row, Kind::Err, rest),
        "events" => take_text(alloc, row, Kind::Events, rest),
        "recorded" => take_recorded(alloc, row, rest),
        "registers" => take_text(alloc, row, Kind::Registers, rest),
        "tables" => take_text(alloc, row, Kind::Tables, rest),
        "image" => take_text(alloc, row, Kind::Image, rest),
        _ => take_shape(alloc, row, key, rest),
    }
}

fn take_name(alloc: Global, row: &mut Row, rest: &str) -> io::Result<()> {
    if !row.name.is_empty() || rest.is_empty() {
        return Err(not_understood());
    }
    row.name = String::from_str(alloc, rest)?;
    Ok(())
}

fn take_command(alloc: Global, row: &mut Row, rest: &str) -> io::Result<()> {
    row.commands.push(words_of(alloc, rest)?)?;
    Ok(())
}

fn take_code(row: &mut Row, rest: &str) -> io::Result<()> {
    match u8::try_from(number(rest)?) {
        Ok(code) => {
            row.code = code;
            Ok(())
        }
        Err(_) => Err(not_understood()),
    }
}

fn take_status(alloc: Global, row: &mut Row, rest: &str) -> io::Result<()> {
    row.status = String::from_str(alloc, rest)?;
    Ok(())
}

fn take_said(row: &mut Row, rest: &str) -> io::Result<()> {
    row.said = Some(number(rest)?);
    Ok(())
}

fn device_of(name: &str) -> io::Result<Device> {
    match name {
        "store" => Ok(Device::Store),
        "input" => Ok(Device::Input),
        "out" => Ok(Device::Out),
        "err" => Ok(Device::Err),
        "events" => Ok(Device::Events),
        _ => Err(not_understood()),
    }
}

/// `fails DEVICE NUMBER..`, `fails each DEVICE NUMBER..` or `calls DEVICE COUNT`.
fn take_calls(alloc: Global, row: &mut Row, key: &str, rest: &str) -> io::Result<()> {
    if key == "calls" {
        row.calls.append(&mut calls_of(alloc, rest)?)?;
    } else if let Some(rest) = rest.strip_prefix("each ") {
        row.each.append(&mut calls_of(alloc, rest)?)?;
    } else {
        row.fails.append(&mut calls_of(alloc, rest)?)?;
    }
    Ok(())
}

/// A device and numbers of its calls, at least one.
fn calls_of(alloc: Global, line: &str) -> io::Result<Vec<Call>> {
    let Some((device, numbers)) = line.split_once(' ') else {
        return Err(not_understood());
    };
    let device = device_of(device)?;
    let mut calls = Vec::new(alloc);
    for digits in numbers.split(' ') {
        let number = number(digits)?;
        calls.push(Call { device, number })?;
    }
    Ok(calls)
}

/// `machine` or `machine FUEL`.
fn take_machine(row: &mut Row, rest: &str) -> io::Result<()> {
    row.is_for_machine = true;
    if !rest.is_empty() {
        row.fuel = number(rest)?;
    }
    Ok(())
}

fn take_none(alloc: Global, row: &mut Row, rest: &str) -> io::Result<()> {
    for name in words_of(alloc, rest)? {
        row.none.push(name)?;
    }
    Ok(())
}

/// `QUESTION gives ANSWER`.
fn take_question(alloc: Global, row: &mut Row, rest: &str) -> io::Result<()> {
    let Some((text, answer)) = rest.split_once(" gives ") else {
        return Err(not_understood());
    };
    let text = String::from_str(alloc, text)?;
    let answer = plain_bytes(alloc, answer)?;
    row.questions.push(Question { text, answer })?;
    Ok(())
}

/// Bytes of a stream.
fn take_text(alloc: Global, row: &mut Row, kind: Kind, text: &str) -> io::Result<()> {
    let bytes = plain_bytes(alloc, text)?;
    push_text(row, kind, Vec::new(alloc), bytes)
}

/// A file's name, its form and its bytes. A file without a form is empty.
fn take_file(alloc: Global, row: &mut Row, kind: Kind, text: &str) -> io::Result<()> {
    let (name, rest) = text.split_once(' ').unwrap_or((text, "text"));
    let (form, rest) = rest.split_once(' ').unwrap_or((rest, ""));
    let bytes = file_bytes(alloc, form, rest)?;
    push_text(row, kind, plain_bytes(alloc, name)?, bytes)
}

/// The form and bytes of events. Without a form there are none.
fn take_recorded(alloc: Global, row: &mut Row, text: &str) -> io::Result<()> {
    let (form, rest) = text.split_once(' ').unwrap_or(("text", ""));
    let bytes = file_bytes(alloc, form, rest)?;
    push_text(row, Kind::Recorded, Vec::new(alloc), bytes)
}

/// `front out TEXT`, `front err TEXT`, or `front NAME` and the form and bytes of a file.
fn take_front(alloc: Global, row: &mut Row, rest: &str) -> io::Result<()> {
    let (what, text) = rest.split_once(' ').unwrap_or((rest, ""));
    match what {
        "out" => take_text(alloc, row, Kind::FrontOfOut, text),
        "err" => take_text(alloc, row, Kind::FrontOfErr, text),
        _ => take_file(alloc, row, Kind::FrontOfFile, rest),
    }
}

fn push_text(row: &mut Row, kind: Kind, name: Vec<u8>, bytes: Vec<u8>) -> io::Result<()> {
    row.texts.push(Text { kind, name, bytes })?;
    Ok(())
}

/// A line that adds to the bytes that were named last, or changes them.
fn take_shape(alloc: Global, row: &mut Row, key: &str, rest: &str) -> io::Result<()> {
    let Some(text) = row.texts.last_mut() else {
        return Err(not_understood());
    };
    if shape(alloc, &mut text.bytes, key, rest)? {
        Ok(())
    } else {
        Err(not_understood())
    }
}
