//! What a call came to, and what it was to come to.
use crate::counting::{Counts, Device};
use crate::devices::{Devices, code_of, devices_of, left_of, status_of};
use crate::row::{Call, Kind, Row};
use crate::said::{Outcome, outcome_of};
use crate::trial::Trial;
use ae_ports::Word;
use std::alloc::Global;
use std::fmt::Display;
use std::io;

/// Makes a call, prints a line for each thing that isn't as the row says, and answers whether there is none.
pub fn judge(rt: &HostRuntime, row: &Row, trial: &Trial) -> io::Result<bool> {
    match row.said {
        Some(size) => judge_said(rt, row, trial, size),
        None => judge_kept(rt, row, trial),
    }
}

/// Judges a call over a store that says a size and keeps nothing.
fn judge_said(rt: &HostRuntime, row: &Row, trial: &Trial, size: u64) -> io::Result<bool> {
    let counts = Counts::new();
    let Outcome { code, out, err } = outcome_of(rt.alloc(), row, trial, size, &counts)?;
    let code_is = has_code(rt, row, trial, code)?;
    let counts_are = has_counts(rt, row, trial, &counts)?;
    let streams_are = has_streams(rt, row, trial, &out, &err)?;
    Ok(code_is && counts_are && streams_are)
}

/// Judges a call over a store in memory.
fn judge_kept(rt: &HostRuntime, row: &Row, trial: &Trial) -> io::Result<bool> {
    let counts = Counts::new();
    let mut devices = devices_of(rt.alloc(), row, trial, &counts)?;
    let code = code_of(rt.alloc(), trial.command, &mut devices)?;
    let code_is = has_code(rt, row, trial, code)?;
    let status_is = has_status(rt, row, trial)?;
    let counts_are = has_counts(rt, row, trial, &counts)?;
    let left_is = has_left(rt, row, trial, &mut devices)?;
    Ok(code_is && status_is && counts_are && left_is)
}

/// Whether the devices have what the row says.
fn has_left(rt: &HostRuntime, row: &Row, trial: &Trial, devices: &mut Devices) -> io::Result<bool> {
    let rest = has_rest(rt, row, trial, devices)?;
    let out = devices.out.inner().taken();
    let err = devices.err.inner().taken();
    let streams = has_streams(rt, row, trial, out, err)?;
    let files = has_files(rt, row, trial, devices)?;
    let memory = has_memory(rt, row, trial, devices)?;
    Ok(rest && streams && files && memory)
}

/// Prints that something of a call isn't as the row says.
fn tell(
    rt: &HostRuntime,
    row: &Row,
    trial: &Trial,
    what: &str,
    got: &impl Display,
) -> io::Result<()> {
    print!(rt; "{}:", row.name.as_str())?;
    for word in trial.command {
        print!(rt; " {}", word.escape_ascii())?;
    }
    if let Some(Call { device, number }) = trial.failing {
        print!(rt; ", {device:?} fails at {number}")?;
    }
    println!(rt; ": {what}: {got}")
}

/// Whether the exit code is the one that the row says.
fn has_code(rt: &HostRuntime, row: &Row, trial: &Trial, code: u8) -> io::Result<bool> {
    if code != row.code {
        tell(rt, row, trial, "code", &code)?;
    }
    Ok(code == row.code)
}

/// Whether the status has the name that the row says, if it says one. The command is carried out anew.
fn has_status(rt: &HostRuntime, row: &Row, trial: &Trial) -> io::Result<bool> {
    if row.status.is_empty() {
        return Ok(true);
    }
    let counts = Counts::new();
    let mut devices = devices_of(rt.alloc(), row, trial, &counts)?;
    let status = status_of(rt.alloc(), trial.command, &mut devices)?;
    let name = format!(in rt.alloc(); "{status:?}")?;
    if row.status.as_str() == name.as_str() {
        return Ok(true);
    }
    tell(rt, row, trial, "status", &name)?;
    Ok(false)
}

/// Whether the devices had as many calls as the row says, and none but the second output had one behind a fault.
fn has_counts(rt: &HostRuntime, row: &Row, trial: &Trial, counts: &Counts) -> io::Result<bool> {
    let mut all = counts.late() == 0;
    if !all {
        tell(rt, row, trial, "calls behind a fault", &counts.late())?;
    }
    for Call { device, number } in &row.calls {
        if counts.of(*device) != *number {
            tell(rt, row, trial, name_of(*device), &counts.of(*device))?;
            all = false;
        }
    }
    Ok(all)
}

/// What the calls of a device are called in a message.
fn name_of(device: Device) -> &'static str {
    match device {
        Device::Store => "calls of the store",
        Device::Input => "calls of the input",
        Device::Out => "calls of the output",
        Device::Err => "calls of the second output",
        Device::Events => "calls of the sink of events",
    }
}

/// Whether both outputs took what the row says.
fn has_streams(
    rt: &HostRuntime,
    row: &Row,
    trial: &Trial,
    out: &[u8],
    err: &[u8],
) -> io::Result<bool> {
    let out_is = has_behind(rt, row, trial, "out", out, Kind::FrontOfOut, Kind::Out)?;
    let err_is = has_behind(rt, row, trial, "err", err, Kind::FrontOfErr, Kind::Err)?;
    Ok(out_is && err_is)
}

/// Whether these bytes are a front of the row's bytes of one kind and then those of another.
fn has_behind(
    rt: &HostRuntime,
    row: &Row,
    trial: &Trial,
    what: &str,
    got: &[u8],
    front: Kind,
    rest: Kind,
) -> io::Result<bool> {
    match got.strip_suffix(row.bytes(rest)) {
        Some(before) if row.bytes(front).starts_with(before) => Ok(true),
        _ => {
            tell(rt, row, trial, what, &got.escape_ascii())?;
            Ok(false)
        }
    }
}

/// Whether so much is left of the input as the row says.
fn has_rest(rt: &HostRuntime, row: &Row, trial: &Trial, devices: &mut Devices) -> io::Result<bool> {
    let left = left_of(rt.alloc(), devices.input.inner_mut())?;
    if left.as_slice() == row.bytes(Kind::Rest) {
        return Ok(true);
    }
    tell(rt, row, trial, "rest", &left.escape_ascii())?;
    Ok(false)
}

/// Whether no device wanted memory.
fn has_memory(rt: &HostRuntime, row: &Row, trial: &Trial, devices: &Devices) -> io::Result<bool> {
    let store = devices.store.inner().starved();
    let out = devices.out.inner().starved();
    let err = devices.err.inner().starved();
    if store == 0 && out == 0 && err == 0 {
        return Ok(true);
    }
    tell(rt, row, trial, "memory", &"wanting")?;
    Ok(false)
}

/// Whether each file that the row or the command names is as the row says.
fn has_files(rt: &HostRuntime, row: &Row, trial: &Trial, devices: &Devices) -> io::Result<bool> {
    let mut all = true;
    for text in &row.texts {
        if is_of_file(text.kind) {
            all = has_file(rt, row, trial, devices, &text.name)? && all;
        }
    }
    for word in trial.command {
        all = has_file(rt, row, trial, devices, word)? && all;
    }
    for name in &row.none {
        all = has_file(rt, row, trial, devices, name)? && all;
    }
    Ok(all)
}

fn is_of_file(kind: Kind) -> bool {
    matches!(
        kind,
        Kind::File | Kind::Maybe | Kind::Leaves | Kind::FrontOfFile
    )
}

/// Whether the file of this name is as the row says.
fn has_file(
    rt: &HostRuntime,
    row: &Row,
    trial: &Trial,
    devices: &Devices,
    name: &[u8],
) -> io::Result<bool> {
    let word = Word::from_bytes(rt.alloc(), name)?;
    let got = devices.store.inner().file(&word);
    if is_file(row, trial, name, got) {
        return Ok(true);
    }
    tell(rt, row, trial, "file", &shown(rt.alloc(), name, got)?)?;
    Ok(false)
}

/// Whether these are the bytes that the file of this name is to have, if it is to be there. One that the command names
/// and that the row leaves is so, or has a front of bytes; another is as before.
fn is_file(row: &Row, trial: &Trial, name: &[u8], got: Option<&[u8]>) -> bool {
    if !trial.names(name) {
        return got == trial.before(row, name);
    }
    match (
        row.file(Kind::Leaves, name),
        row.file(Kind::FrontOfFile, name),
    ) {
        (Some(bytes), _) => got == Some(bytes),
        (None, Some(bytes)) => match got {
            Some(got) => bytes.starts_with(got),
            None => false,
        },
        (None, None) => got == trial.before(row, name),
    }
}

/// A file as a message shows it, at most 300 of its bytes.
fn shown(alloc: Global, name: &[u8], got: Option<&[u8]>) -> io::Result<String> {
    let name = name.escape_ascii();
    match got {
        Some(bytes) => {
            let front = &bytes[..bytes.len().min(300)];
            let length = bytes.len();
            Ok(format!(in alloc; "{name} has {length} bytes: {}", front.escape_ascii())?)
        }
        None => Ok(format!(in alloc; "{name} isn't there")?),
    }
}
