//! Devices in memory, and calls over them.
use crate::counting::{Counted, Counts, Device};
use crate::row::{Kind, Row};
use crate::trial::Trial;
use ae_ports::{MemorySink, MemorySource, MemoryStore, Source, Word};
use ae_top::{Status, ae, exit_code};
use std::alloc::{AllocError, Global};

/// Devices in memory, with their calls counted.
#[derive(Drop)]
pub struct Devices<'a> {
    pub store: Counted<'a, MemoryStore>,
    pub input: Counted<'a, MemorySource>,
    pub out: Counted<'a, MemorySink>,
    pub err: Counted<'a, MemorySink>,
}

/// The numbers of the calls of a device that fail.
fn failing(
    alloc: Global,
    row: &Row,
    trial: &Trial,
    device: Device,
) -> Result<Vec<u64>, AllocError> {
    let mut calls = row.failing(alloc, device)?;
    if let Some(call) = trial.failing {
        if call.device == device {
            calls.push(call.number)?;
        }
    }
    Ok(calls)
}

/// The store that a trial begins with.
fn store_of(alloc: Global, row: &Row, trial: &Trial) -> Result<MemoryStore, AllocError> {
    let mut store = MemoryStore::new(alloc, failing(alloc, row, trial, Device::Store)?);
    for text in &row.texts {
        if text.kind == Kind::File || (text.kind == Kind::Maybe && trial.has_maybe) {
            store.put(
                Word::from_bytes(alloc, &text.name)?,
                text.bytes.to_vec(alloc)?,
            )?;
        }
    }
    Ok(store)
}

/// An output that a trial begins with.
fn sink_of(
    alloc: Global,
    row: &Row,
    trial: &Trial,
    device: Device,
) -> Result<MemorySink, AllocError> {
    Ok(MemorySink::new(alloc, failing(alloc, row, trial, device)?))
}

/// The input that a trial begins with.
fn source_of(alloc: Global, row: &Row, trial: &Trial) -> Result<MemorySource, AllocError> {
    let bytes = row.bytes(Kind::Input).to_vec(alloc)?;
    Ok(MemorySource::new(bytes, failing(alloc, row, trial, Device::Input)?))
}

/// The devices that a trial begins with.
pub fn devices_of<'a>(
    alloc: Global,
    row: &Row,
    trial: &Trial,
    counts: &'a Counts,
) -> Result<Devices<'a>, AllocError> {
    let store = store_of(alloc, row, trial)?;
    let input = source_of(alloc, row, trial)?;
    let out = sink_of(alloc, row, trial, Device::Out)?;
    let err = sink_of(alloc, row, trial, Device::Err)?;
    Ok(Devices {
        store: Counted::new(store, counts, Device::Store),
        input: Counted::new(input, counts, Device::Input),
        out: Counted::new(out, counts, Device::Out),
        err: Counted::new(err, counts, Device::Err),
    })
}

/// The words of a command.
pub fn words_of(alloc: Global, command: &[Vec<u8>]) -> Result<Vec<Word>, AllocError> {
    let mut words = Vec::new(alloc);
    for word in command {
        words.push(Word::from_bytes(alloc, word)?)?;
    }
    Ok(words)
}

/// The exit code of a command.
pub fn code_of(
    alloc: Global,
    command: &[Vec<u8>],
    devices: &mut Devices,
) -> Result<u8, AllocError> {
    let words = words_of(alloc, command)?;
    Ok(exit_code(
        alloc,
        &words,
        &mut devices.store,
        &mut devices.input,
        &mut devices.out,
        &mut devices.err,
    ))
}

/// The status of a command.
pub fn status_of(
    alloc: Global,
    command: &[Vec<u8>],
    devices: &mut Devices,
) -> Result<Status, AllocError> {
    let words = words_of(alloc, command)?;
    Ok(ae(
        alloc,
        &words,
        &mut devices.store,
        &mut devices.input,
        &mut devices.out,
        &mut devices.err,
    ))
}

/// What is left of the input, at most 1,000 bytes.
pub fn left_of(alloc: Global, input: &mut MemorySource) -> Result<Vec<u8>, AllocError> {
    let mut buf = [0; 1000];
    let count = input.read(&mut buf).unwrap_or(0);
    match buf.get(..count) {
        Some(bytes) => bytes.to_vec(alloc),
        None => Ok(Vec::new(alloc)),
    }
}
