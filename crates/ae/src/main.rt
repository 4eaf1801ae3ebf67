//! The program `ae`: the devices of the real system are handed to the top call.
#![tactic(auto)]

use ae_devices::{FileStore, StdSink, StdSource};
use ae_ports::Word;
use ae_top::exit_code;
use std::alloc::AllocError;
use std::process::ExitCode;
use std::{env, io};

/// The exit code where there is no memory.
const NO_MEMORY: u8 = 70;

fn main(rt: HostRuntime) -> ExitCode {
    match run(&rt) {
        Ok(code) => ExitCode::from(code),
        Err(AllocError) => {
            let _ = rt.eprintln("ae: no memory");
            ExitCode::from(NO_MEMORY)
        }
    }
}

/// Hands the devices of the system to the top call, and answers the exit code.
fn run(rt: &HostRuntime) -> Result<u8, AllocError> {
    let words = gather_words(rt)?;
    let mut store = FileStore::new(rt.alloc(), *rt);
    let mut input = StdSource::new(rt.stdin());
    let mut out = StdSink::new(rt.stdout());
    let mut err = StdSink::new(rt.stderr());
    Ok(exit_code(
        rt.alloc(),
        &words,
        &mut store,
        &mut input,
        &mut out,
        &mut err,
    ))
}

/// The words after the program's name. Where the system gives one that isn't text there are none, which is no command.
fn gather_words(rt: &HostRuntime) -> Result<Vec<Word>, AllocError> {
    let mut words = Vec::new(rt.alloc());
    match env::args(rt) {
        Ok(all) => {
            for word in all.skip(1) {
                words.push(Word::from_bytes(rt.alloc(), word.as_bytes())?)?;
            }
            Ok(words)
        }
        Err(error) if error.kind() == io::ErrorKind::OutOfMemory => Err(AllocError),
        Err(_) => Ok(words),
    }
}
