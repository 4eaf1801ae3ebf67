//! Devices over files whose calls are counted, and can be made to go wrong.
use crate::asking::Asked;
use crate::files::Filed;
use crate::telling::{bytes, split};
use crate::watched::{Calls, Trouble, Watched};
use row_form::not_understood;
use std::alloc::Global;
use std::io;

/// Devices over watched files.
#[derive(Drop)]
pub struct Watching<'a> {
    devices: Filed<Watched<'a>>,
    calls: &'a Calls,
}

impl<'a> Watching<'a> {
    /// Devices over the files of the system, whose calls are counted here.
    pub fn new(rt: &HostRuntime, calls: &'a Calls) -> Watching<'a> {
        Watching {
            devices: Filed::new(rt.alloc(), Watched::new(*rt, calls)),
            calls,
        }
    }
}

impl Asked for Watching<'_> {
    fn answer(&mut self, alloc: Global, question: &str) -> io::Result<Vec<u8>> {
        match split(question) {
            ("trouble", kind) => {
                self.calls.trouble.set(Some(trouble_of(kind)?));
                bytes(alloc, "done")
            }
            ("calls", "") => calls_text(alloc, self.calls),
            _ => self.devices.answer(alloc, question),
        }
    }
}

fn trouble_of(kind: &str) -> io::Result<Trouble> {
    match kind {
        "interrupted" => Ok(Trouble::Interrupted),
        "broken" => Ok(Trouble::Broken),
        "nothing" => Ok(Trouble::NoByte),
        _ => Err(not_understood()),
    }
}

/// How many calls of each sort there were.
fn calls_text(alloc: Global, calls: &Calls) -> io::Result<Vec<u8>> {
    let opens = calls.opens.get();
    let reads = calls.reads.get();
    let writes = calls.writes.get();
    let seeks = calls.seeks.get();
    let text = format!(in alloc; "{opens} opens {reads} reads {writes} writes {seeks} seeks")?;
    Ok(text.into_bytes())
}
