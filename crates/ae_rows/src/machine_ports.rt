//! A machine over ports in memory, whose calls are counted.
ghost use Rattle.std.specs.Prelude.{◌≡◌, None};

use crate::counting::{Counted, Counts, Device};
use crate::kept_items::KeptItems;
use crate::row::{Kind, Row};
use ae_ports::{MemorySink, MemorySource};
use rv_code::Ending;
use rv_machine::{Machine, MachineFault, Outcome, Step};
use std::alloc::{AllocError, Global};

/// The ports of a machine.
#[derive(Drop)]
pub struct Ports<'a> {
    input: Counted<'a, MemorySource>,
    out: Counted<'a, MemorySink>,
    err: Counted<'a, MemorySink>,
    events: Counted<'a, MemorySink>,
}

/// A sink of a row.
fn sink_of<'a>(
    alloc: Global,
    row: &Row,
    counts: &'a Counts,
    device: Device,
) -> Result<Counted<'a, MemorySink>, AllocError> {
    let sink = MemorySink::new(alloc, row.failing(alloc, device)?);
    Ok(Counted::new(sink, counts, device))
}

impl<'a> Ports<'a> {
    /// The ports of a row.
    pub fn new(alloc: Global, row: &Row, counts: &'a Counts) -> Result<Ports<'a>, AllocError> {
        let bytes = row.bytes(Kind::Input).to_vec(alloc)?;
        let source = MemorySource::new(bytes, row.failing(alloc, Device::Input)?);
        let out = sink_of(alloc, row, counts, Device::Out)?;
        let err = sink_of(alloc, row, counts, Device::Err)?;
        let events = sink_of(alloc, row, counts, Device::Events)?;
        Ok(Ports {
            input: Counted::new(source, counts, Device::Input),
            out,
            err,
            events,
        })
    }

    /// The ports of a row, of whose sink of events this call fails too.
    pub fn failing_at(
        alloc: Global,
        row: &Row,
        counts: &'a Counts,
        call: u64,
    ) -> Result<Ports<'a>, AllocError> {
        let ports = Ports::new(alloc, row, counts)?;
        let mut calls = row.failing(alloc, Device::Events)?;
        calls.push(call)?;
        Ok(Ports {
            events: Counted::new(MemorySink::new(alloc, calls), counts, Device::Events),
            ..ports
        })
    }

    /// What the first output, the second and the sink of events took.
    pub fn taken(&self) -> [&[u8]; 3] {
        [
            self.out.inner().taken(),
            self.err.inner().taken(),
            self.events.inner().taken(),
        ]
    }

    /// Runs a machine.
    pub fn run(&mut self, machine: &mut Machine, fuel: u64) -> Result<Outcome, MachineFault> {
        machine.run(
            fuel,
            &mut self.input,
            &mut self.out,
            &mut self.err,
            &mut self.events,
        )
    }

    /// Gives the header of a machine's event file.
    pub fn head(&mut self, machine: &mut Machine) -> Result<(), MachineFault> {
        machine.head(&mut self.events)
    }

    /// Gives what is left of a machine's events.
    pub fn tail(&mut self, machine: &mut Machine) -> Result<(), MachineFault> {
        machine.tail(&mut self.events)
    }

    /// Takes a step of a machine.
    pub fn step(&mut self, machine: &mut Machine) -> Result<Step, MachineFault> {
        machine.step(
            &mut self.input,
            &mut self.out,
            &mut self.err,
            &mut self.events,
        )
    }

    /// Runs a machine, and gives a taker its items.
    pub fn trace(
        &mut self,
        machine: &mut Machine,
        fuel: u64,
        kept: &mut KeptItems,
    ) -> Result<Outcome, MachineFault>
        requires { machine.old.note ≡ None }
        ensures { machine.new.note ≡ None }
    {
        machine.trace(fuel, &mut self.input, &mut self.out, &mut self.err, kept)
    }
}

/// The ending's line.
pub fn line_of(alloc: Global, ending: Ending) -> Result<String, AllocError> {
    match ending {
        Ending::Exit(code) => format!(in alloc; "exit {code}\n"),
        Ending::Illegal(word) => format!(in alloc; "illegal {word:08x}\n"),
        Ending::Breakpoint => format!(in alloc; "breakpoint\n"),
        Ending::LoadFault(address) => format!(in alloc; "load fault {address:08x}\n"),
        Ending::StoreFault(address) => format!(in alloc; "store fault {address:08x}\n"),
        Ending::FetchFault(address) => format!(in alloc; "fetch fault {address:08x}\n"),
        Ending::JumpMisaligned(address) => format!(in alloc; "misaligned jump {address:08x}\n"),
    }
}

/// The line of what a machine answered to so much fuel.
pub fn answer_line(
    alloc: Global,
    answer: Result<Outcome, MachineFault>,
    fuel: u64,
) -> Result<String, AllocError> {
    match answer {
        Ok(Outcome::Ended(ending)) => line_of(alloc, ending),
        Ok(Outcome::Spent) => format!(in alloc; "ae: fuel spent {fuel}\n"),
        Err(MachineFault::InputFault) => format!(in alloc; "ae: input fault\n"),
        Err(MachineFault::OutFault) => format!(in alloc; "ae: out fault\n"),
        Err(MachineFault::ErrFault) => format!(in alloc; "ae: err fault\n"),
        Err(MachineFault::EventFault) => format!(in alloc; "ae: event fault\n"),
    }
}
