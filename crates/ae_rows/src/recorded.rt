//! The event bytes of a run, with what comes before it and behind it.
use crate::counting::{Counts, Device};
use crate::machine_ports::Ports;
use crate::row::{Kind, Row};
use rv_code::Image;
use rv_machine::{Machine, MachineFault, Outcome};
use std::alloc::Global;
use std::io;

/// A run gives the events that the row says, if it says them; and where a call of their sink fails, whichever it is, a front of them.
pub fn is_recorded(alloc: Global, row: &Row, image: &Image) -> io::Result<bool> {
    if !row.has(Kind::Recorded) {
        return Ok(true);
    }
    let counts = Counts::new();
    if !is_whole(alloc, row, image, &counts)? {
        return Ok(false);
    }
    for call in 0..counts.of(Device::Events) {
        if !is_begun(alloc, row, image, call)? {
            return Ok(false);
        }
    }
    Ok(true)
}

/// Gives what comes before a run, runs, and gives what comes behind it.
fn record(machine: &mut Machine, ports: &mut Ports, fuel: u64) -> Result<Outcome, MachineFault> {
    ports.head(machine)?;
    let outcome = ports.run(machine, fuel)?;
    ports.tail(machine)?;
    Ok(outcome)
}

/// A run gives all events.
fn is_whole(alloc: Global, row: &Row, image: &Image, counts: &Counts) -> io::Result<bool> {
    let mut machine = Machine::load(alloc, image)?;
    let mut ports = Ports::new(alloc, row, counts)?;
    let outcome = record(&mut machine, &mut ports, row.fuel);
    let [_, _, events] = ports.taken();
    Ok(outcome.is_ok() && events == row.bytes(Kind::Recorded))
}

/// Each further call answers the fault.
fn is_kept(machine: &mut Machine, ports: &mut Ports) -> bool {
    let fault = MachineFault::EventFault;
    ports.head(machine) == Err(fault)
        && ports.tail(machine) == Err(fault)
        && ports.run(machine, 9) == Err(fault)
        && matches!(ports.step(machine), Err(MachineFault::EventFault))
}

/// A run of which this call of the sink of events fails gives a front of the events, and each further call answers that fault and calls
/// nothing.
fn is_begun(alloc: Global, row: &Row, image: &Image, call: u64) -> io::Result<bool> {
    let counts = Counts::new();
    let mut machine = Machine::load(alloc, image)?;
    let mut ports = Ports::failing_at(alloc, row, &counts, call)?;
    let outcome = record(&mut machine, &mut ports, row.fuel);
    let calls = counts.of(Device::Events);
    let is_kept = is_kept(&mut machine, &mut ports);
    let [_, _, events] = ports.taken();
    let is_front = row.bytes(Kind::Recorded).starts_with(events);
    let are_none = counts.of(Device::Events) == calls && calls == call.saturating_add(1);
    Ok(outcome == Err(MachineFault::EventFault) && is_kept && is_front && are_none)
}
