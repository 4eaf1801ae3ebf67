//! Rows that are carried out by calls of the machine itself, which the top call makes only in part: a run goes on in a
//! second call, is made step by step, and has a taker that fails; after its end, or a fault, each call answers the same
//! and calls no port.
ghost use Rattle.std.specs.Prelude.{◌≡◌, None, IfOk, IfSome};

use crate::counting::Counts;
use crate::kept_items::KeptItems;
use crate::machine_ports::{Ports, answer_line};
use crate::recorded::is_recorded;
use crate::registers::registers_text;
use crate::row::{Kind, Row};
use ae_nums::item_line;
use row_answers::image_of;
use rv_code::Image;
use rv_machine::{Machine, MachineFault, Outcome, Seen, Step};
use std::alloc::Global;
use std::io;

/// More than the number of items of any row, and more steps than any takes.
const MANY: u64 = 10_000;

/// Carries a row out by calls of the machine, prints a line where something isn't as it says, and answers whether nothing
/// is.
pub fn judge_machine(rt: &HostRuntime, row: &Row) -> io::Result<bool> {
    let bytes = row.file(Kind::File, b"P").unwrap_or(&[]);
    let Some(image) = image_of(rt.alloc(), bytes) else {
        return told(rt, row, "the file isn't accepted", false);
    };
    judge_image(rt, row, &image)
}

fn judge_image(rt: &HostRuntime, row: &Row, image: &Image) -> io::Result<bool> {
    let recorded_is = told(rt, row, "recorded", is_recorded(rt.alloc(), row, image)?)?;
    let run_is = told(rt, row, "run", runs(rt.alloc(), row, image)?)? && recorded_is;
    if !row.has(Kind::Leaves) {
        return Ok(run_is);
    }
    let steps_are = told(rt, row, "step by step", steps(rt.alloc(), row, image)?)?;
    let parts_are = told(
        rt,
        row,
        "in two parts",
        is_traced_in_parts(rt.alloc(), row, image)?,
    )?;
    let items_are = told(
        rt,
        row,
        "an item is refused",
        is_stopped_at_items(rt.alloc(), row, image)?,
    )?;
    Ok(run_is && steps_are && parts_are && items_are)
}

fn told(rt: &HostRuntime, row: &Row, what: &str, is_right: bool) -> io::Result<bool> {
    if !is_right {
        println!(rt; "{}: by the machine: {what}", row.name.as_str())?;
    }
    Ok(is_right)
}

/// The outputs took what the row says, the second before the line of this answer.
fn has_taken(
    alloc: Global,
    row: &Row,
    ports: &Ports,
    answer: Result<Outcome, MachineFault>,
) -> io::Result<bool> {
    let line = answer_line(alloc, answer, row.fuel)?;
    let [out, err, events] = ports.taken();
    let err_is = row.bytes(Kind::Err).strip_suffix(line.as_bytes()) == Some(err);
    Ok(out == row.bytes(Kind::Out) && err_is && events == row.bytes(Kind::Events))
}

/// A run comes to what the row says, and each later call to the same.
fn runs(alloc: Global, row: &Row, image: &Image) -> io::Result<bool> {
    let counts = Counts::new();
    let mut ports = Ports::new(alloc, row, &counts)?;
    let mut machine = Machine::load(alloc, image)?;
    let first = ports.run(&mut machine, row.fuel);
    let calls = counts.all();
    for fuel in [0, 1, 9, 1000] {
        if ports.run(&mut machine, fuel) != first
            || !is_same_step(first, ports.step(&mut machine))
        {
            return Ok(false);
        }
    }
    let is_taken = has_taken(alloc, row, &ports, first)?;
    Ok(counts.all() == calls && is_taken && has_registers(alloc, row, &machine)?)
}

/// The machine has the pc and the registers that the row says, if it says them.
fn has_registers(alloc: Global, row: &Row, machine: &Machine) -> io::Result<bool> {
    if !row.has(Kind::Registers) {
        return Ok(true);
    }
    let shown = registers_text(alloc, machine)?;
    Ok(shown.as_slice() == row.bytes(Kind::Registers))
}

/// A step behind a run comes to what the run came to.
fn is_same_step(first: Result<Outcome, MachineFault>, step: Result<Step, MachineFault>) -> bool {
    match (first, step) {
        (Ok(Outcome::Ended(ending)), Ok(Step::Ended(other, seen))) => ending == other
            && is_nothing(seen),
        (Ok(Outcome::Spent), Ok(Step::Went(_))) => true,
        (Err(fault), Err(other)) => fault == other,
        _ => false,
    }
}

fn is_nothing(seen: Seen) -> bool {
    seen.fetch.is_none() && seen.access.is_none()
}

/// Adds the lines of what a step showed.
fn add_seen(lines: &mut Vec<u8>, seen: Seen) -> io::Result<()> {
    if let Some(address) = seen.fetch {
        lines.extend_from_slice(item_line(&ae_nums::Item::Fetch(address)).bytes())?;
    }
    if let Some(item) = seen.access {
        lines.extend_from_slice(item_line(&item).bytes())?;
    }
    Ok(())
}

/// The steps, taken one by one, show the items that the row says, and each step behind the last shows nothing.
fn steps(alloc: Global, row: &Row, image: &Image) -> io::Result<bool> {
    let counts = Counts::new();
    let mut ports = Ports::new(alloc, row, &counts)?;
    let mut machine = Machine::load(alloc, image)?;
    let mut lines = Vec::new(alloc);
    for _ in 0..MANY {
        match ports.step(&mut machine) {
            Ok(Step::Went(seen)) => add_seen(&mut lines, seen)?,
            Ok(Step::Ended(ending, seen)) => {
                add_seen(&mut lines, seen)?;
                let answer = Ok(Outcome::Ended(ending));
                let is_kept = is_same_step(answer, ports.step(&mut machine));
                let is_taken = has_taken(alloc, row, &ports, answer)?;
                return Ok(is_kept && is_taken && lines.as_slice() == row.bytes(Kind::Leaves));
            }
            Err(_) => return Ok(false),
        }
    }
    Ok(false)
}

/// A machine without a note before its first step.
fn untraced_machine(alloc: Global, image: &Image) -> io::Result<Option<Machine>>
    ensures { IfOk result (λ option. IfSome option (λ machine. machine.note ≡ None)) }
{
    if image.note.is_some() {
        return Ok(None);
    }
    Ok(Some(Machine::load(alloc, image)?))
}

/// A run that is made in two calls gives the same items, wherever it is cut; and so do calls behind its end.
fn is_traced_in_parts(alloc: Global, row: &Row, image: &Image) -> io::Result<bool> {
    for fuel in 0..20 {
        let Some(machine) = untraced_machine(alloc, image)? else {
            return Ok(false);
        };
        if !is_cut_at(alloc, row, machine, fuel)? {
            return Ok(false);
        }
    }
    Ok(true)
}

/// A run whose first call has so much fuel gives the row's items.
fn is_cut_at(alloc: Global, row: &Row, mut machine: Machine, fuel: u64) -> io::Result<bool>
    requires { machine.note ≡ None }
{
    let counts = Counts::new();
    let mut ports = Ports::new(alloc, row, &counts)?;
    let mut kept = KeptItems::new(alloc, MANY);
    let first = ports.trace(&mut machine, fuel, &mut kept);
    let is_front = row.bytes(Kind::Leaves).starts_with(kept.lines());
    let whole = ports.trace(&mut machine, MANY, &mut kept);
    let again = ports.trace(&mut machine, MANY, &mut kept);
    let no_fuel = ports.trace(&mut machine, 0, &mut kept);
    let is_kept = again == whole
        && no_fuel == whole
        && (first == Ok(Outcome::Spent) || first == whole);
    let is_taken = has_taken(alloc, row, &ports, whole)?;
    Ok(is_front && is_kept && is_taken && kept.lines() == row.bytes(Kind::Leaves))
}

/// A taker that fails at an item, whichever it is, has those before it, and gets no call more.
fn is_stopped_at_items(alloc: Global, row: &Row, image: &Image) -> io::Result<bool> {
    let count = row
        .bytes(Kind::Leaves)
        .iter()
        .filter(|byte| **byte == b'\n')
        .count() as u64;
    for place in 0..count {
        let Some(machine) = untraced_machine(alloc, image)? else {
            return Ok(false);
        };
        if !is_stopped_at(alloc, row, machine, place)? {
            return Ok(false);
        }
    }
    Ok(true)
}

fn is_stopped_at(alloc: Global, row: &Row, mut machine: Machine, place: u64) -> io::Result<bool>
    requires { machine.note ≡ None }
{
    let counts = Counts::new();
    let mut ports = Ports::new(alloc, row, &counts)?;
    let mut kept = KeptItems::new(alloc, place);
    let fault = Err(MachineFault::EventFault);
    let first = ports.trace(&mut machine, MANY, &mut kept);
    let second = ports.trace(&mut machine, MANY, &mut kept);
    let third = ports.trace(&mut machine, 0, &mut kept);
    let is_kept = first == fault
        && second == fault
        && third == fault
        && ports.run(&mut machine, 9) == fault
        && matches!(ports.step(&mut machine), Err(MachineFault::EventFault));
    let is_front = row.bytes(Kind::Leaves).starts_with(kept.lines());
    Ok(is_kept && is_front && kept.count() == place && kept.calls() == place.saturating_add(1))
}
