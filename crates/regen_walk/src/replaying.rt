//! The items of the records of an event file.
ghost use Rattle.std.specs.Prelude.{◌≡◌, IfOk, OnErr};
ghost use Rattle.ae_ports.specs.Fault.{HasCause};
ghost use Rattle.rv_machine.specs.Start.{first_registers};
ghost use Rattle.regen_walk.specs.declared.position.Position.TheVariants.{Before};
ghost use Rattle.regen_walk.specs.Regenerated.{BeginsItems, Regenerates};
ghost use Rattle.regen_walk.specs.WalkView.{IsWalkOver};

use crate::{Walk, WalkFault};
use ae_nums::Taker;
use ae_ports::{Failed, SteadySource};
use ev_format::{Record, Records, Stop};
use schema_form::Schema;

/// Why an event file gives no further items.
#[derive(Clone, Copy, Debug, PartialEq, Eq)]
pub enum Halted {
    /// Reading stopped.
    Read(Stop),
    /// The record at this offset is the first that no walk has behind those before it.
    Astray { offset: u64 },
}

/// Gives a taker the items of the longest front of an event file's records that a walk explains, and answers why there are no more.
/// After `Failed` the taker has a front of such items. It takes no memory.
pub fn replay<K: Taker>(
    walk: &mut Walk,
    schema: &Schema,
    events: &mut SteadySource,
    items: &mut K,
) -> Result<Halted, Failed>
    requires over { IsWalkOver schema.now walk.old }
    requires position { walk.old.position ≡ Before schema.now.entry }
    requires registers { walk.old.registers ≡ first_registers }
    ensures all { IfOk result (Regenerates schema.now events.old (K.took items.old items.new)) }
    ensures front { OnErr result (BeginsItems schema.now events.old (K.took items.old items.new)) }
    ensures cause { HasCause (K.faults items.old) (K.faults items.new) result }
    ensures rest { K.same_rest items.old items.new }
{
    let mut records = Records::start();
    let mut rec = Record::Fall(0);
    loop {
        match records.read(schema, events, &mut rec) {
            Ok(offset) => match walk.advance(schema, &rec, items) {
                Ok(_) => {}
                Err(WalkFault::Astray) => return Ok(Halted::Astray { offset }),
                Err(WalkFault::Failed) => return Err(Failed),
            },
            Err(stop) => return Ok(Halted::Read(stop)),
        }
    }
}
