//! The moves by which a word gives a record.
ghost use Rattle.std.specs.Prelude.{◌≡◌, ◌%◌, ◌==◌, ◌&&◌, ℕ, List, true, false, Some, IfOk, OnErr, length};
ghost use Rattle.ae_nums.specs.Registers.{registers_of};
ghost use Rattle.ae_ports.specs.Fault.{HasCause};
ghost use Rattle.ev_format.specs.Shapes.{value_count};
ghost use Rattle.ev_format.specs.Spelling.{address_in};
ghost use Rattle.ev_format.specs.declared.record.Record.TheVariants as records;
ghost use Rattle.schema_form.specs.LookUps.{schema_shape};
ghost use Rattle.schema_form.specs.SchemaParts.{SchemaParts};
ghost use Rattle.schema_form.specs.Valid.{IsSchema};
ghost use Rattle.regen_walk.specs.Decoded.{AreDecoded, IsDecoded};
ghost use Rattle.regen_walk.specs.Inner.Met.{IsMet, IsSpot};
ghost use Rattle.regen_walk.specs.Inner.Telling.{edge_record, may_stop, may_tell, HasTold, HasBrokenOff};
ghost use Rattle.regen_walk.specs.Moves.{needed_at, placed_at};
ghost use Rattle.regen_walk.specs.WalkView.{IsPlacedBy};

use crate::accesses::{access_by, may_end, put_link, put_written};
use crate::arcs::goes_quietly;
use crate::decoded::instr_at;
use crate::going::{carry_out, give};
use crate::met::{Met, Spot, met_at};
use crate::position::Position;
use crate::registers::put_values;
use ae_nums::Taker;
use ae_ports::Failed;
use ev_format::{Record, Shape, Values, value_count};
use rv_code::{Class, Instr, base, decode};
use schema_form::{Schema, gives_value, is_indirect};

/// A position, and the place of the code word that it names.
#[derive(Clone, Copy, Debug, PartialEq, Eq)]
pub struct Stand {
    pub position: Position,
    pub place: u32,
}

/// Before the code word at the address, or outside where none stands there.
#[inline(always)]
pub fn placed_at(schema: &Schema, address: u32) -> Stand
    ensures position { result.position ≡ placed_at schema.now address }
    ensures placed { IsPlacedBy schema.now result.position result.place }
{
    match schema.place_of(address) {
        Some(place) => Stand {
            position: Position::Before(address),
            place,
        },
        None => Stand {
            position: Position::Outside(address),
            place: 0,
        },
    }
}

/// The mask of the registers whose values a landing at the target has.
fn needed_at(schema: &Schema, target: u32) -> u32
    ensures numbers { registers_of result ≡ needed_at schema.now target }
    ensures clear { result % 2 ≡ 0 }
{
    match schema.needs(target) {
        Some(mask) => mask,
        None => 0,
    }
}

/// Whether a landing may have this target and these values.
#[inline(never)]
fn may_land(schema: &Schema, target: u32, values: &Values) -> bool
    ensures { result ≡ (target % 2 == 0 && length values.now == value_count (schema_shape schema.now) target) }
{
    target % 2 == 0 && values.words().len() == value_count(schema, target)
}

/// Whether a run may end at a word of a class.
#[inline(always)]
fn may_stop(class: Class) -> bool
    ensures { result ≡ may_stop class }
{
    match class {
        Class::Load | Class::Store | Class::Call | Class::Stop => true,
        Class::Plain | Class::Branch | Class::Jump | Class::Indirect => false,
    }
}

/// Whether it hangs on the registers if the word may give the record: that is so where a run ends at a load or store
/// with a base.
#[inline(always)]
pub fn asks_registers(met: Met, rec: &Record) -> bool
    ensures { result ≡ false → (parts : SchemaParts) (address : ℕ) → IsMet parts address met → address ≡ address_in rec.now →
        (one other : List ℕ) → may_tell parts address one rec.now ≡ may_tell parts address other rec.now }
{
    match rec {
        Record::End { .. } => base(&decode(met.word.raw)).is_some(),
        _ => false,
    }
}

/// Whether the word of a record, at an address, may give it, with these registers.
#[inline(always)]
pub fn may_tell(
    schema: &Schema,
    address: u32,
    met: Met,
    registers: &[u32; 32],
    rec: &Record,
) -> bool
    requires met { IsMet schema.now address met }
    requires address { address ≡ address_in rec.now }
    ensures { result ≡ may_tell schema.now address registers.now rec.now }
{
    match rec {
        Record::Fall(_) => goes_quietly(met.is_kept(), false, met.class) && met.is_marked(false),
        Record::Taken(_) => goes_quietly(met.is_kept(), true, met.class) && met.is_marked(true),
        Record::Value { .. } => gives_value(met.is_kept(), met.class),
        Record::Landing { target, values, .. } => {
            is_indirect(met.class) && may_land(schema, *target, values)
        }
        Record::End { kind, detail, .. } => {
            may_stop(met.class) && may_end(&decode(met.word.raw), registers, *kind, *detail)
        }
    }
}

/// Goes on from a word by a way whose edge is recorded.
#[inline(always)]
fn tell_edge<K: Taker>(
    schema: &Schema,
    spot: Spot,
    met: Met,
    instr: &Instr,
    taken: bool,
    registers: &mut [u32; 32],
    items: &mut K,
) -> Result<Stand, Failed>
    requires met { IsMet schema.now spot.address met }
    requires decoded { IsDecoded met.word.raw instr.now }
    requires may { may_tell schema.now spot.address registers.old (edge_record taken spot.address) ≡ true }
    ensures all { IfOk result (λ stand. HasTold schema.now spot.address registers.old (edge_record taken spot.address) (K.took items.old items.new) stand registers.new) }
    ensures front { OnErr result (HasBrokenOff schema.now spot.address registers.old (edge_record taken spot.address) (K.took items.old items.new)) }
    ensures cause { HasCause (K.faults items.old) (K.faults items.new) result }
    ensures rest { K.same_rest items.old items.new }
{
    let access = carry_out(instr, spot.address, registers);
    let next = met.way_by(taken, instr, spot.address).unwrap();
    give(items, spot.address, access)?;
    Ok(placed_at(schema, next))
}

/// Takes the value that a load or a call gave.
#[inline(always)]
fn tell_value<K: Taker>(
    schema: &Schema,
    spot: Spot,
    met: Met,
    instr: &Instr,
    value: u32,
    registers: &mut [u32; 32],
    items: &mut K,
) -> Result<Stand, Failed>
    requires spot { IsSpot schema.now spot }
    requires met { IsMet schema.now spot.address met }
    requires decoded { IsDecoded met.word.raw instr.now }
    requires may { may_tell schema.now spot.address registers.old (records.Value spot.address value) ≡ true }
    ensures all { IfOk result (λ stand. HasTold schema.now spot.address registers.old (records.Value spot.address value) (K.took items.old items.new) stand registers.new) }
    ensures front { OnErr result (HasBrokenOff schema.now spot.address registers.old (records.Value spot.address value) (K.took items.old items.new)) }
    ensures cause { HasCause (K.faults items.old) (K.faults items.new) result }
    ensures rest { K.same_rest items.old items.new }
{
    let access = access_by(instr, registers);
    put_written(instr, registers, value);
    give(items, spot.address, access)?;
    Ok(Stand {
        position: Position::After {
            address: spot.address,
            taken: false,
        },
        place: spot.place,
    })
}

/// Lands where an indirect jump went, with the values of the registers that are needed there.
#[inline(never)]
fn tell_landing<K: Taker>(
    schema: &Schema,
    address: u32,
    met: Met,
    instr: &Instr,
    target: u32,
    values: &Values,
    registers: &mut [u32; 32],
    items: &mut K,
) -> Result<Stand, Failed>
    requires met { IsMet schema.now address met }
    requires decoded { IsDecoded met.word.raw instr.now }
    requires may { may_tell schema.now address registers.old (records.Landing address target values.now) ≡ true }
    ensures all { IfOk result (λ stand. HasTold schema.now address registers.old (records.Landing address target values.now) (K.took items.old items.new) stand registers.new) }
    ensures front { OnErr result (HasBrokenOff schema.now address registers.old (records.Landing address target values.now) (K.took items.old items.new)) }
    ensures cause { HasCause (K.faults items.old) (K.faults items.new) result }
    ensures rest { K.same_rest items.old items.new }
{
    put_link(instr, registers, address);
    put_values(registers, needed_at(schema, target), values.words());
    give(items, address, None)?;
    Ok(placed_at(schema, target))
}

/// Ends at a word.
#[inline(never)]
fn tell_end<K: Taker>(
    schema: &Schema,
    spot: Spot,
    met: Met,
    kind: u32,
    detail: u32,
    registers: &[u32; 32],
    items: &mut K,
) -> Result<Stand, Failed>
    requires met { IsMet schema.now spot.address met }
    requires may { may_tell schema.now spot.address registers.now (records.End spot.address kind detail) ≡ true }
    ensures all { IfOk result (λ stand. HasTold schema.now spot.address registers.now (records.End spot.address kind detail) (K.took items.old items.new) stand registers.now) }
    ensures front { OnErr result (HasBrokenOff schema.now spot.address registers.now (records.End spot.address kind detail) (K.took items.old items.new)) }
    ensures cause { HasCause (K.faults items.old) (K.faults items.new) result }
    ensures rest { K.same_rest items.old items.new }
{
    give(items, spot.address, None)?;
    Ok(Stand {
        position: Position::Stopped,
        place: spot.place,
    })
}

/// Makes the moves from before the word of a record, at a spot, up to and with the one that has it, and gives their items. After
/// `Failed` the taker has a front of them.
#[inline(always)]
pub fn tell<K: Taker>(
    schema: &Schema,
    instrs: &[Instr],
    spot: Spot,
    rec: &Record,
    registers: &mut [u32; 32],
    items: &mut K,
) -> Result<Stand, Failed>
    requires valid { IsSchema schema.now }
    requires decoded { AreDecoded schema.now.words instrs.now }
    requires spot { IsSpot schema.now spot }
    requires address { spot.address ≡ address_in rec.now }
    requires may { may_tell schema.now spot.address registers.old rec.now ≡ true }
    ensures all { IfOk result (λ stand. HasTold schema.now spot.address registers.old rec.now (K.took items.old items.new) stand registers.new) }
    ensures size { length registers.new ≡ 32 }
    ensures front { OnErr result (HasBrokenOff schema.now spot.address registers.old rec.now (K.took items.old items.new)) }
    ensures cause { HasCause (K.faults items.old) (K.faults items.new) result }
    ensures rest { K.same_rest items.old items.new }
{
    let met = met_at(schema, spot);
    let instr = &instr_at(schema, instrs, spot);
    match rec {
        Record::Fall(_) => tell_edge(schema, spot, met, instr, false, registers, items),
        Record::Taken(_) => tell_edge(schema, spot, met, instr, true, registers, items),
        Record::Value { value, .. } => tell_value(
            schema, spot, met, instr, *value, registers, items,
        ),
        Record::Landing { target, values, .. } => tell_landing(
            schema,
            spot.address,
            met,
            instr,
            *target,
            values,
            registers,
            items,
        ),
        Record::End { kind, detail, .. } => {
            tell_end(schema, spot, met, *kind, *detail, registers, items)
        }
    }
}
