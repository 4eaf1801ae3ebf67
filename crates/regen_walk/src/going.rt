//! Going on from word to word, where no record is needed.
ghost use Rattle.std.specs.Prelude.{◌≡◌, ◌↔◌, ℕ, ◌<◌, ◌+◌, true, false, List, Some, IfNone, IfSome, IsSome, IsTrue, OnOk, OnErr, length};
ghost use Rattle.ae_ports.specs.Fault.{HasCause};
ghost use Rattle.ae_nums.specs.declared.item.Item.{Item};
ghost use Rattle.rv_code.specs.Encoding.{Fits};
ghost use Rattle.rv_code.specs.Numbers.{wrap};
ghost use Rattle.rv_code.specs.Parts.{HasRegisters, target_of};
ghost use Rattle.rv_machine.specs.Outcomes.{TookFront};
ghost use Rattle.schema_form.specs.Valid.{IsSchema};
ghost use Rattle.regen_path.specs.declared.arcs.Arc.{Arc};
ghost use Rattle.regen_path.specs.Arcs.{AreWays, HasArc, way_from};
ghost use Rattle.regen_path.specs.Walks.{IsWalk};
ghost use Rattle.regen_walk.specs.Accesses.{access_by};
ghost use Rattle.regen_walk.specs.Decoded.{AreDecoded};
ghost use Rattle.regen_walk.specs.FreeArcs.{kind_number, quiet_arcs};
ghost use Rattle.regen_walk.specs.Inner.Going.{GoesAlong, LeadsOn, items_at, registers_behind, PassesOver};
ghost use Rattle.regen_walk.specs.Inner.Met.{IsSpot};

use crate::accesses::{access_by, carry_out_plain, put_link};
use crate::decoded::instr_at;
use crate::met::Spot;
use ae_nums::{Item, Taker};
use ae_ports::Failed;
use regen_path::{Hop, Paths};
use rv_code::{Instr, target};
use schema_form::Schema;

/// A way that needs no record, and the place of the word that it leads to.
#[derive(Clone, Copy, Debug, PartialEq, Eq)]
pub struct Onward {
    pub taken: bool,
    pub place: u32,
}

/// Carries out an instruction that goes on without a record, as far as a walk needs it, and answers the bytes that it reads or writes.
#[inline(always)]
pub fn carry_out(instr: &Instr, address: u32, registers: &mut [u32; 32]) -> Option<Item>
    requires registers { HasRegisters instr.now }
    requires fits { Fits instr.now }
    ensures access { result ≡ access_by instr.now registers.old }
    ensures registers { registers.new ≡ registers_behind instr.now address registers.old }
{
    match *instr {
        Instr::Load { .. } | Instr::Store { .. } => access_by(instr, registers),
        Instr::Lui { .. } | Instr::Auipc { .. } | Instr::OpImm { .. } | Instr::Op { .. } => {
            carry_out_plain(instr, address, registers);
            None
        }
        Instr::Jal { .. } => {
            put_link(instr, registers, address);
            None
        }
        Instr::Jalr { .. }
        | Instr::Branch { .. }
        | Instr::Fence(_)
        | Instr::Ecall
        | Instr::Ebreak
        | Instr::Bad(_) => None,
    }
}

/// The way by which to go on from one place towards another. `None` where they are the same, or none leads there.
#[inline(always)]
pub fn way_towards(paths: &Paths, here: u32, goal: u32) -> Option<Onward>
    requires here { here < length paths.now }
    requires goal { goal < length paths.now }
    ensures none { IfNone result ((walk : List Arc) → IsWalk (HasArc paths.now) here goal walk → here ≡ goal) }
    ensures some { IfSome result (LeadsOn paths.now here goal) }
{
    let arc = paths.first(here, goal)?;
    Some(Onward {
        taken: arc.kind == 1,
        place: arc.to,
    })
}

/// Whether moves without a record lead from one place to another.
#[inline(always)]
pub fn leads(paths: &Paths, here: u32, goal: u32) -> bool
    requires here { here < length paths.now }
    requires goal { goal < length paths.now }
    ensures { IsTrue result ↔ ((walk : List Arc) × IsWalk (HasArc paths.now) here goal walk) }
{
    match paths.next(here, goal) {
        Hop::NoWay => false,
        Hop::Fall | Hop::Taken | Hop::Here => true,
    }
}

/// Where a way leads from the word at an address, which has that way.
#[inline(always)]
fn led_to(taken: bool, instr: &Instr, address: u32) -> u32
    requires { taken ≡ true → IsSome (target_of instr.now address) }
    ensures taken { taken ≡ true → target_of instr.now address ≡ Some result }
    ensures falls { taken ≡ false → result ≡ wrap (address + 4) }
{
    if taken {
        target(instr, address).unwrap()
    } else {
        address.wrapping_add(4)
    }
}

/// Goes on from the word at a spot by a way that needs no record, over the edge of that way. It answers the bytes that the word reads
/// or writes.
#[inline(always)]
pub fn pass(
    schema: &Schema,
    paths: &Paths,
    instrs: &[Instr],
    onward: Onward,
    spot: &mut Spot,
    registers: &mut [u32; 32],
) -> Option<Item>
    requires valid { IsSchema schema.now }
    requires spot { IsSpot schema.now spot.old }
    requires ways { AreWays (quiet_arcs schema.now) (length schema.now.words) paths.now }
    requires decoded { AreDecoded schema.now.words instrs.now }
    requires arc { way_from paths.now (kind_number onward.taken) spot.old.place ≡ Some onward.place }
    ensures moves { PassesOver schema.now onward.taken spot.old spot.new registers.old registers.new result }
    ensures place { spot.new.place ≡ onward.place }
{
    let address = spot.address;
    let instr = instr_at(schema, instrs, *spot);
    let access = carry_out(&instr, address, registers);
    *spot = Spot {
        address: led_to(onward.taken, &instr, address),
        place: onward.place,
    };
    access
}

/// Gives a taker the items of a word. After `Failed` it has a front of them.
#[inline(always)]
pub fn give<K: Taker>(items: &mut K, address: u32, access: Option<Item>) -> Result<(), Failed>
    ensures all { OnOk result (K.took items.old items.new (items_at address access)) }
    ensures front { OnErr result (TookFront (K.took items.old items.new) (items_at address access)) }
    ensures cause { HasCause (K.faults items.old) (K.faults items.new) result }
    ensures rest { K.same_rest items.old items.new }
{
    items.take(Item::Fetch(address))?;
    match access {
        Some(item) => items.take(item),
        None => Ok(()),
    }
}

/// The registers as they are before the word at the goal, where the walk goes there without a record.
#[inline(always)]
pub fn scouted(
    schema: &Schema,
    paths: &Paths,
    instrs: &[Instr],
    from: Spot,
    goal: Spot,
    registers: &[u32; 32],
) -> [u32; 32]
    requires ways { AreWays (quiet_arcs schema.now) (length schema.now.words) paths.now }
    requires decoded { AreDecoded schema.now.words instrs.now }
    requires from { IsSpot schema.now from }
    requires goal { IsSpot schema.now goal }
    requires leads { (walk : List Arc) × IsWalk (HasArc paths.now) from.place goal.place walk }
    ensures { (walk : List Arc) → IsWalk (HasArc paths.now) from.place goal.place walk →
        (items : List Item) × GoesAlong schema.now walk from.address goal.address registers.now result items }
{
    let mut spot = from;
    let mut registers = *registers;
    // A way has fewer arcs than there are code words.
    for _ in 0..schema.words.as_slice().len() {
        let Some(onward) = way_towards(paths, spot.place, goal.place) else {
            break;
        };
        pass(schema, paths, instrs, onward, &mut spot, &mut registers);
    }
    registers
}

/// Goes to before the word at the goal without a record, and gives the items. After `Failed` the taker has a front of them.
#[inline(always)]
pub fn go<K: Taker>(
    schema: &Schema,
    paths: &Paths,
    instrs: &[Instr],
    from: Spot,
    goal: Spot,
    registers: &mut [u32; 32],
    items: &mut K,
) -> Result<(), Failed>
    requires ways { AreWays (quiet_arcs schema.now) (length schema.now.words) paths.now }
    requires decoded { AreDecoded schema.now.words instrs.now }
    requires from { IsSpot schema.now from }
    requires goal { IsSpot schema.now goal }
    requires leads { (walk : List Arc) × IsWalk (HasArc paths.now) from.place goal.place walk }
    ensures all { OnOk result ((walk : List Arc) → IsWalk (HasArc paths.now) from.place goal.place walk →
        (given : List Item) × GoesAlong schema.now walk from.address goal.address registers.old registers.new given × K.took items.old items.new given) }
    ensures front { OnErr result ((walk : List Arc) → IsWalk (HasArc paths.now) from.place goal.place walk →
        (given : List Item) × (there : List ℕ) × GoesAlong schema.now walk from.address goal.address registers.old there given × TookFront (K.took items.old items.new) given) }
    ensures cause { HasCause (K.faults items.old) (K.faults items.new) result }
    ensures rest { K.same_rest items.old items.new }
{
    let mut spot = from;
    // A way has fewer arcs than there are code words.
    for _ in 0..schema.words.as_slice().len() {
        let Some(onward) = way_towards(paths, spot.place, goal.place) else {
            break;
        };
        let address = spot.address;
        let access = pass(schema, paths, instrs, onward, &mut spot, registers);
        give(items, address, access)?;
    }
    Ok(())
}
