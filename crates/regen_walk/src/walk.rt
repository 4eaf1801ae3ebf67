//! A walk over a schema, record by record.
ghost use Rattle.std.specs.Prelude.{◌≡◌, ℕ, ◌≤◌, [], List, Some, None, IfOk, IfErr, IfNone, IfSome, OnErr, OnOk, Err, length};
ghost use Rattle.ae_ports.specs.Fault.{HasCause};
ghost use Rattle.ae_nums.specs.declared.item.Item.{Item};
ghost use Rattle.ev_format.specs.Spelling.{address_in, kind_in};
ghost use Rattle.rv_machine.specs.Start.{first_registers};
ghost use Rattle.schema_form.specs.Valid.{IsSchema};
ghost use Rattle.regen_path.specs.declared.arcs.Arc.{Arc};
ghost use Rattle.regen_path.specs.Arcs.{AreWays, HasArc};
ghost use Rattle.regen_path.specs.Walks.{IsWalk};
ghost use Rattle.regen_walk.specs.declared.position.Position.TheVariants.{Before, After, Stopped};
ghost use Rattle.regen_walk.specs.declared.turn.WalkFault.TheVariants.{Astray};
ghost use Rattle.regen_walk.specs.Decoded.{AreDecoded};
ghost use Rattle.regen_walk.specs.FreeArcs.{quiet_arcs};
ghost use Rattle.regen_walk.specs.Inner.Goal.{IsGoal};
ghost use Rattle.regen_walk.specs.Inner.Going.{GoesAlong};
ghost use Rattle.regen_walk.specs.Inner.Met.{IsMet, IsSpot};
ghost use Rattle.regen_walk.specs.Inner.Telling.{may_tell};
ghost use Rattle.regen_walk.specs.Labels.{Tell};
ghost use Rattle.regen_walk.specs.Moves.{Moved, move_outside};
ghost use Rattle.regen_walk.specs.Promises.{WalkAdvances, AdvancesFrom, IsBrokenOff, IsMoved, Tells, WalkRises, turn_by};
ghost use Rattle.regen_walk.specs.WalkView.{IsWalkOver};

use crate::arcs::quiet_paths;
use crate::crossing::{Crossing, edge_behind, ends_outside};
use crate::decoded::decoded;
use crate::going::{go, leads, scouted};
use crate::met::{Met, Spot, met_at};
use crate::position::Position;
use crate::registers::first_registers;
use crate::telling::{Stand, asks_registers, may_tell, placed_at, tell};
use crate::{Turn, WalkFault};
use ae_nums::Taker;
use ae_ports::Failed;
use ev_format::Record;
use regen_path::Paths;
use rv_code::Instr;
use schema_form::Schema;
use std::alloc::{AllocError, Global};
use std::marker::Model;

/// A walk over a schema. Contracts see where it stands, its registers, and where the edges without a record lead.
#[derive(Drop)]
pub struct Walk {
    stand: Stand,
    registers: [u32; 32],
    paths: Paths,
    instrs: Vec<Instr>,
}

impl Model for Walk {
    ghost use Rattle.regen_walk.specs.WalkView.{WalkParts};

    ghost Value = { WalkParts };

    ghost view = { λ walk.
        record {
          position = walk.stand.position;
          registers = walk.registers;
          place = walk.stand.place;
          ways = walk.paths;
          instrs = walk.instrs.items;
        } };
}

/// How a walk stands after a record.
#[inline(always)]
fn turn_by(rec: &Record) -> Turn
    ensures { result ≡ turn_by (kind_in rec.now) }
{
    match rec {
        Record::End { .. } => Turn::Stopped,
        Record::Fall(_) | Record::Taken(_) | Record::Value { .. } | Record::Landing { .. } => {
            Turn::Going
        }
    }
}

/// Whether the word at the goal may give the record, with the registers that a walk there without a record leaves.
#[inline(never)]
fn may_tell_there(
    schema: &Schema,
    paths: &Paths,
    instrs: &[Instr],
    from: Spot,
    goal: Spot,
    met: Met,
    registers: &[u32; 32],
    rec: &Record,
) -> bool
    requires valid { IsSchema schema.now }
    requires ways { AreWays (quiet_arcs schema.now) (length schema.now.words) paths.now }
    requires decoded { AreDecoded schema.now.words instrs.now }
    requires from { IsSpot schema.now from }
    requires goal { IsSpot schema.now goal }
    requires leads { (walk : List Arc) × IsWalk (HasArc paths.now) from.place goal.place walk }
    requires met { IsMet schema.now goal.address met }
    requires address { goal.address ≡ address_in rec.now }
    ensures { (walk : List Arc) → IsWalk (HasArc paths.now) from.place goal.place walk → (there : List ℕ) (items : List Item)
        → GoesAlong schema.now walk from.address goal.address registers.now there items → result ≡ may_tell schema.now goal.address there rec.now }
{
    let there = scouted(schema, paths, instrs, from, goal, registers);
    may_tell(schema, goal.address, met, &there, rec)
}

/// The spot of a record's word, where moves without a record lead there from a spot and the word may then give the record.
#[inline(always)]
fn goal_of(
    schema: &Schema,
    paths: &Paths,
    instrs: &[Instr],
    from: Spot,
    registers: &[u32; 32],
    rec: &Record,
) -> Option<Spot>
    requires valid { IsSchema schema.now }
    requires ways { AreWays (quiet_arcs schema.now) (length schema.now.words) paths.now }
    requires decoded { AreDecoded schema.now.words instrs.now }
    requires from { IsSpot schema.now from }
    ensures some { IfSome result (λ goal. IsGoal schema.now paths.now from registers.now rec.now goal) }
    ensures none { IfNone result ((moved : Moved) → Tells schema.now (Before from.address) registers.now rec.now moved → ⊥) }
{
    let address = rec.address();
    let place = schema.place_of(address)?;
    if !leads(paths, from.place, place) {
        return None;
    }
    let goal = Spot { address, place };
    let met = met_at(schema, goal);
    let may = if asks_registers(met, rec) {
        may_tell_there(schema, paths, instrs, from, goal, met, registers, rec)
    } else {
        may_tell(schema, address, met, registers, rec)
    };
    if may { Some(goal) } else { None }
}

impl Walk {
    /// A walk before the schema's entry, with the registers that a run has at its start. The only error is want of memory.
    pub fn start(alloc: Global, schema: &Schema) -> Result<Walk, AllocError>
        ensures position { IfOk result (λ walk. walk.position ≡ Before schema.now.entry) }
        ensures registers { IfOk result (λ walk. walk.registers ≡ first_registers) }
        ensures over { IfOk result (IsWalkOver schema.now) }
    {
        let paths = quiet_paths(alloc, schema)?;
        let instrs = decoded(alloc, schema.words.as_slice())?;
        Ok(Walk {
            stand: placed_at(schema, schema.entry),
            registers: first_registers(),
            paths,
            instrs,
        })
    }

    /// Goes from a spot to the goal, and makes the moves that give the record.
    #[inline(always)]
    fn go_and_tell<K: Taker>(
        &mut self,
        schema: &Schema,
        from: Spot,
        goal: Spot,
        rec: &Record,
        items: &mut K,
    ) -> Result<(), Failed>
        requires over { IsWalkOver schema.now self.old }
        requires from { IsSpot schema.now from }
        requires goal { IsGoal schema.now self.old.ways from self.old.registers rec.now goal }
        ensures all { OnOk result ((moved : Moved) × Tells schema.now (Before from.address) self.old.registers rec.now moved × IsMoved (K.took items.old items.new) self.new moved) }
        ensures front { OnErr result (IsBrokenOff schema.now (Before from.address) self.old rec.now (K.took items.old items.new)) }
        ensures over { OnOk result (IsWalkOver schema.now self.new) }
        ensures cause { HasCause (K.faults items.old) (K.faults items.new) result }
        ensures rest { K.same_rest items.old items.new }
    {
        go(
            schema,
            &self.paths,
            &self.instrs,
            from,
            goal,
            &mut self.registers,
            items,
        )?;
        self.stand = tell(schema, &self.instrs, goal, rec, &mut self.registers, items)?;
        Ok(())
    }

    /// Makes the moves from a spot up to the one that has the record.
    #[inline(always)]
    fn advance_from<K: Taker>(
        &mut self,
        schema: &Schema,
        from: Spot,
        rec: &Record,
        items: &mut K,
    ) -> Result<Turn, WalkFault>
        requires over { IsWalkOver schema.now self.old }
        requires from { IsSpot schema.now from }
        ensures moves { AdvancesFrom schema.now (Before from.address) self.old rec.now (K.took items.old items.new) self.new result }
        ensures turn { IfOk result (λ turn. turn ≡ turn_by (kind_in rec.now)) }
        ensures untouched { result ≡ Err Astray → items.new ≡ items.old }
        ensures over { OnOk result (IsWalkOver schema.now self.new) }
        ensures later { K.faults items.old ≤ K.faults items.new }
        ensures cause { WalkRises (K.faults items.old) (K.faults items.new) result }
        ensures rest { K.same_rest items.old items.new }
    {
        let Some(goal) = goal_of(
            schema,
            &self.paths,
            &self.instrs,
            from,
            &self.registers,
            rec,
        ) else {
            return Err(WalkFault::Astray);
        };
        match self.go_and_tell(schema, from, goal, rec, items) {
            Ok(()) => Ok(turn_by(rec)),
            Err(Failed) => Err(WalkFault::Failed),
        }
    }

    /// Makes the moves from after the word at a spot.
    #[inline(never)]
    fn advance_over<K: Taker>(
        &mut self,
        schema: &Schema,
        spot: Spot,
        taken: bool,
        rec: &Record,
        items: &mut K,
    ) -> Result<Turn, WalkFault>
        requires over { IsWalkOver schema.now self.old }
        requires spot { IsSpot schema.now spot }
        ensures moves { AdvancesFrom schema.now (After spot.address taken) self.old rec.now (K.took items.old items.new) self.new result }
        ensures turn { IfOk result (λ turn. turn ≡ turn_by (kind_in rec.now)) }
        ensures untouched { result ≡ Err Astray → items.new ≡ items.old }
        ensures over { OnOk result (IsWalkOver schema.now self.new) }
        ensures later { K.faults items.old ≤ K.faults items.new }
        ensures cause { WalkRises (K.faults items.old) (K.faults items.new) result }
        ensures rest { K.same_rest items.old items.new }
    {
        match edge_behind(schema, spot, taken, rec) {
            Crossing::Quiet(next) => self.advance_from(schema, next, rec, items),
            Crossing::Told(stand) => {
                self.stand = stand;
                Ok(turn_by(rec))
            }
            Crossing::Astray => Err(WalkFault::Astray),
        }
    }

    /// Ends outside the code.
    #[inline(never)]
    fn end_outside(&mut self, target: u32, rec: &Record) -> Result<Turn, WalkFault>
        ensures stops { OnOk result ((registers : List ℕ) → move_outside target registers (Tell rec.now) ≡ Some (record { items = []; position = Stopped; registers = registers })) }
        ensures none { OnErr result ((registers : List ℕ) → move_outside target registers (Tell rec.now) ≡ None) }
        ensures turn { IfOk result (λ turn. turn ≡ turn_by (kind_in rec.now)) }
        ensures astray { IfErr result (λ fault. fault ≡ Astray) }
        ensures stopped { OnOk result (self.new ≡ record self.old { position = Stopped }) }
        ensures same { OnErr result (self.new ≡ self.old) }
    {
        if !ends_outside(target, rec) {
            return Err(WalkFault::Astray);
        }
        self.stand.position = Position::Stopped;
        Ok(turn_by(rec))
    }

    /// Makes the moves up to and with the one that has the record, and gives their items in order. It takes no memory.
    ///
    /// `Astray` is answered exactly where no moves from where the walk stands end with this record as their only one; then the walk is
    /// as before, and no item was given. `Failed` is answered only where the taker failed; it has then a front of the items, and the
    /// walk can't go on.
    #[inline(always)]
    pub fn advance<K: Taker>(
        &mut self,
        schema: &Schema,
        rec: &Record,
        items: &mut K,
    ) -> Result<Turn, WalkFault>
        requires over { IsWalkOver schema.now self.old }
        ensures moves { WalkAdvances schema.now self.old rec.now (K.took items.old items.new) self.new result }
        ensures turn { IfOk result (λ turn. turn ≡ turn_by (kind_in rec.now)) }
        ensures untouched { result ≡ Err Astray → items.new ≡ items.old }
        ensures over { OnOk result (IsWalkOver schema.now self.new) }
        ensures later { K.faults items.old ≤ K.faults items.new }
        ensures cause { WalkRises (K.faults items.old) (K.faults items.new) result }
        ensures rest { K.same_rest items.old items.new }
    {
        let place = self.stand.place;
        match self.stand.position {
            Position::Before(address) => {
                self.advance_from(schema, Spot { address, place }, rec, items)
            }
            Position::After { address, taken } => {
                self.advance_over(schema, Spot { address, place }, taken, rec, items)
            }
            Position::Outside(target) => self.end_outside(target, rec),
            Position::Stopped => Err(WalkFault::Astray),
        }
    }
}
