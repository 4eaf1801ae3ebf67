//! The edge after a word.
ghost use Rattle.std.specs.Prelude.{◌≡◌, ℕ, List, true, is_some};
ghost use Rattle.regen_walk.specs.Inner.Crossing.{Crosses};
ghost use Rattle.regen_walk.specs.Inner.Met.{IsSpot};
ghost use Rattle.regen_walk.specs.Labels.{Tell};
ghost use Rattle.regen_walk.specs.Moves.{move_outside, names_edge};

use crate::met::{Spot, met_at};
use crate::telling::{Stand, placed_at};
use ev_format::Record;
use schema_form::Schema;

/// What the edge after a word asks for.
#[derive(Clone, Copy, Debug)]
pub enum Crossing {
    /// It needs no record: the walk goes on from this word.
    Quiet(Spot),
    /// The record is the edge's.
    Told(Stand),
    /// The record is another.
    Astray,
}

/// Whether the record is that of the edge of a way from an address, where the edge is recorded.
fn names_edge(address: u32, taken: bool, rec: &Record) -> bool
    ensures { result ≡ names_edge address taken true (Tell rec.now) }
{
    match *rec {
        Record::Fall(at) => at == address && !taken,
        Record::Taken(at) => at == address && taken,
        Record::Value { .. } | Record::Landing { .. } | Record::End { .. } => false,
    }
}

/// The edge of a way after the word at a spot.
pub fn edge_behind(schema: &Schema, spot: Spot, taken: bool, rec: &Record) -> Crossing
    requires { IsSpot schema.now spot }
    ensures { Crosses schema.now spot.address taken rec.now result }
{
    let met = met_at(schema, spot);
    let Some(next) = met.way_of(taken, spot.address) else {
        return Crossing::Astray;
    };
    if met.is_marked(taken) {
        if names_edge(spot.address, taken, rec) {
            return Crossing::Told(placed_at(schema, next));
        }
        return Crossing::Astray;
    }
    match schema.place_of(next) {
        Some(place) => Crossing::Quiet(Spot {
            address: next,
            place,
        }),
        None => Crossing::Astray,
    }
}

/// Whether the record is that of a run that ended at an address where no code word stands.
pub fn ends_outside(target: u32, rec: &Record) -> bool
    ensures { (registers : List ℕ) → result ≡ is_some (move_outside target registers (Tell rec.now)) }
{
    match *rec {
        Record::End { at, kind, detail } => {
            let expected = if target % 4 == 0 { 6 } else { 7 };
            at == 0 && kind == expected && detail == target
        }
        Record::Fall(_) | Record::Taken(_) | Record::Value { .. } | Record::Landing { .. } => false,
    }
}
