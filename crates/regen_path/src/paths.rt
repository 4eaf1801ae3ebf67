//! Paths in a forest, and which way to go first.
ghost use Rattle.std.specs.Prelude.{◌≡◌, ◌≢◌, ◌<◌, ◌^◌, ◌↔◌, ◌∷◌, ℕ, IfNone, IfOk, IfSome, IsTrue, List, Option, Some, None, length, slice_get};
ghost use Rattle.graph_paths.specs.Paths.{Path};
ghost use Rattle.graph_paths.specs.Forests.{HasNoCycle, IsAmong};
ghost use Rattle.regen_path.specs.declared.arcs.Arc.{Arc};
ghost use Rattle.regen_path.specs.declared.paths.Hop.TheVariants.{Here, NoWay};
ghost use Rattle.regen_path.specs.Arcs.{HasArc, AreWays};
ghost use Rattle.regen_path.specs.Walks.{ArcJoins, ArcLeads, IsWalk, IsOnlyWalk};
ghost use Rattle.regen_path.specs.Hops.{first_hop};
ghost use Rattle.regen_path.specs.PathsView.{AreSpots, RisesAndSinks, ways_in};
ghost use Rattle.regen_path.specs.Inner.Finds.{Finds};
ghost use Rattle.regen_path.specs.Inner.Sources.{LeadWithin};
ghost use Rattle.regen_path.specs.Inner.Spots.{AreSpotsBy};

use crate::arcs::{Arc, Ways, ways_of};
use crate::growing::{Ground, grown};
use crate::heights::{Heights, Span, heights_of};
use crate::lasts::lasts_of;
use rv_code::ListOf;
use std::alloc::{AllocError, Global};
use std::marker::Model;

/// Which way to go first.
#[derive(Clone, Copy, Debug)]
pub enum Hop {
    /// By the arc of kind 0.
    Fall,
    /// By the arc of kind 1.
    Taken,
    /// No way: it is the goal.
    Here,
    /// No directed walk leads to the goal.
    NoWay,
}

/// A node: where its arcs lead, its number, and how far it rises and is sunk to.
#[derive(Clone, Copy)]
pub struct Spot {
    pub ways: Ways,
    pub number: u32,
    pub rise: Span,
    pub sink: Span,
}

impl Spot {
    /// Whether a directed walk leads from this node to the other: it rises to one that is at or above the other, and what is at or
    /// above it sinks to the other.
    #[inline(always)]
    fn reaches(&self, goal: &Spot) -> bool
        ensures { IsTrue result ↔ RisesAndSinks self.now goal.now }
    {
        self.rise.holds(goal.number) && goal.sink.holds(self.number)
    }
}

/// What is kept of each node.
fn spots_of(
    alloc: Global,
    ways: &[Ways],
    numbers: &[Option<u32>],
    heights: &[Heights],
) -> Result<Vec<Spot>, AllocError>
    requires numbers { length numbers.now ≡ length ways.now }
    requires each { (node : ℕ) → node < length ways.now → (number : ℕ) × (slice_get numbers.now node ≡ Some (Some number)) × (number < length heights.now) }
    ensures { IfOk result (λ spots. AreSpotsBy ways.now numbers.now heights.now spots.items) }
{
    let mut spots = Vec::with_capacity(alloc, ways.len())?;
    for node in 0..ways.len() {
        let number = numbers[node].unwrap();
        let Heights { rise, sink } = heights[number as usize];
        spots.push(Spot {
            ways: ways[node],
            number,
            rise,
            sink,
        })?;
    }
    Ok(spots)
}

/// What is kept of each node of a forest.
fn spots_in(alloc: Global, ways: Vec<Ways>) -> Result<Vec<Spot>, AllocError>
    requires fit { length ways.items < 2 ^ 32 }
    requires within { LeadWithin ways.items }
    requires forest { HasNoCycle ArcJoins (HasArc ways.items) }
    ensures spots { IfOk result (λ spots. AreSpots spots.items) }
    ensures ways { IfOk result (λ spots. ways_in spots.items ≡ ways.items) }
{
    let ground = Ground::of(alloc, ways)?;
    let growth = grown(alloc, &ground)?;
    let lasts = lasts_of(alloc, &growth.visits)?;
    let heights = heights_of(alloc, &growth.visits, &lasts)?;
    let spots = spots_of(alloc, &ground.ways, &growth.numbers, &heights)?;
    Ok(spots)
}

/// Whether there is this arc, and a directed walk leads on from its end to the goal.
#[inline(always)]
fn leads_on(spots: &[Spot], way: Option<u32>, goal: u32) -> bool
    requires spots { AreSpots spots.now }
    requires way { (to : ℕ) → way ≡ Some to → to < length spots.now }
    requires goal { goal < length spots.now }
    ensures { IsTrue result ↔ ((to : ℕ) × (way ≡ Some to) × Path ArcLeads (HasArc (ways_in spots.now)) to goal) }
{
    let Some(to) = way else {
        return false;
    };
    spots[to as usize].reaches(&spots[goal as usize])
}

/// Which way to go first from here to the goal.
#[inline(always)]
fn hop_in(spots: &[Spot], here: u32, goal: u32) -> Hop
    requires spots { AreSpots spots.now }
    requires here { here < length spots.now }
    requires goal { goal < length spots.now }
    ensures { Finds (ways_in spots.now) here goal result }
{
    let ways = spots[here as usize].ways;
    if here == goal {
        Hop::Here
    } else if leads_on(spots, ways.fall, goal) {
        Hop::Fall
    } else if leads_on(spots, ways.taken, goal) {
        Hop::Taken
    } else {
        Hop::NoWay
    }
}

/// The arc by which to go first from here to the goal, if there is one.
#[inline(always)]
fn arc_in(spots: &[Spot], here: u32, goal: u32) -> Option<Arc>
    requires spots { AreSpots spots.now }
    requires here { here < length spots.now }
    requires goal { goal < length spots.now }
    ensures none { IfNone result ((walk : List Arc) → IsWalk (HasArc (ways_in spots.now)) here goal walk → here ≡ goal) }
    ensures some { IfSome result (λ arc. (rest : List Arc) × IsOnlyWalk (HasArc (ways_in spots.now)) here goal (arc ∷ rest)) }
{
    let ways = spots[here as usize].ways;
    match hop_in(spots, here, goal) {
        Hop::Fall => Some(Arc {
            from: here,
            to: ways.fall.unwrap(),
            kind: 0,
        }),
        Hop::Taken => Some(Arc {
            from: here,
            to: ways.taken.unwrap(),
            kind: 1,
        }),
        Hop::NoWay | Hop::Here => None,
    }
}

/// The paths in a forest of arcs. Contracts see where the arcs out of each node lead.
#[derive(Drop)]
pub struct Paths {
    spots: ListOf<Spot>,
}

impl Model for Paths {
    ghost use Rattle.std.specs.Prelude.{List};
    ghost use Rattle.regen_path.specs.declared.arcs.Ways.{Ways};

    ghost Value = { List Ways };

    ghost use Rattle.regen_path.specs.PathsView.{ways_view, ArePaths};

    ghost view = { ways_view };

    ghost invariant = { ArePaths };
}

impl Paths {
    /// The paths of a forest of so many nodes: each arc joins two of these and is of kind 0 or 1, no two arcs of one kind lead from the
    /// same node, and there is no undirected cycle. The only error is want of memory. Time and memory grow with the number of nodes.
    pub fn build(alloc: Global, count: u32, arcs: &[Arc]) -> Result<Paths, AllocError>
        requires ends { (arc : Arc) → IsAmong arcs.now arc → (arc.from < count) × (arc.to < count) }
        requires kinds { (arc : Arc) → IsAmong arcs.now arc → arc.kind < 2 }
        requires alone { (one other : Arc) → IsAmong arcs.now one → IsAmong arcs.now other → one.from ≡ other.from → one.kind ≡ other.kind → one ≡ other }
        requires forest { HasNoCycle ArcJoins (IsAmong arcs.now) }
        ensures { IfOk result (AreWays arcs.now count) }
    {
        let ways = ways_of(alloc, count, arcs)?;
        let spots = spots_in(alloc, ways)?;
        Ok(Paths {
            spots: ListOf::from_vec(spots),
        })
    }

    /// The way of the first arc of the only directed walk from here to the goal: `Here` where they are the same node, and `NoWay` exactly
    /// where no directed walk leads there. It is a few comparisons, whatever the forest, and takes no memory.
    #[inline(always)]
    pub fn next(&self, here: u32, goal: u32) -> Hop
        requires here { here < length self.now }
        requires goal { goal < length self.now }
        ensures here { result ≡ Here ↔ here ≡ goal }
        ensures no_way { result ≡ NoWay ↔ ((walk : List Arc) → IsWalk (HasArc self.now) here goal walk → ⊥) }
        ensures walk { result ≢ NoWay → (walk : List Arc) × IsWalk (HasArc self.now) here goal walk }
        ensures first { (walk : List Arc) → IsWalk (HasArc self.now) here goal walk → IsOnlyWalk (HasArc self.now) here goal walk × (result ≡ first_hop walk) }
    {
        hop_in(self.spots.as_slice(), here, goal)
    }

    /// The first arc of the only directed walk from here to the goal: `None` where they are the same node, or none leads there.
    #[inline(always)]
    pub fn first(&self, here: u32, goal: u32) -> Option<Arc>
        requires here { here < length self.now }
        requires goal { goal < length self.now }
        ensures none { IfNone result ((walk : List Arc) → IsWalk (HasArc self.now) here goal walk → here ≡ goal) }
        ensures some { IfSome result (λ arc. (rest : List Arc) × IsOnlyWalk (HasArc self.now) here goal (arc ∷ rest)) }
    {
        arc_in(self.spots.as_slice(), here, goal)
    }
}
