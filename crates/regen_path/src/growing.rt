//! Growing trees by depth over the arcs of a forest, whichever way they point.
ghost use Rattle.std.specs.Prelude.{◌≡◌, ◌<◌, ◌≤◌, ◌+◌, ◌^◌, ◌++◌, ◌∷◌, [], ℕ, List, IfOk, OnOk, Option, Some, None, length, slice_get, is_none, count_by};
ghost use Rattle.graph_paths.specs.Forests.{HasNoCycle};
ghost use Rattle.regen_path.specs.declared.arcs.Ways.{Ways};
ghost use Rattle.regen_path.specs.Arcs.{HasArc, way_from};
ghost use Rattle.regen_path.specs.Walks.{ArcJoins};
ghost use Rattle.regen_path.specs.Inner.Sources.{IsFoundBy, LeadWithin};
ghost use Rattle.regen_path.specs.Inner.Growing.{ahead_of, AreGrowing, AreWhole, IsEntered, IsGround, IsNumbered, IsRooted, KeepsNumbers, parent_of, WaitMore, WaitsFor, work_left};

use crate::arcs::Ways;
use crate::sources::{Sources, sources_of};
use std::alloc::{AllocError, Global};

/// How a node hangs on its parent, which is named by its number.
#[derive(Clone, Copy)]
pub enum Link {
    /// It has none.
    Root,
    /// An arc leads from the node to the parent.
    Up(u32),
    /// An arc leads from the parent to the node.
    Down(u32),
}

impl Link {
    /// The number of the parent.
    pub fn parent(&self) -> Option<u32>
        ensures { result ≡ parent_of self.now }
    {
        match *self {
            Link::Root => None,
            Link::Up(parent) | Link::Down(parent) => Some(parent),
        }
    }
}

/// A node and how it hangs.
#[derive(Clone, Copy)]
pub struct Visit {
    pub node: u32,
    pub link: Link,
}

/// Arcs, to be gone over both ways.
#[derive(Drop)]
pub struct Ground {
    pub ways: Vec<Ways>,
    pub falls: Sources,
    pub takes: Sources,
}

impl Ground {
    /// These arcs.
    pub fn of(alloc: Global, ways: Vec<Ways>) -> Result<Ground, AllocError>
        requires fit { length ways.items < 2 ^ 32 }
        requires within { LeadWithin ways.items }
        ensures ground { IfOk result IsGround }
        ensures ways { IfOk result (λ ground. ground.ways.items ≡ ways.items) }
    {
        let falls = sources_of(alloc, &ways, 0)?;
        let takes = sources_of(alloc, &ways, 1)?;
        Ok(Ground { ways, falls, takes })
    }

    /// The sources of arcs of the kind.
    fn sources(&self, kind: u8) -> &Sources
        requires ground { IsGround self.now }
        requires kind { kind < 2 }
        ensures { IsFoundBy self.now.ways.items kind (length self.now.ways.items) result.now.last.items result.now.before.items }
    {
        if kind == 0 { &self.falls } else { &self.takes }
    }
}

/// The visits so far, by their numbers; the number of each node that was visited; and the visits that wait, the next one last.
#[derive(Drop)]
pub struct Growth {
    pub visits: Vec<Visit>,
    pub numbers: Vec<Option<u32>>,
    pub waiting: Vec<Visit>,
}

/// The node that an arc leads to waits, if there is the arc.
fn wait_for(waiting: &mut Vec<Visit>, way: Option<u32>, number: u32) -> Result<(), AllocError>
    ensures { OnOk result (waiting.new.items ≡ waiting.old.items ++ ahead_of way number) }
{
    if let Some(node) = way {
        let link = Link::Down(number);
        waiting.push(Visit { node, link })?;
    }
    Ok(())
}

/// The nodes that the arcs out of a node lead to wait.
fn wait_ahead(
    waiting: &mut Vec<Visit>,
    ground: &Ground,
    node: u32,
    number: u32,
) -> Result<(), AllocError>
    requires within { node < length ground.now.ways.items }
    ensures more { OnOk result (WaitMore ground.now.ways.items node number waiting.old.items waiting.new.items) }
    ensures all { OnOk result ((kind to : ℕ) → way_from ground.now.ways.items kind node ≡ Some to → WaitsFor waiting.new.items to) }
    ensures few { OnOk result (length waiting.new.items ≤ length waiting.old.items + 2) }
{
    let ways = ground.ways[node as usize];
    wait_for(waiting, ways.fall, number)?;
    wait_for(waiting, ways.taken, number)?;
    Ok(())
}

/// The nodes from which arcs of this kind lead to a node wait.
fn wait_behind(
    waiting: &mut Vec<Visit>,
    ground: &Ground,
    kind: u8,
    node: u32,
    number: u32,
) -> Result<(), AllocError>
    requires ground { IsGround ground.now }
    requires kind { kind < 2 }
    requires within { node < length ground.now.ways.items }
    ensures more { OnOk result (WaitMore ground.now.ways.items node number waiting.old.items waiting.new.items) }
    ensures all { OnOk result ((from : ℕ) → way_from ground.now.ways.items kind from ≡ Some node → WaitsFor waiting.new.items from) }
    ensures few { OnOk result (length waiting.new.items ≤ length waiting.old.items + length ground.now.ways.items) }
{
    let sources = ground.sources(kind);
    let mut next = sources.last[node as usize];
    while let Some(source) = next {
        let link = Link::Up(number);
        waiting.push(Visit { node: source, link })?;
        next = sources.before[source as usize];
    }
    Ok(())
}

impl Growth {
    /// No visits, of so many nodes.
    fn new(alloc: Global, count: usize) -> Result<Growth, AllocError>
        ensures { (table : List Ways) → length table ≡ count → IfOk result (AreWhole table) }
    {
        let visits = Vec::with_capacity(alloc, count)?;
        let numbers = vec![in alloc; None; count]?;
        Ok(Growth {
            visits,
            numbers,
            waiting: Vec::new(alloc),
        })
    }

    /// Visits a node that was not visited before. Its neighbours wait then.
    fn enter(&mut self, ground: &Ground, visit: Visit) -> Result<(), AllocError>
        requires ground { IsGround ground.now }
        requires left { length self.old.visits.items + count_by is_none self.old.numbers.items ≡ length ground.now.ways.items }
        requires long { length self.old.numbers.items ≡ length ground.now.ways.items }
        requires fresh { slice_get self.old.numbers.items visit.node ≡ Some None }
        ensures { OnOk result (IsEntered ground.now.ways.items self.old self.new visit) }
    {
        let number = self.visits.len() as u32;
        self.visits.push(visit)?;
        self.numbers[visit.node as usize] = Some(number);
        wait_ahead(&mut self.waiting, ground, visit.node, number)?;
        wait_behind(&mut self.waiting, ground, 0, visit.node, number)?;
        wait_behind(&mut self.waiting, ground, 1, visit.node, number)?;
        Ok(())
    }

    /// Visits a node that waited, unless it was visited before.
    fn visit(&mut self, ground: &Ground, visit: Visit) -> Result<(), AllocError>
        requires ground { IsGround ground.now }
        requires waited { (root : ℕ) × AreGrowing ground.now.ways.items self.old.visits.items self.old.numbers.items (self.old.waiting.items ++ visit ∷ []) root }
        ensures growing { OnOk result ((root : ℕ) × AreGrowing ground.now.ways.items self.new.visits.items self.new.numbers.items self.new.waiting.items root) }
        ensures kept { OnOk result (KeepsNumbers self.old self.new) }
        ensures less { OnOk result (work_left ground.now.ways.items self.new < work_left ground.now.ways.items self.old + 1) }
    {
        if self.numbers[visit.node as usize].is_some() {
            return Ok(());
        }
        self.enter(ground, visit)?;
        Ok(())
    }

    /// Grows the tree whose root is the node, unless it was visited before.
    fn grow_tree(&mut self, ground: &Ground, root: u32) -> Result<(), AllocError>
        requires ground { IsGround ground.now }
        requires within { root < length ground.now.ways.items }
        requires whole { AreWhole ground.now.ways.items self.old }
        ensures whole { OnOk result (AreWhole ground.now.ways.items self.new) }
        ensures root { OnOk result ((number : ℕ) × IsNumbered self.new.numbers.items root number) }
        ensures kept { OnOk result (KeepsNumbers self.old self.new) }
    {
        if self.numbers[root as usize].is_some() {
            return Ok(());
        }
        let link = Link::Root;
        self.enter(ground, Visit { node: root, link })?;
        while let Some(visit) = self.waiting.pop() {
            self.visit(ground, visit)?;
        }
        Ok(())
    }

    /// Grows a tree from each node that no other tree has.
    fn grow_all(&mut self, ground: &Ground) -> Result<(), AllocError>
        requires ground { IsGround ground.now }
        requires whole { AreWhole ground.now.ways.items self.old }
        ensures whole { OnOk result (AreWhole ground.now.ways.items self.new) }
        ensures each { OnOk result ((node : ℕ) → node < length ground.now.ways.items → (number : ℕ) × IsNumbered self.new.numbers.items node number) }
    {
        for node in 0..ground.ways.len() {
            self.grow_tree(ground, node as u32)?;
        }
        Ok(())
    }
}

/// Roots each tree of a forest and numbers its nodes by depth.
pub fn grown(alloc: Global, ground: &Ground) -> Result<Growth, AllocError>
    requires ground { IsGround ground.now }
    requires forest { HasNoCycle ArcJoins (HasArc ground.now.ways.items) }
    ensures { IfOk result (λ growth. IsRooted ground.now.ways.items growth.visits.items growth.numbers.items) }
{
    let mut growth = Growth::new(alloc, ground.ways.len())?;
    growth.grow_all(ground)?;
    Ok(growth)
}
