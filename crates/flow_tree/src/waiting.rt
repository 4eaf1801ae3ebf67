//! Edges that wait to be looked at, the best of them first.
ghost use Rattle.std.specs.Prelude.{◌≡◌, ◌∷◌, [], IfSome, IfNone, OnOk};
ghost use Rattle.std.specs.List.Sorted.{IsPermutation};
ghost use Rattle.flow_tree.specs.Inner.Waiting.{ComesFirst};

use std::alloc::{AllocError, Global};
use std::cmp::Reverse;
use std::collections::BinaryHeap;
use std::marker::Model;

/// An edge by its rank: the greatest has the greatest weight, and of equal weights the lowest number.
#[derive(Clone, Copy, Debug, PartialEq, Eq, PartialOrd, Ord)]
pub struct Ranked {
    pub weight: u32,
    pub number: Reverse<u32>,
}

/// Edges that wait. Contracts see them as a list in no certain order.
#[derive(Drop)]
pub struct Waiting {
    heap: BinaryHeap<Ranked>,
}

impl Model for Waiting {
    ghost use Rattle.std.specs.Prelude.{List};
    ghost use Rattle.std.specs.BinaryHeap.{IsHeap, heap_items};
    ghost use Rattle.flow_tree.specs.declared.waiting.Ranked.{Ranked};
    ghost use Rattle.flow_tree.specs.Inner.Waiting.{rank_order};

    ghost Value = { List Ranked };

    ghost view = { λ waiting. heap_items waiting.heap };

    ghost invariant = { λ waiting. IsHeap rank_order (heap_items waiting.heap) };
}

impl Waiting {
    /// No edge.
    pub fn new(alloc: Global) -> Self
        ensures { result ≡ [] }
    {
        Waiting {
            heap: BinaryHeap::new(alloc),
        }
    }

    /// Puts an edge among those that wait.
    pub fn push(&mut self, edge: Ranked) -> Result<(), AllocError>
        ensures { OnOk result (IsPermutation (edge ∷ self.old) self.new) }
    {
        self.heap.push(edge)?;
        Ok(())
    }

    /// Takes the edge that ranks first.
    pub fn pop(&mut self) -> Option<Ranked>
        ensures taken { IfSome result (λ first. IsPermutation self.old (first ∷ self.new)) }
        ensures first { IfSome result (λ first. ComesFirst first self.new) }
        ensures none { IfNone result (self.old ≡ []) }
        ensures unchanged { IfNone result (self.new ≡ self.old) }
    {
        self.heap.pop()
    }
}
