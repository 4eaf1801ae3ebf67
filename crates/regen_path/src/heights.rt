//! How far a node rises, and from how high it is sunk to.
ghost use Rattle.std.specs.Prelude.{◌≡◌, ◌≤◌, ◌↔◌, ◌<◌, ◌^◌, ℕ, IfOk, IsTrue, List, Some, length};
ghost use Rattle.regen_path.specs.Inner.Growing.{IsByDepth, parent_of};
ghost use Rattle.regen_path.specs.Inner.Heights.{AreHeights, heights_by};
ghost use Rattle.regen_path.specs.declared.arcs.Ways.{Ways};

use crate::growing::{Link, Visit};
use std::alloc::{AllocError, Global};

/// Numbers in a row: those of the nodes at and under one.
#[derive(Clone, Copy)]
pub struct Span {
    pub first: u32,
    pub last: u32,
}

impl Span {
    /// Whether the number is one of these.
    #[inline(always)]
    pub fn holds(&self, number: u32) -> bool
        ensures { IsTrue result ↔ ((self.now.first ≤ number) × (number ≤ self.now.last)) }
    {
        self.first <= number && number <= self.last
    }
}

/// What is at and under the topmost node to which arcs towards the root lead from a node; and what is at and under the topmost node
/// from which arcs away from the root lead to it.
#[derive(Clone, Copy)]
pub struct Heights {
    pub rise: Span,
    pub sink: Span,
}

/// The heights of a node that hangs so, where it has its own numbers, by those of its parent.
fn heights_by(own: Span, heights: &[Heights], link: Link) -> Heights
    requires { (parent : ℕ) → parent_of link ≡ Some parent → parent < length heights.now }
    ensures { result ≡ heights_by own heights.now link }
{
    match link {
        Link::Root => Heights {
            rise: own,
            sink: own,
        },
        Link::Up(parent) => Heights {
            rise: heights[parent as usize].rise,
            sink: own,
        },
        Link::Down(parent) => Heights {
            rise: own,
            sink: heights[parent as usize].sink,
        },
    }
}

/// The heights of each node, by its number.
pub fn heights_of(
    alloc: Global,
    visits: &[Visit],
    lasts: &[u32],
) -> Result<Vec<Heights>, AllocError>
    requires fit { length visits.now < 2 ^ 32 }
    requires order { (table : List Ways) × IsByDepth table visits.now }
    requires lasts { length lasts.now ≡ length visits.now }
    ensures { IfOk result (λ heights. AreHeights visits.now lasts.now heights.items) }
{
    let mut heights = Vec::with_capacity(alloc, visits.len())?;
    for number in 0..visits.len() {
        let own = Span {
            first: number as u32,
            last: lasts[number],
        };
        let found = heights_by(own, &heights, visits[number].link);
        heights.push(found)?;
    }
    Ok(heights)
}
