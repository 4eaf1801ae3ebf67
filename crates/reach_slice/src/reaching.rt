//! Slices, by a search backwards.
ghost use Rattle.std.specs.Prelude.{◌≡◌, ◌↔◌, ℕ, false, Err, IfOk};
ghost use Rattle.std.specs.List.{Contains};
ghost use Rattle.std.specs.List.Sorted.{IsStrictlyIncreasing};
ghost use Rattle.reach_slice.specs.Slices.{is_access, IsInSlice};

use crate::fault::SliceFault;
use crate::marked::{is_access, marked_words};
use flow_graph::Graph;
use need_sets::Predecessors;
use std::alloc::{AllocError, Global};
use std::marker::Model;

/// The code words of a graph with the direct predecessors of each. Contracts see the code words.
#[derive(Drop)]
pub struct Reaching {
    predecessors: Predecessors,
}

impl Model for Reaching {
    ghost use Rattle.std.specs.Prelude.{List};
    ghost use Rattle.rv_code.specs.declared.image.Range.{Range};

    ghost Value = { List Range };

    ghost view = { λ reaching. reaching.predecessors };
}

impl Reaching {
    /// What is asked for slices of a graph's words. The only error is want of memory. Memory and time grow with the number of words.
    pub fn build(alloc: Global, graph: &Graph) -> Result<Reaching, AllocError>
        ensures { IfOk result (λ reaching. reaching ≡ graph.now.code) }
    {
        Ok(Reaching {
            predecessors: Predecessors::build(alloc, graph)?,
        })
    }

    /// The addresses of the words that are in the slice of the load or store at the address, in order: a search backwards from there. `NotAccess`
    /// exactly where no load or store stands at the address.
    pub fn slice_of(&self, alloc: Global, access: u32) -> Result<Vec<u32>, SliceFault>
        ensures words { IfOk result (λ slice. (word : ℕ) → Contains slice.items word ↔ IsInSlice self.now access word) }
        ensures order { IfOk result (λ slice. IsStrictlyIncreasing slice.items) }
        ensures refused { (result ≡ Err SliceFault.NotAccess) ↔ (is_access self.now access ≡ false) }
    {
        let ranges = self.predecessors.ranges();
        if !is_access(ranges, access) {
            return Err(SliceFault::NotAccess);
        }
        let needed = self.predecessors.needed_alone(alloc, access)?;
        Ok(marked_words(alloc, ranges, &needed.used)?)
    }
}
