//! The words that lead to each code word.
ghost use Rattle.std.specs.Prelude.{◌≡◌, ◌<◌, ◌^◌, IfOk};
ghost use Rattle.std.specs.List.{AllByRecursion};
ghost use Rattle.rv_code.specs.Code.{extents_of};
ghost use Rattle.rv_code.specs.Image.{word_count};
ghost use Rattle.rv_code.specs.Places.{AreCodeExtents, EndsInSpace};
ghost use Rattle.need_sets.specs.Masks.{AreNeeded, base_alone};
ghost use Rattle.need_sets.specs.Words.{base_at};

use crate::demand::{Needed, needed_alone_in, needed_in};
use crate::sources::{Sources, sources_in};
use flow_graph::{Graph, copies_of};
use rv_code::{ListOf, Range};
use std::alloc::{AllocError, Global};
use std::marker::Model;

/// Code words with the direct predecessors of each: the words of which it is a direct successor. Contracts see the code words.
#[derive(Drop)]
pub struct Predecessors {
    code: ListOf<Range>,
    falls: Sources,
    takes: Sources,
}

impl Model for Predecessors {
    ghost use Rattle.std.specs.Prelude.{List};
    ghost use Rattle.rv_code.specs.declared.image.Range.{Range};

    ghost Value = { List Range };

    ghost use Rattle.need_sets.specs.Inner.PredecessorsView.{IsPredecessors};

    ghost view = { λ predecessors. predecessors.code };

    ghost invariant = { IsPredecessors };
}

impl Predecessors {
    /// The predecessors of the words of a graph. The only error is want of memory. Memory and time grow with the number of words.
    pub fn build(alloc: Global, graph: &Graph) -> Result<Predecessors, AllocError>
        ensures { IfOk result (λ predecessors. predecessors ≡ graph.now.code) }
    {
        let ranges = graph.ranges();
        Ok(Predecessors {
            falls: sources_in(alloc, ranges, false)?,
            takes: sources_in(alloc, ranges, true)?,
            code: ListOf::from_vec(copies_of(alloc, ranges)?),
        })
    }

    /// The code words: in order, and within the address space.
    pub fn ranges(&self) -> &[Range]
        ensures ranges { result.now ≡ self.now }
        ensures order { AreCodeExtents (extents_of self.now) }
        ensures ends { AllByRecursion EndsInSpace (extents_of self.now) }
        ensures words { word_count self.now < 2 ^ 32 }
    {
        self.code.as_slice()
    }

    /// The code words alone.
    pub(crate) fn into_code(self) -> ListOf<Range>
        ensures code { result ≡ self }
        ensures order { AreCodeExtents (extents_of self) }
        ensures ends { AllByRecursion EndsInSpace (extents_of self) }
        ensures words { word_count self < 2 ^ 32 }
    {
        let Predecessors {
            code,
            falls: _,
            takes: _,
        } = self;
        code
    }

    /// What is needed for the bases of all loads and stores. The only error is want of memory.
    pub(crate) fn needed(&self, alloc: Global) -> Result<Needed, AllocError>
        ensures { IfOk result (λ needed. AreNeeded self.now (base_at self.now) needed.masks.items needed.used.items) }
    {
        needed_in(alloc, self.code.as_slice(), &self.falls, &self.takes)
    }

    /// What is needed for the base of the load or store at the address, and of no other. The only error is want of memory. Time grows with the
    /// words and registers that are met, and with a mask and a mark for each word.
    pub fn needed_alone(&self, alloc: Global, access: u32) -> Result<Needed, AllocError>
        ensures { IfOk result (λ needed. AreNeeded self.now (base_alone self.now access) needed.masks.items needed.used.items) }
    {
        needed_alone_in(
            alloc,
            self.code.as_slice(),
            &self.falls,
            &self.takes,
            access,
        )
    }
}
