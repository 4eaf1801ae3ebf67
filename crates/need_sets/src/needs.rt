//! Which registers each code word needs, and which values are recorded for them.
ghost use Rattle.std.specs.Prelude.{◌≡◌, ◌↔◌, ℕ, IfOk, IfSome, IsTrue, is_some};
ghost use Rattle.std.specs.Int.{bit_at};
ghost use Rattle.rv_code.specs.Code.{extents_of, is_code};
ghost use Rattle.need_sets.specs.Needed.{IsNeeded, IsUsed, IsKept, IsHard};
ghost use Rattle.need_sets.specs.Words.{class_at};

use crate::demand::Needed;
use crate::predecessors::Predecessors;
use flow_graph::Graph;
use rv_code::{Class, ListOf, Range, class_of, decode, place_in, word_in};
use std::alloc::{AllocError, Global};
use std::marker::Model;

/// What the code words of a graph need: the registers at each word on which addresses of later loads and stores depend.
///
/// Contracts see the code words, and say all else of these.
#[derive(Drop)]
pub struct Needs {
    code: ListOf<Range>,
    masks: ListOf<u32>,
    used: ListOf<bool>,
}

impl Model for Needs {
    ghost use Rattle.std.specs.Prelude.{List};
    ghost use Rattle.rv_code.specs.declared.image.Range.{Range};

    ghost Value = { List Range };

    ghost use Rattle.need_sets.specs.NeedsView.{IsNeeds};

    ghost view = { λ needs. needs.code };

    ghost invariant = { IsNeeds };
}

/// The class of the code word at the address. `None` where none stands there.
fn class_in(ranges: &[Range], address: u32) -> Option<Class>
    ensures { result ≡ class_at ranges.now address }
{
    Some(class_of(&decode(word_in(ranges, address)?)))
}

impl Needs {
    /// The needs of a graph. The only error is want of memory. Each word is gone back from at most once for each register that it
    /// needs, so time and memory grow with the number of words.
    pub fn build(alloc: Global, graph: &Graph) -> Result<Needs, AllocError>
        ensures { IfOk result (λ needs. needs ≡ graph.now.code) }
    {
        let predecessors = Predecessors::build(alloc, graph)?;
        let Needed { masks, used } = predecessors.needed(alloc)?;
        Ok(Needs {
            code: predecessors.into_code(),
            masks: ListOf::from_vec(masks),
            used: ListOf::from_vec(used),
        })
    }

    /// The registers that the code word at the address needs: bit k of the mask is set where it needs x(k). `None` exactly where the
    /// address is that of no code word.
    pub fn mask(&self, address: u32) -> Option<u32>
        ensures code { is_some result ≡ is_code (extents_of self.now) address }
        ensures mask { IfSome result (λ mask. (register : ℕ) → (bit_at mask register ≡ 1) ↔ IsNeeded self.now address register) }
    {
        let place = place_in(self.code.as_slice(), address)?;
        Some(self.masks.as_slice()[place as usize])
    }

    /// Whether some direct successor of the code word at the address needs what it writes.
    fn is_used(&self, address: u32) -> bool
        ensures { IsTrue result ↔ IsUsed self.now address }
    {
        match place_in(self.code.as_slice(), address) {
            Some(place) => self.used.as_slice()[place as usize],
            None => false,
        }
    }

    /// Whether the value that the word at the address gives has to be recorded: that of a load where some direct successor needs the
    /// register that it writes, and those of each call and each indirect jump. Not where no code word stands.
    pub fn hard(&self, address: u32) -> bool
        ensures { IsTrue result ↔ IsHard self.now address }
    {
        match class_in(self.code.as_slice(), address) {
            Some(Class::Load) => self.is_used(address),
            Some(Class::Call | Class::Indirect) => true,
            _ => false,
        }
    }

    /// Whether the value that the word at the address gives has to be worked out again: where it is Plain, and some direct successor needs
    /// the register that it writes. Not where no code word stands.
    pub fn kept(&self, address: u32) -> bool
        ensures { IsTrue result ↔ IsKept self.now address }
    {
        match class_in(self.code.as_slice(), address) {
            Some(Class::Plain) => self.is_used(address),
            _ => false,
        }
    }
}
