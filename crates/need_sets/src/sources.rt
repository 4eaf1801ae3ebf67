//! The words whose ways lead to each code word.
ghost use Rattle.std.specs.Prelude.{◌≡◌, ◌<◌, ◌^◌, IfOk};
ghost use Rattle.std.specs.List.{AllByRecursion};
ghost use Rattle.rv_code.specs.Code.{extents_of};
ghost use Rattle.rv_code.specs.Image.{word_count};
ghost use Rattle.rv_code.specs.Places.{AreCodeExtents, EndsInSpace};
ghost use Rattle.need_sets.specs.Inner.Sources.{AreSources};

use crate::successors::led_from;
use rv_code::{Range, count_in};
use std::alloc::{AllocError, Global};

/// For each place the last word that one way leads there; and for each word the one before it that this way leads to the same
/// place. Words are named by their places.
#[derive(Drop)]
pub struct Sources {
    pub last: Vec<Option<u32>>,
    pub before: Vec<Option<u32>>,
}

/// The words that one way leads to those of these ranges.
pub fn sources_in(alloc: Global, ranges: &[Range], taken: bool) -> Result<Sources, AllocError>
    requires order { AreCodeExtents (extents_of ranges.now) }
    requires ends { AllByRecursion EndsInSpace (extents_of ranges.now) }
    requires words { word_count ranges.now < 2 ^ 32 }
    ensures { IfOk result (λ sources. AreSources ranges.now taken (word_count ranges.now) sources.last.items sources.before.items) }
{
    let mut last = vec![in alloc; None; count_in(ranges) as usize]?;
    let mut before = Vec::with_capacity(alloc, count_in(ranges) as usize)?;
    for place in 0..count_in(ranges) {
        match led_from(ranges, taken, place) {
            Some(goal) => {
                before.push(last[goal as usize])?;
                last[goal as usize] = Some(place);
            }
            None => before.push(None)?,
        }
    }
    Ok(Sources { last, before })
}
