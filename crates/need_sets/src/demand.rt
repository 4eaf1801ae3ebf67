//! What is needed for bases, over the words of ranges.
ghost use Rattle.std.specs.Prelude.{◌≡◌, ◌<◌, ◌^◌, true, false, IfOk};
ghost use Rattle.std.specs.List.{AllByRecursion};
ghost use Rattle.rv_code.specs.Code.{extents_of};
ghost use Rattle.rv_code.specs.Image.{word_count};
ghost use Rattle.rv_code.specs.Places.{AreCodeExtents, EndsInSpace};
ghost use Rattle.need_sets.specs.Inner.Sources.{AreSources};
ghost use Rattle.need_sets.specs.Masks.{AreNeeded, base_alone};
ghost use Rattle.need_sets.specs.Words.{base_at};

use crate::search::Search;
use crate::sources::Sources;
use rv_code::{Range, count_in};
use std::alloc::{AllocError, Global};

/// What is needed, by places: the registers that each word needs, and whether some direct successor needs what it writes.
#[derive(Drop)]
pub struct Needed {
    pub masks: Vec<u32>,
    pub used: Vec<bool>,
}

/// What is needed for the bases of all loads and stores.
pub fn needed_in(
    alloc: Global,
    ranges: &[Range],
    falls: &Sources,
    takes: &Sources,
) -> Result<Needed, AllocError>
    requires order { AreCodeExtents (extents_of ranges.now) }
    requires ends { AllByRecursion EndsInSpace (extents_of ranges.now) }
    requires words { word_count ranges.now < 2 ^ 32 }
    requires falls { AreSources ranges.now false (word_count ranges.now) falls.now.last.items falls.now.before.items }
    requires takes { AreSources ranges.now true (word_count ranges.now) takes.now.last.items takes.now.before.items }
    ensures { IfOk result (λ needed. AreNeeded ranges.now (base_at ranges.now) needed.masks.items needed.used.items) }
{
    let mut search = Search::new(alloc, count_in(ranges))?;
    search.need_bases(ranges)?;
    search.settle(ranges, falls, takes)?;
    let Search {
        masks,
        used,
        waiting: _,
    } = search;
    Ok(Needed { masks, used })
}

/// What is needed for the base of the load or store at the address.
pub fn needed_alone_in(
    alloc: Global,
    ranges: &[Range],
    falls: &Sources,
    takes: &Sources,
    access: u32,
) -> Result<Needed, AllocError>
    requires order { AreCodeExtents (extents_of ranges.now) }
    requires ends { AllByRecursion EndsInSpace (extents_of ranges.now) }
    requires words { word_count ranges.now < 2 ^ 32 }
    requires falls { AreSources ranges.now false (word_count ranges.now) falls.now.last.items falls.now.before.items }
    requires takes { AreSources ranges.now true (word_count ranges.now) takes.now.last.items takes.now.before.items }
    ensures { IfOk result (λ needed. AreNeeded ranges.now (base_alone ranges.now access) needed.masks.items needed.used.items) }
{
    let mut search = Search::new(alloc, count_in(ranges))?;
    search.need_base_at(ranges, access)?;
    search.settle(ranges, falls, takes)?;
    let Search {
        masks,
        used,
        waiting: _,
    } = search;
    Ok(Needed { masks, used })
}
