//! Leaders, as marks on code words.
ghost use Rattle.std.specs.Prelude.{◌≡◌, ◌<◌, ◌^◌, [], IfOk, length};
ghost use Rattle.std.specs.List.{AllByRecursion};
ghost use Rattle.rv_code.specs.Code.{extents_of};
ghost use Rattle.rv_code.specs.Image.{word_count};
ghost use Rattle.rv_code.specs.Places.{AreCodeExtents, EndsInSpace};
ghost use Rattle.flow_graph.specs.Leaders.{starts_in};
ghost use Rattle.flow_graph.specs.Marks.{marks_of};

use crate::marks::{mark, mark_all, mark_starts, mark_targets};
use rv_code::{Range, count_in};
use std::alloc::{AllocError, Global};

/// Marks the leaders, where nothing has been marked yet.
fn mark_starts_of_blocks(
    ranges: &[Range],
    marks: &mut [bool],
    entry: u32,
    named: &[u32],
    functions: &[u32],
)
    requires order { AreCodeExtents (extents_of ranges.now) }
    requires ends { AllByRecursion EndsInSpace (extents_of ranges.now) }
    requires words { word_count ranges.now < 2 ^ 32 }
    requires cells { length marks.old ≡ word_count ranges.now }
    requires none { marks.old ≡ marks_of ranges.now [] }
    ensures { marks.new ≡ marks_of ranges.now (starts_in ranges.now entry named.now functions.now) }
{
    mark(ranges, marks, entry);
    mark_starts(ranges, marks);
    mark_targets(ranges, marks);
    mark_all(ranges, marks, named);
    mark_all(ranges, marks, functions);
}

/// Which code words are leaders, in the order of their places.
pub fn mark_leaders(
    alloc: Global,
    ranges: &[Range],
    entry: u32,
    named: &[u32],
    functions: &[u32],
) -> Result<Vec<bool>, AllocError>
    requires order { AreCodeExtents (extents_of ranges.now) }
    requires ends { AllByRecursion EndsInSpace (extents_of ranges.now) }
    requires words { word_count ranges.now < 2 ^ 32 }
    ensures { IfOk result (λ marks. marks.items ≡ marks_of ranges.now (starts_in ranges.now entry named.now functions.now)) }
{
    let mut marks = vec![in alloc; false; count_in(ranges) as usize]?;
    mark_starts_of_blocks(ranges, &mut marks, entry, named, functions);
    Ok(marks)
}
