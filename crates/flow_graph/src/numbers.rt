//! The number of the block of each code word.
ghost use Rattle.std.specs.Prelude.{◌≡◌, ◌<◌, ◌^◌, ℕ, List, IfOk, length};
ghost use Rattle.std.specs.List.{AllByRecursion};
ghost use Rattle.rv_code.specs.Code.{extents_of};
ghost use Rattle.rv_code.specs.Image.{word_count};
ghost use Rattle.rv_code.specs.Places.{AreCodeExtents, EndsInSpace};
ghost use Rattle.flow_graph.specs.Blocks.{block_among};
ghost use Rattle.flow_graph.specs.Leaders.{starts_in};
ghost use Rattle.flow_graph.specs.Marks.{marks_of};
ghost use Rattle.flow_graph.specs.Numbers.{AreNumbers};

use crate::blocks::is_last;
use crate::walk::address_at;
use rv_code::{Range, count_in, place_in};
use std::alloc::{AllocError, Global};

/// The number of the block of each code word of these ranges, of which the marked ones are leaders.
pub fn numbers_in(alloc: Global, ranges: &[Range], marks: &[bool]) -> Result<Vec<u32>, AllocError>
    requires order { AreCodeExtents (extents_of ranges.now) }
    requires ends { AllByRecursion EndsInSpace (extents_of ranges.now) }
    requires words { word_count ranges.now < 2 ^ 32 }
    requires cells { length marks.now ≡ word_count ranges.now }
    ensures cells { IfOk result (λ numbers. length numbers.items ≡ word_count ranges.now) }
    ensures numbers { (entry : ℕ) (named functions : List ℕ) → marks.now ≡ marks_of ranges.now (starts_in ranges.now entry named functions)
        → IfOk result (λ numbers. AreNumbers ranges.now (starts_in ranges.now entry named functions) numbers.items) }
{
    let mut numbers = Vec::new(alloc);
    let mut number = 0;
    for place in 0..count_in(ranges) {
        numbers.push(number)?;
        if is_last(ranges, marks, address_at(ranges, place)) {
            number += 1;
        }
    }
    Ok(numbers)
}

/// The number of the block that holds the code word at the address. `None` exactly where no word stands there.
pub fn number_at(ranges: &[Range], numbers: &[u32], address: u32) -> Option<u32>
    requires order { AreCodeExtents (extents_of ranges.now) }
    requires words { word_count ranges.now < 2 ^ 32 }
    requires cells { length numbers.now ≡ word_count ranges.now }
    ensures { (starts : List ℕ) → AreNumbers ranges.now starts numbers.now → result ≡ block_among ranges.now starts address }
{
    let place = place_in(ranges, address)?;
    Some(numbers[place as usize])
}
