//! The blocks of code words.
ghost use Rattle.std.specs.Prelude.{◌≡◌, ◌<◌, ◌^◌, ℕ, List, IfOk, length};
ghost use Rattle.std.specs.List.{AllByRecursion};
ghost use Rattle.rv_code.specs.Code.{extents_of};
ghost use Rattle.rv_code.specs.Image.{word_count};
ghost use Rattle.rv_code.specs.Places.{AreCodeExtents, EndsInSpace};
ghost use Rattle.flow_graph.specs.Blocks.{blocks_among, is_end_among, is_last_among};
ghost use Rattle.flow_graph.specs.Leaders.{starts_in};
ghost use Rattle.flow_graph.specs.Marks.{marks_of};

use crate::Block;
use crate::walk::address_at;
use rv_code::{Range, class_of, count_in, decode, ends_a_run, place_in, word_in};
use std::alloc::{AllocError, Global};

/// Whether the next code word begins a block, or none stands behind the address.
fn is_open_end(ranges: &[Range], marks: &[bool], address: u32) -> bool
    requires order { AreCodeExtents (extents_of ranges.now) }
    requires ends { AllByRecursion EndsInSpace (extents_of ranges.now) }
    requires words { word_count ranges.now < 2 ^ 32 }
    requires cells { length marks.now ≡ word_count ranges.now }
    ensures { (starts : List ℕ) → marks.now ≡ marks_of ranges.now starts → result ≡ is_end_among ranges.now starts address }
{
    let Some(next) = address.checked_add(4) else {
        return true;
    };
    match place_in(ranges, next) {
        Some(place) => marks[place as usize],
        None => true,
    }
}

/// Whether the code word at the address is the last of its block.
pub fn is_last(ranges: &[Range], marks: &[bool], address: u32) -> bool
    requires order { AreCodeExtents (extents_of ranges.now) }
    requires ends { AllByRecursion EndsInSpace (extents_of ranges.now) }
    requires words { word_count ranges.now < 2 ^ 32 }
    requires cells { length marks.now ≡ word_count ranges.now }
    ensures { (starts : List ℕ) → marks.now ≡ marks_of ranges.now starts → result ≡ is_last_among ranges.now starts address }
{
    match word_in(ranges, address) {
        Some(word) if ends_a_run(class_of(&decode(word))) => true,
        _ => is_open_end(ranges, marks, address),
    }
}

/// The blocks of the code words of these ranges, of which the marked ones are leaders.
pub fn blocks_in(alloc: Global, ranges: &[Range], marks: &[bool]) -> Result<Vec<Block>, AllocError>
    requires order { AreCodeExtents (extents_of ranges.now) }
    requires ends { AllByRecursion EndsInSpace (extents_of ranges.now) }
    requires words { word_count ranges.now < 2 ^ 32 }
    requires cells { length marks.now ≡ word_count ranges.now }
    ensures { (entry : ℕ) (named functions : List ℕ) → marks.now ≡ marks_of ranges.now (starts_in ranges.now entry named functions)
        → IfOk result (λ blocks. blocks.items ≡ blocks_among ranges.now (starts_in ranges.now entry named functions)) }
{
    let mut blocks = Vec::new(alloc);
    let mut leader = None;
    for place in 0..count_in(ranges) {
        let address = address_at(ranges, place);
        let first = leader.unwrap_or(address);
        if is_last(ranges, marks, address) {
            blocks.push(Block {
                leader: first,
                last: address,
            })?;
            leader = None;
        } else {
            leader = Some(first);
        }
    }
    Ok(blocks)
}
