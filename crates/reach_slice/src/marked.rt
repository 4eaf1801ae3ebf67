//! The addresses of marked words.
ghost use Rattle.std.specs.Prelude.{◌≡◌, ◌<◌, ◌^◌, IfOk, length};
ghost use Rattle.std.specs.List.{AllByRecursion};
ghost use Rattle.rv_code.specs.Code.{extents_of};
ghost use Rattle.rv_code.specs.Image.{word_count};
ghost use Rattle.rv_code.specs.Places.{AreCodeExtents, EndsInSpace};
ghost use Rattle.reach_slice.specs.Marked.{marked_words};
ghost use Rattle.reach_slice.specs.Slices.{is_access};

use flow_graph::address_at;
use rv_code::{Class, Range, class_of, count_in, decode, word_in};
use std::alloc::{AllocError, Global};

/// Whether a load or store stands at the address.
pub fn is_access(ranges: &[Range], address: u32) -> bool
    ensures { result ≡ is_access ranges.now address }
{
    match word_in(ranges, address) {
        Some(word) => matches!(class_of(&decode(word)), Class::Load | Class::Store),
        None => false,
    }
}

/// The addresses of the words that have a mark, in order.
pub fn marked_words(alloc: Global, ranges: &[Range], marks: &[bool]) -> Result<Vec<u32>, AllocError>
    requires order { AreCodeExtents (extents_of ranges.now) }
    requires ends { AllByRecursion EndsInSpace (extents_of ranges.now) }
    requires words { word_count ranges.now < 2 ^ 32 }
    requires cells { length marks.now ≡ word_count ranges.now }
    ensures { IfOk result (λ words. words.items ≡ marked_words ranges.now marks.now) }
{
    let mut words = Vec::new(alloc);
    for place in 0..count_in(ranges) {
        if marks[place as usize] {
            words.push(address_at(ranges, place))?;
        }
    }
    Ok(words)
}
