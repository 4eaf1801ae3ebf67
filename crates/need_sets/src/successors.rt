//! The direct successors of code words.
ghost use Rattle.std.specs.Prelude.{◌≡◌, ◌<◌, ◌^◌, true, false, IfSome, IfNone, None};
ghost use Rattle.std.specs.List.{AllByRecursion};
ghost use Rattle.rv_code.specs.Code.{extents_of, is_code};
ghost use Rattle.rv_code.specs.Image.{word_count};
ghost use Rattle.rv_code.specs.Places.{AreCodeExtents, EndsInSpace};
ghost use Rattle.flow_graph.specs.CodeParts.{instr_in};
ghost use Rattle.need_sets.specs.Inner.Sources.{led_to};
ghost use Rattle.need_sets.specs.Words.{successor_at};

use flow_graph::address_at;
use rv_code::{Range, Successors, decode, direct_successors, place_in, word_in};

/// The direct successors of the code word at the address. `None` where none stands there.
pub fn successors_in(ranges: &[Range], address: u32) -> Option<Successors>
    ensures none { IfNone result (instr_in ranges.now address ≡ None) }
    ensures fall { IfSome result (λ successors. successors.fall ≡ successor_at ranges.now address false) }
    ensures taken { IfSome result (λ successors. successors.taken ≡ successor_at ranges.now address true) }
{
    let instr = decode(word_in(ranges, address)?);
    let is_code = |next: u32| -> bool
        ensures { result ≡ is_code (extents_of ranges.entry.now) next }
    { word_in(ranges, next).is_some() };
    Some(direct_successors(&instr, address, is_code))
}

/// The place to which a way leads from the word at the place, if a code word stands there.
pub fn led_from(ranges: &[Range], taken: bool, place: u32) -> Option<u32>
    requires order { AreCodeExtents (extents_of ranges.now) }
    requires ends { AllByRecursion EndsInSpace (extents_of ranges.now) }
    requires words { word_count ranges.now < 2 ^ 32 }
    requires within { place < word_count ranges.now }
    ensures goal { result ≡ led_to ranges.now taken place }
    ensures below { IfSome result (λ goal. goal < word_count ranges.now) }
{
    let successors = successors_in(ranges, address_at(ranges, place))?;
    if taken {
        place_in(ranges, successors.taken?)
    } else {
        place_in(ranges, successors.fall?)
    }
}
