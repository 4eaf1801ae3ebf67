//! Going over code words by their places.
ghost use Rattle.std.specs.Prelude.{◌≡◌, ◌<◌, ◌^◌, Some};
ghost use Rattle.std.specs.List.{AllByRecursion};
ghost use Rattle.rv_code.specs.Code.{extents_of};
ghost use Rattle.rv_code.specs.Image.{word_count};
ghost use Rattle.rv_code.specs.Places.{EndsInSpace, address_of};

use rv_code::{Range, address_in};

/// The address of the code word at the place, of which there are more.
pub fn address_at(ranges: &[Range], place: u32) -> u32
    requires ends { AllByRecursion EndsInSpace (extents_of ranges.now) }
    requires words { word_count ranges.now < 2 ^ 32 }
    requires within { place < word_count ranges.now }
    ensures { address_of (extents_of ranges.now) place ≡ Some result }
{
    match address_in(ranges, place) {
        Some(address) => address,
        None => unreachable!(),
    }
}
