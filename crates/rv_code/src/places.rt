//! Code words by their addresses and by their places. Each look-up goes over the ranges of an image, of which there are
//! few, and over no words.
ghost use Rattle.std.specs.Prelude.{◌≡◌, ◌<◌, ◌≤◌, ◌^◌, IfSome, is_some, length, nat_lt};
ghost use Rattle.std.specs.List.{AllByRecursion};
ghost use Rattle.rv_code.specs.Code.{extent_of, extents_of, is_code, is_word_of, code_word};
ghost use Rattle.rv_code.specs.Image.{word_count};
ghost use Rattle.rv_code.specs.Places.{code_addresses, place_of, address_of, EndsInSpace, IsCodeExtent};

use crate::{Image, Range};

impl Range {
    // how many words there are
    fn count(&self) -> u32
        requires { length self.now.words < 2 ^ 32 }
        ensures { result ≡ length self.now.words }
    {
        self.words.as_slice().len() as u32
    }

    // whether a word of this range stands at the address
    fn has_word(&self, address: u32) -> bool
        ensures { result ≡ is_word_of (extent_of self.now) address }
    {
        address >= self.start
            && (((address - self.start) / 4) as usize) < self.words.as_slice().len()
            && address % 4 == 0
    }
}

/// The code word of these ranges at the address. `None` exactly where no word of theirs stands there.
pub fn word_in(ranges: &[Range], address: u32) -> Option<u32>
    ensures { result ≡ code_word ranges.now address }
{
    match ranges {
        [] => None,
        [range, rest @ ..] => {
            if range.has_word(address) {
                Some(range.words.as_slice()[((address - range.start) / 4) as usize])
            } else {
                word_in(rest, address)
            }
        }
    }
}

/// The place of the code word at the address, among the words of these ranges in order. `None` exactly where no word of theirs
/// stands there.
pub fn place_in(ranges: &[Range], address: u32) -> Option<u32>
    requires extents { AllByRecursion IsCodeExtent (extents_of ranges.now) }
    requires words { word_count ranges.now < 2 ^ 32 }
    ensures place { result ≡ place_of (extents_of ranges.now) address }
    ensures below { IfSome result (λ place. place < word_count ranges.now) }
{
    match ranges {
        [] => None,
        [range, rest @ ..] => {
            if range.has_word(address) {
                Some((address - range.start) / 4)
            } else {
                Some(range.count() + place_in(rest, address)?)
            }
        }
    }
}

/// The address of the code word at the place, among the words of these ranges in order. `None` exactly where there are fewer words.
pub fn address_in(ranges: &[Range], place: u32) -> Option<u32>
    requires ends { AllByRecursion EndsInSpace (extents_of ranges.now) }
    requires words { word_count ranges.now < 2 ^ 32 }
    ensures { result ≡ address_of (extents_of ranges.now) place }
{
    match ranges {
        [] => None,
        [range, rest @ ..] => {
            let count = range.count();
            if place < count {
                Some(range.start + 4 * place)
            } else {
                address_in(rest, place - count)
            }
        }
    }
}

/// How many code words these ranges have.
pub fn count_in(ranges: &[Range]) -> u32
    requires { word_count ranges.now < 2 ^ 32 }
    ensures { result ≡ word_count ranges.now }
{
    match ranges {
        [] => 0,
        [range, rest @ ..] => range.count() + count_in(rest),
    }
}

/// The code words of an image. The place of a code word is its number in the order of addresses, from 0.
impl Image {
    /// The code word at the address. `None` exactly where the address is that of no code word.
    pub fn word_at(&self, address: u32) -> Option<u32>
        ensures word { result ≡ code_word self.now.code address }
        ensures code { is_some result ≡ is_code (extents_of self.now.code) address }
    {
        word_in(self.code.as_slice(), address)
    }

    /// The place of the code word at the address. `None` exactly where the address is that of no code word.
    pub fn place_of(&self, address: u32) -> Option<u32>
        ensures place { result ≡ place_of (extents_of self.now.code) address }
        ensures code { is_some result ≡ is_code (extents_of self.now.code) address }
    {
        place_in(self.code.as_slice(), address)
    }

    /// The address of the code word at the place. `None` exactly where the place is at least the number of code words.
    pub fn address_of(&self, place: u32) -> Option<u32>
        ensures address { result ≡ address_of (extents_of self.now.code) place }
        ensures within { is_some result ≡ nat_lt place (word_count self.now.code) }
    {
        address_in(self.code.as_slice(), place)
    }

    /// How many code words there are.
    pub fn count(&self) -> u32
        ensures words { result ≡ word_count self.now.code }
        ensures addresses { result ≡ length (code_addresses (extents_of self.now.code)) }
    {
        count_in(self.code.as_slice())
    }
}
