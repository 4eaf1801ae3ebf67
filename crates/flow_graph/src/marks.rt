//! Marks on code words: one cell a place, set for each address that is marked and has a code word.
ghost use Rattle.std.specs.Prelude.{◌≡◌, ◌<◌, ◌^◌, ◌++◌, ◌∷◌, [], ℕ, List, length, map, flat_map};
ghost use Rattle.std.specs.List.{AllByRecursion};
ghost use Rattle.rv_code.specs.declared.image.Range.{Range};
ghost use Rattle.rv_code.specs.Code.{extents_of};
ghost use Rattle.rv_code.specs.Image.{word_count};
ghost use Rattle.rv_code.specs.Places.{code_addresses, AreCodeExtents, EndsInSpace};
ghost use Rattle.flow_graph.specs.CodeParts.{instr_in};
ghost use Rattle.flow_graph.specs.Leaders.{places_behind};
ghost use Rattle.flow_graph.specs.Marks.{marks_of};

use crate::walk::address_at;
use rv_code::{Range, class_of, count_in, decode, ends_a_run, place_in, target, word_in};

/// Marks the code word at the address, if one stands there.
pub fn mark(ranges: &[Range], marks: &mut [bool], address: u32)
    requires order { AreCodeExtents (extents_of ranges.now) }
    requires words { word_count ranges.now < 2 ^ 32 }
    requires cells { length marks.old ≡ word_count ranges.now }
    ensures { (addresses : List ℕ) → marks.old ≡ marks_of ranges.now addresses → marks.new ≡ marks_of ranges.now (addresses ++ address ∷ []) }
{
    if let Some(place) = place_in(ranges, address) {
        marks[place as usize] = true;
    }
}

/// Marks the code words at the addresses.
pub fn mark_all(ranges: &[Range], marks: &mut [bool], more: &[u32])
    requires order { AreCodeExtents (extents_of ranges.now) }
    requires words { word_count ranges.now < 2 ^ 32 }
    requires cells { length marks.old ≡ word_count ranges.now }
    ensures { (addresses : List ℕ) → marks.old ≡ marks_of ranges.now addresses → marks.new ≡ marks_of ranges.now (addresses ++ more.now) }
{
    for address in more {
        mark(ranges, marks, *address);
    }
}

/// Marks the first word of each range.
pub fn mark_starts(ranges: &[Range], marks: &mut [bool])
    requires order { AreCodeExtents (extents_of ranges.now) }
    requires words { word_count ranges.now < 2 ^ 32 }
    requires cells { length marks.old ≡ word_count ranges.now }
    ensures { (addresses : List ℕ) → marks.old ≡ marks_of ranges.now addresses → marks.new ≡ marks_of ranges.now (addresses ++ map (λ (range : Range). range.start) ranges.now) }
{
    for range in ranges {
        mark(ranges, marks, range.start);
    }
}

/// Marks the direct target of the instruction at the address, and the word behind it where a run of words ends with it.
fn mark_behind(ranges: &[Range], marks: &mut [bool], address: u32)
    requires order { AreCodeExtents (extents_of ranges.now) }
    requires words { word_count ranges.now < 2 ^ 32 }
    requires cells { length marks.old ≡ word_count ranges.now }
    ensures { (addresses : List ℕ) → marks.old ≡ marks_of ranges.now addresses → marks.new ≡ marks_of ranges.now (addresses ++ places_behind (instr_in ranges.now address) address) }
{
    let Some(word) = word_in(ranges, address) else {
        return;
    };
    let instr = decode(word);
    if let Some(target) = target(&instr, address) {
        mark(ranges, marks, target);
    }
    if ends_a_run(class_of(&instr)) {
        mark(ranges, marks, address.wrapping_add(4));
    }
}

/// Marks the direct targets of all words, and the words behind those with which a run of words ends.
pub fn mark_targets(ranges: &[Range], marks: &mut [bool])
    requires order { AreCodeExtents (extents_of ranges.now) }
    requires ends { AllByRecursion EndsInSpace (extents_of ranges.now) }
    requires words { word_count ranges.now < 2 ^ 32 }
    requires cells { length marks.old ≡ word_count ranges.now }
    ensures { (addresses : List ℕ) → marks.old ≡ marks_of ranges.now addresses
        → marks.new ≡ marks_of ranges.now (addresses ++ flat_map (λ address. places_behind (instr_in ranges.now address) address) (code_addresses (extents_of ranges.now))) }
{
    for place in 0..count_in(ranges) {
        mark_behind(ranges, marks, address_at(ranges, place));
    }
}
