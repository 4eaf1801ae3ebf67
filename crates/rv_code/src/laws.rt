//! Laws of the instruction table, of encoding and of the places of code words, each the contract of a function that does nothing.
ghost use Rattle.std.specs.Prelude.{◌≡◌, ℕ, List};
ghost use Rattle.std.specs.List.{AllByRecursion};
ghost use Rattle.rv_code.specs.Code.{extents_of};
ghost use Rattle.rv_code.specs.Image.{IsImage};
ghost use Rattle.rv_code.specs.ImageParts.{ImageParts};
ghost use Rattle.rv_code.specs.Laws.{MeansItsEntry, AgreesWithNone, HasItsWord, IsItsWord, PlacesHaveAddresses, CodeHasPlaces, AddressesRise, HaveExtents};
ghost use Rattle.rv_code.specs.Places.{code_addresses, AreCodeExtents, EndsInSpace, extents_at};
ghost use Rattle.rv_code.specs.Table.{instruction_table, meaning_of, AreApart};

use crate::{Extent, Instr};

/// No word has the fixed fields of two entries of the instruction table, so the order of its entries says nothing.
pub fn no_word_agrees_with_two()
    ensures { AreApart instruction_table }
{}

/// A word that has the fixed fields of an entry means that entry's form with the free fields read, and a word that has
/// those of none is no instruction.
pub fn a_word_means_its_entry()
    ensures entry { (word : ℕ) → MeansItsEntry word }
    ensures none { (word : ℕ) → AgreesWithNone word → meaning_of word ≡ Instr.Bad word }
{}

/// Decoding what was encoded, and encoding what was decoded, gives it back: each instruction that fits has one word, and
/// each word means one instruction, which fits.
pub fn words_and_instructions_agree()
    ensures instructions { (instr : Instr) → HasItsWord instr }
    ensures words { (word : ℕ) → IsItsWord word }
{}

/// The code words of an image have places from 0 on, in the order of their addresses: a place's address has that place, an
/// address has a place exactly where a code word stands at it, and addresses rise with places.
pub fn places_are_in_order()
    ensures addresses { (extents : List Extent) → AreCodeExtents extents → PlacesHaveAddresses extents }
    ensures code { (extents : List Extent) → AreCodeExtents extents → CodeHasPlaces extents }
    ensures rise { (extents : List Extent) → AreCodeExtents extents → AddressesRise extents }
{}

/// The extents of code words and the addresses of these words say the same: each can be found again in the other.
pub fn extents_are_found_again()
    ensures extents { (extents : List Extent) → AreCodeExtents extents → extents_at (code_addresses extents) ≡ extents }
    ensures addresses { (addresses : List ℕ) → HaveExtents addresses }
{}

/// The code words of an image stand in order: its ranges are such extents as the other laws ask for, and end within the address
/// space.
pub fn images_have_their_code_in_order()
    ensures order { (image : ImageParts) → IsImage image → AreCodeExtents (extents_of image.code) }
    ensures ends { (image : ImageParts) → IsImage image → AllByRecursion EndsInSpace (extents_of image.code) }
{}
