//! What a schema may have for a code word.
ghost use Rattle.std.specs.Prelude.{◌≡◌};
ghost use Rattle.schema_form.specs.Rules.{raw_fits, witness_mark, way_of, edge_misfits, misfits_as, word_misfits};

use crate::SchemaWord;
use crate::flags::{
    FALL_WITNESS, KEPT, TAKEN_WITNESS, class_in, class_number, is_set, may_be_kept,
};
use crate::stretches::has_word;
use rv_code::{Class, Extent, class_of, decode, falls, target, writes};

/// Whether the raw word of a code word of the class is allowed.
fn raw_fits(class: Class, kept: bool, raw: u32) -> bool
    ensures { result ≡ raw_fits class kept raw }
{
    if class_number(class) == 0 && !kept {
        return raw == 0;
    }
    let instr = decode(raw);
    class_number(class_of(&instr)) == class_number(class) && (!kept || writes(&instr).is_some())
}

/// The mark of a word whose edge of this way is recorded.
#[inline]
pub fn witness_mark(taken: bool) -> u32
    ensures { result ≡ witness_mark taken }
{
    if taken { TAKEN_WITNESS } else { FALL_WITNESS }
}

/// Where a way leads from a word of the class at an address, if it has that way.
#[inline]
pub fn way_of(taken: bool, class: Class, raw: u32, address: u32) -> Option<u32>
    ensures { result ≡ way_of taken class raw address }
{
    if taken {
        return target(&decode(raw), address);
    }
    if falls(class) {
        Some(address.wrapping_add(4))
    } else {
        None
    }
}

/// Whether an edge that isn't there is marked, or one that leaves the code isn't.
fn edge_misfits(stretches: &[Extent], way: Option<u32>, marked: bool) -> bool
    ensures { result ≡ edge_misfits stretches.now way marked }
{
    match way {
        Some(to) => !marked && !has_word(stretches, to),
        None => marked,
    }
}

/// Whether something isn't allowed for a word of the class at an address.
fn misfits_as(stretches: &[Extent], address: u32, word: SchemaWord, class: Class) -> bool
    ensures { result ≡ misfits_as stretches.now address word class }
{
    let kept = is_set(KEPT, word.flags);
    let fall = way_of(false, class, word.raw, address);
    let taken = way_of(true, class, word.raw, address);
    word.flags >= 256
        || !raw_fits(class, kept, word.raw)
        || word.mask % 2 == 1
        || edge_misfits(stretches, fall, is_set(FALL_WITNESS, word.flags))
        || edge_misfits(stretches, taken, is_set(TAKEN_WITNESS, word.flags))
        || (kept && !may_be_kept(class))
}

/// Whether something isn't allowed for a code word at an address.
pub fn word_misfits(stretches: &[Extent], address: u32, word: SchemaWord) -> bool
    ensures { result ≡ word_misfits stretches.now address word }
{
    match class_in(word.flags) {
        Some(class) => misfits_as(stretches, address, word, class),
        None => true,
    }
}
