//! What a schema has for the code word where a walk stands.
ghost use Rattle.std.specs.Prelude.{◌≡◌};
ghost use Rattle.rv_code.specs.Table.{meaning_of};
ghost use Rattle.schema_form.specs.Flags.{is_set};
ghost use Rattle.schema_form.specs.Rules.{way_of, witness_mark};
ghost use Rattle.regen_walk.specs.Inner.Met.{IsMet, IsSpot};
ghost use Rattle.regen_walk.specs.Moves.{is_kept};

use rv_code::{Class, Instr, falls, target};
use schema_form::{KEPT, Schema, SchemaWord, class_in, is_set, way_of, witness_mark};

/// A code word: its address, and its place among the code words.
#[derive(Clone, Copy, Debug, PartialEq, Eq)]
pub struct Spot {
    pub address: u32,
    pub place: u32,
}

/// What a schema has for a code word, and the word's class.
#[derive(Clone, Copy, Debug, PartialEq, Eq)]
pub struct Met {
    pub word: SchemaWord,
    pub class: Class,
}

impl Met {
    /// Whether the word's result is needed, or its value recorded.
    #[inline(always)]
    pub fn is_kept(&self) -> bool
        ensures { result ≡ is_kept self.now.word }
    {
        is_set(KEPT, self.word.flags)
    }

    /// Whether the edge of a way is recorded.
    #[inline(always)]
    pub fn is_marked(&self, taken: bool) -> bool
        ensures { result ≡ is_set (witness_mark taken) self.now.word.flags }
    {
        is_set(witness_mark(taken), self.word.flags)
    }

    /// Where a way leads from the word at an address, if it has that way.
    #[inline(always)]
    pub fn way_of(&self, taken: bool, address: u32) -> Option<u32>
        ensures { result ≡ way_of taken self.now.class self.now.word.raw address }
    {
        way_of(taken, self.class, self.word.raw, address)
    }

    /// The same, of a word that means this instruction.
    #[inline(always)]
    pub fn way_by(&self, taken: bool, instr: &Instr, address: u32) -> Option<u32>
        requires { instr.now ≡ meaning_of self.now.word.raw }
        ensures { result ≡ way_of taken self.now.class self.now.word.raw address }
    {
        if taken {
            return target(instr, address);
        }
        if falls(self.class) {
            Some(address.wrapping_add(4))
        } else {
            None
        }
    }
}

/// What the schema has for the code word at a spot.
#[inline(always)]
pub fn met_at(schema: &Schema, spot: Spot) -> Met
    requires { IsSpot schema.now spot }
    ensures { IsMet schema.now spot.address result }
{
    let word = schema.words.as_slice()[spot.place as usize];
    Met {
        word,
        class: class_in(word.flags).unwrap(),
    }
}
