//! A schema, and what it says of the code word at an address.
ghost use Rattle.std.specs.Prelude.{◌≡◌, ◌<◌, IfOk, IfSome, length};
ghost use Rattle.rv_code.specs.Places.{address_of, place_of};
ghost use Rattle.schema_form.specs.LookUps.{schema_word_at, slot_by, gives_value, is_indirect};
ghost use Rattle.schema_form.specs.Valid.{IsSchema};

use crate::SchemaWord;
use crate::flags::{FALL_WITNESS, KEPT, TAKEN_WITNESS, class_in, is_set};
use crate::stretches::{address_of, place_by, words_before};
use ev_format::{Shape, Slot};
use rv_code::{Class, Extent, ListOf};
use std::alloc::{AllocError, Global};
use std::marker::Model;

/// What is known of a program beforehand: where its run begins, where its code words stand, and what is known of each of them, in the
/// order of their addresses.
#[derive(Debug, Drop)]
pub struct Schema {
    pub entry: u32,
    pub stretches: ListOf<Extent>,
    pub words: ListOf<SchemaWord>,
    // how many code words stand before each stretch
    before: ListOf<u32>,
}

impl Model for Schema {
    ghost use Rattle.schema_form.specs.SchemaParts.{SchemaParts};

    ghost Value = { SchemaParts };

    ghost use Rattle.schema_form.specs.SchemaView.{IsSchemaInside, schema_parts};

    ghost view = { schema_parts };

    ghost invariant = { IsSchemaInside };
}

impl Schema {
    /// What the schema has for the code word at the address. `None` exactly where none stands there.
    #[inline(always)]
    pub fn word_at(&self, address: u32) -> Option<SchemaWord>
        ensures { result ≡ schema_word_at self.now address }
    {
        let place = self.place_of(address)?;
        Some(self.words.as_slice()[place as usize])
    }

    /// The place of the code word at the address, counted from 0 in the order of addresses, found by halving. `None` exactly where none
    /// stands there.
    #[inline(always)]
    pub fn place_of(&self, address: u32) -> Option<u32>
        ensures place { result ≡ place_of self.now.stretches address }
        ensures below { IfSome result (λ place. place < length self.now.words) }
    {
        place_by(self.stretches.as_slice(), self.before.as_slice(), address)
    }

    /// The address of the code word at the place, counted from 0 in the order of addresses. `None` exactly where there are fewer words.
    pub fn address_of(&self, place: u32) -> Option<u32>
        ensures { result ≡ address_of self.now.stretches place }
    {
        address_of(self.stretches.as_slice(), place)
    }
}

/// The schema of these parts, with how many code words stand before each stretch.
pub fn with_parts(
    alloc: Global,
    entry: u32,
    stretches: Vec<Extent>,
    words: Vec<SchemaWord>,
) -> Result<Schema, AllocError>
    requires { IsSchema (record { entry = entry; stretches = stretches.items; words = words.items }) }
    ensures { IfOk result (λ schema. schema ≡ record { entry = entry; stretches = stretches.items; words = words.items }) }
{
    let before = words_before(alloc, &stretches)?;
    Ok(Schema {
        entry,
        stretches: ListOf::from_vec(stretches),
        words: ListOf::from_vec(words),
        before: ListOf::from_vec(before),
    })
}

/// Whether a word of the class gives a value that is recorded.
#[inline(always)]
pub fn gives_value(kept: bool, class: Class) -> bool
    ensures { result ≡ gives_value kept class }
{
    match class {
        Class::Load => kept,
        Class::Call => true,
        _ => false,
    }
}

/// Whether a word of the class is an indirect jump.
#[inline(always)]
pub fn is_indirect(class: Class) -> bool
    ensures { result ≡ is_indirect class }
{
    match class {
        Class::Indirect => true,
        _ => false,
    }
}

/// Which records an address may have, by what a schema has for it.
#[inline(always)]
fn slot_by(word: Option<SchemaWord>) -> Slot
    ensures { result ≡ slot_by word }
{
    match word {
        None => Slot {
            code: false,
            fall: false,
            taken: false,
            value: false,
            landing: false,
        },
        Some(word) => {
            let class = class_in(word.flags);
            Slot {
                code: true,
                fall: is_set(FALL_WITNESS, word.flags),
                taken: is_set(TAKEN_WITNESS, word.flags),
                value: match class {
                    Some(class) => gives_value(is_set(KEPT, word.flags), class),
                    None => false,
                },
                landing: match class {
                    Some(class) => is_indirect(class),
                    None => false,
                },
            }
        }
    }
}

impl Shape for Schema {
    ghost use Rattle.schema_form.specs.LookUps.{schema_shape};
    ghost use Rattle.schema_form.specs.scaffolding.Shapes.{schema_is_shape};

    ghost shown = { λ schema. schema_shape schema };

    fn entry(&self) -> u32 {
        self.entry
    }

    fn first(&self) -> u32 {
        match self.stretches.as_slice() {
            [] => 0,
            [stretch, ..] => stretch.start,
        }
    }

    fn count(&self) -> u32 {
        self.words.as_slice().len() as u32
    }

    #[inline(always)]
    fn slot(&self, address: u32) -> Slot {
        slot_by(self.word_at(address))
    }

    fn needs(&self, target: u32) -> Option<u32> {
        let word = self.word_at(target)?;
        Some(word.mask - word.mask % 2)
    }

    ghost well_formed = { λ schema. schema_is_shape schema };
}
