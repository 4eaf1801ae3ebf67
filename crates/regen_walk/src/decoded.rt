//! The instructions of a schema's words, decoded once.
ghost use Rattle.std.specs.Prelude.{IfOk};
ghost use Rattle.rv_code.specs.Encoding.{Fits};
ghost use Rattle.rv_code.specs.Parts.{HasRegisters};
ghost use Rattle.schema_form.specs.Valid.{IsSchema};
ghost use Rattle.regen_walk.specs.declared.met.Met.{Met};
ghost use Rattle.regen_walk.specs.Decoded.{AreDecoded, IsDecoded};
ghost use Rattle.regen_walk.specs.Inner.Met.{IsMet, IsSpot};

use crate::met::Spot;
use rv_code::{Instr, decode};
use schema_form::{Schema, SchemaWord};
use std::alloc::{AllocError, Global};

/// What the words mean, in their order.
pub fn decoded(alloc: Global, words: &[SchemaWord]) -> Result<Vec<Instr>, AllocError>
    ensures { IfOk result (λ instrs. AreDecoded words.now instrs.items) }
{
    let mut instrs = Vec::with_capacity(alloc, words.len())?;
    for word in words {
        instrs.push(decode(word.raw))?;
    }
    Ok(instrs)
}

/// What the word at a spot means.
#[inline(always)]
pub fn instr_at(schema: &Schema, instrs: &[Instr], spot: Spot) -> Instr
    requires valid { IsSchema schema.now }
    requires decoded { AreDecoded schema.now.words instrs.now }
    requires spot { IsSpot schema.now spot }
    ensures decoded { (met : Met) → IsMet schema.now spot.address met → IsDecoded met.word.raw result }
    ensures registers { HasRegisters result }
    ensures fits { Fits result }
{
    instrs[spot.place as usize]
}
