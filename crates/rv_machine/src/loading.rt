//! What a machine takes from an image beside its memory: where its code stands, its note, and the registers at the start.
ghost use Rattle.std.specs.Prelude.{◌≡◌, ◌^◌, ◌<◌, length, IfOk, All};
ghost use Rattle.rv_code.specs.Code.{extents_of};
ghost use Rattle.rv_machine.specs.Start.{first_registers};

use rv_code::{Extent, FIRST_STACK_POINTER, ListOf, Note, Range};
use std::alloc::{AllocError, Global};

/// Where the words of the ranges stand.
pub(crate) fn code_extents(alloc: Global, ranges: &[Range]) -> Result<Vec<Extent>, AllocError>
    requires { All (λ range. length range.words < 2 ^ 32) ranges.now }
    ensures { IfOk result (λ extents. extents.items ≡ extents_of ranges.now) }
{
    let mut extents = Vec::with_capacity(alloc, ranges.len())?;
    for range in ranges {
        extents.push(Extent {
            start: range.start,
            count: range.words.as_slice().len() as u32,
        })?;
    }
    Ok(extents)
}

/// The same note, if there is one.
pub(crate) fn note_like(alloc: Global, note: &Option<Note>) -> Result<Option<Note>, AllocError>
    ensures { IfOk result (λ same. same ≡ note.now) }
{
    match note {
        Some(note) => Ok(Some(copy_of(alloc, note)?)),
        None => Ok(None),
    }
}

/// The same note, with a list of its own.
fn copy_of(alloc: Global, note: &Note) -> Result<Note, AllocError>
    ensures { IfOk result (λ same. same ≡ note.now) }
{
    let marks = note.map.as_slice();
    let mut map = Vec::with_capacity(alloc, marks.len())?;
    map.extend_from_slice(marks)?;
    Ok(Note {
        entry: note.entry,
        first: note.first,
        count: note.count,
        buffer: note.buffer,
        used: note.used,
        map: ListOf::from_vec(map),
    })
}

/// The registers before the first step.
#[tactic(auto, unfolding(crate::specs::Start::first_registers))]
pub(crate) fn start_registers() -> [u32; 32]
    ensures { result ≡ first_registers }
{
    let mut registers = [0; 32];
    registers[2] = FIRST_STACK_POINTER;
    registers
}
