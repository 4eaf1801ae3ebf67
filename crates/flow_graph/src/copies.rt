//! Copies of what a graph keeps of an image.
ghost use Rattle.std.specs.Prelude.{◌≡◌, IfOk, map};
ghost use Rattle.rv_code.specs.declared.image.Name.{Name};

use rv_code::{ListOf, Name, Range};
use std::alloc::{AllocError, Global};

/// Copies of the ranges and of their words.
pub fn copies_of(alloc: Global, ranges: &[Range]) -> Result<Vec<Range>, AllocError>
    ensures { IfOk result (λ copies. copies.items ≡ ranges.now) }
{
    let mut copies = Vec::with_capacity(alloc, ranges.len())?;
    for range in ranges {
        copies.push(copy_of(alloc, range)?)?;
    }
    Ok(copies)
}

/// A copy of the range and of its words.
fn copy_of(alloc: Global, range: &Range) -> Result<Range, AllocError>
    ensures { IfOk result (λ copy. copy ≡ range.now) }
{
    Ok(Range {
        start: range.start,
        words: ListOf::from_vec(range.words.as_slice().to_vec(alloc)?),
    })
}

/// The addresses that go with the names, in their order.
pub fn addresses_of(alloc: Global, names: &[Name]) -> Result<Vec<u32>, AllocError>
    ensures { IfOk result (λ addresses. addresses.items ≡ map (λ (name : Name). name.address) names.now) }
{
    names.iter().map(|name| name.address).collect(alloc)
}
