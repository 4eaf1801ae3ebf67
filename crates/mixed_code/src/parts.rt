//! A region that holds words alone, and the range of them.
ghost use Rattle.std.specs.Prelude.{◌≡◌, IfOk};
ghost use Rattle.std.specs.List.{flat_map};
ghost use Rattle.rv_code.specs.Numbers.{bytes_of};
ghost use Rattle.mixed_code.specs.Parts.{region_with, range_with};

use ae_nums::put_u32;
use rv_code::{ListOf, Range, Region};
use std::alloc::{AllocError, Global};

/// The bytes of words, one word after another.
fn bytes(alloc: Global, words: &[u32]) -> Result<Vec<u8>, AllocError>
    ensures { IfOk result (λ bytes. bytes.items ≡ flat_map (bytes_of 4) words.now) }
{
    let mut bytes = Vec::new(alloc);
    for word in words {
        bytes.extend_from_slice(&put_u32(*word))?;
    }
    Ok(bytes)
}

/// A region of these words.
pub(crate) fn region(
    alloc: Global,
    start: u32,
    words: &[u32],
    writable: bool,
) -> Result<Region, AllocError>
    ensures { IfOk result (λ region. region ≡ region_with start writable words.now) }
{
    Ok(Region {
        start,
        bytes: ListOf::from_vec(bytes(alloc, words)?),
        zeros: 0,
        writable,
    })
}

/// A range of these words.
pub(crate) fn range(alloc: Global, start: u32, words: &[u32]) -> Result<Range, AllocError>
    ensures { IfOk result (λ range. range ≡ range_with start words.now) }
{
    Ok(Range {
        start,
        words: ListOf::from_vec(words.to_vec(alloc)?),
    })
}
