//! Code words by their addresses and places.
ghost use Rattle.std.specs.Prelude.{◌≡◌, ◌<◌, ◌≤◌, IfOk, IfSome, length};
ghost use Rattle.std.specs.List.Sorted.{IsPartitionPoint};
ghost use Rattle.rv_code.specs.Code.{extent_end, is_code};
ghost use Rattle.rv_code.specs.Places.{address_of, place_of};
ghost use Rattle.schema_form.specs.Layout.{words_before, words_total};
ghost use Rattle.schema_form.specs.Valid.{AreStretches};

use rv_code::Extent;
use std::alloc::{AllocError, Global};

/// The first address behind a stretch.
pub fn end_of(stretch: Extent) -> u64
    ensures { result ≡ extent_end stretch }
{
    u64::from(stretch.start) + 4 * u64::from(stretch.count)
}

/// Whether a code word stands at the address.
pub fn has_word(stretches: &[Extent], address: u32) -> bool
    ensures { result ≡ is_code stretches.now address }
{
    stretches.iter().any(|stretch| stretch.has_word(address))
}

/// How many code words there are.
pub fn words_total(stretches: &[Extent]) -> u32
    requires { AreStretches stretches.now }
    ensures { result ≡ words_total stretches.now }
{
    let mut total = 0;
    for stretch in stretches {
        total += stretch.count;
    }
    total
}

/// The address of the code word at the place. `None` exactly where there are fewer words.
pub fn address_of(stretches: &[Extent], place: u32) -> Option<u32>
    requires { AreStretches stretches.now }
    ensures { result ≡ address_of stretches.now place }
{
    let mut left = place;
    for stretch in stretches {
        if left < stretch.count {
            return Some(stretch.start + 4 * left);
        }
        left -= stretch.count;
    }
    None
}

/// The place of the code word at the address. `None` exactly where none stands there. It goes over the stretches one by one.
pub fn place_of(stretches: &[Extent], address: u32) -> Option<u32>
    requires { AreStretches stretches.now }
    ensures place { result ≡ place_of stretches.now address }
    ensures below { IfSome result (λ place. place < words_total stretches.now) }
{
    let mut before = 0;
    for stretch in stretches {
        if stretch.has_word(address) {
            return Some(before + (address - stretch.start) / 4);
        }
        before += stretch.count;
    }
    None
}

/// How many code words stand before each stretch.
pub fn words_before(alloc: Global, stretches: &[Extent]) -> Result<Vec<u32>, AllocError>
    requires { AreStretches stretches.now }
    ensures { IfOk result (λ before. before.items ≡ words_before stretches.now) }
{
    let mut before = Vec::with_capacity(alloc, stretches.len())?;
    let mut total = 0;
    for stretch in stretches {
        before.push(total)?;
        total += stretch.count;
    }
    Ok(before)
}

/// How many of the stretches start at the address or before it, found by halving.
#[inline(always)]
fn begun_by(stretches: &[Extent], address: u32) -> usize
    requires { AreStretches stretches.now }
    ensures count { result ≤ length stretches.now }
    ensures begun { IsPartitionPoint (λ stretch. stretch.start ≤ address) (λ stretch. address < stretch.start) stretches.now result }
{
    stretches.partition_point(|stretch| stretch.start <= address)
}

/// The place of the code word at the address, where it is known how many stand before each stretch. `None` exactly where none stands
/// there.
#[inline(always)]
pub fn place_by(stretches: &[Extent], before: &[u32], address: u32) -> Option<u32>
    requires stretches { AreStretches stretches.now }
    requires before { before.now ≡ words_before stretches.now }
    ensures place { result ≡ place_of stretches.now address }
    ensures below { IfSome result (λ place. place < words_total stretches.now) }
{
    let begun = begun_by(stretches, address);
    if begun == 0 {
        return None;
    }
    let stretch = stretches[begun - 1];
    if stretch.has_word(address) {
        Some(before[begun - 1] + (address - stretch.start) / 4)
    } else {
        None
    }
}
