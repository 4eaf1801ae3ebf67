//! Names in string tables, found by an index of the zero bytes.
ghost use Rattle.std.specs.Prelude.{◌≡◌, ◌≤◌, length, IfOk};
ghost use Rattle.elf_raw.specs.Names.{name_in};
ghost use Rattle.elf_raw.specs.Inner.Zeros.{zero_place, next_zero, zeros_of};

use crate::{FILE_LIMIT, RawSection};
use rv_code::ListOf;
use std::alloc::{AllocError, Global};

/// The bytes of a block.
const BLOCK: usize = 64;

/// Where the next zero byte of a file stands, for each block of it: a look-up reads no more than a block, wherever the
/// zero is.
#[derive(Debug, Drop)]
pub struct Zeros {
    next: ListOf<u32>,
}

/// How many bytes stand before the first zero: all of them where there is none.
fn zero_place(bytes: &[u8]) -> usize
    ensures place { result ≡ zero_place bytes.now }
    ensures within { result ≤ length bytes.now }
{
    for place in 0..bytes.len() {
        if bytes[place] == 0 {
            return place;
        }
    }
    bytes.len()
}

/// Where the first zero stands from a place on: at the end where there is none.
fn next_zero(bytes: &[u8], from: usize) -> usize
    requires { from ≤ length bytes.now }
    ensures place { result ≡ next_zero bytes.now from }
    ensures within { result ≤ length bytes.now }
{
    from + zero_place(&bytes[from..])
}

/// Where the first zero stands from a place on. Where `zero` isn't before the place, it is known to be that.
fn next_zero_known(bytes: &[u8], zero: usize, from: usize) -> usize
    requires known { from ≤ zero → zero ≡ next_zero bytes.now from }
    requires within { from ≤ length bytes.now }
    ensures place { result ≡ next_zero bytes.now from }
    ensures within { result ≤ length bytes.now }
{
    if from <= zero {
        return zero;
    }
    next_zero(bytes, from)
}

/// Where the first zero stands from each block on. Each byte is read once: what was found for the block before is still
/// the next one where it isn't behind.
fn zeros_of(alloc: Global, bytes: &[u8]) -> Result<Vec<u32>, AllocError>
    requires { length bytes.now ≤ FILE_LIMIT }
    ensures { IfOk result (λ zeros. zeros.items ≡ zeros_of bytes.now) }
{
    let blocks = bytes.len() / BLOCK + 1;
    let mut zeros = Vec::with_capacity(alloc, blocks)?;
    let mut zero = next_zero(bytes, 0);
    for block in 0..blocks {
        zero = next_zero_known(bytes, zero, BLOCK * block);
        zeros.push(zero as u32)?;
    }
    Ok(zeros)
}

impl Zeros {
    /// The index of a file.
    pub fn of(alloc: Global, bytes: &[u8]) -> Result<Zeros, AllocError>
        requires { length bytes.now ≤ FILE_LIMIT }
        ensures { IfOk result (λ zeros. zeros.next ≡ zeros_of bytes.now) }
    {
        let next = zeros_of(alloc, bytes)?;
        Ok(Zeros {
            next: ListOf::from_vec(next),
        })
    }

    /// Where the first zero of the file stands from a place on: at the end where there is none.
    pub fn next(&self, bytes: &[u8], from: usize) -> usize
        requires index { self.now.next ≡ zeros_of bytes.now }
        requires within { from ≤ length bytes.now }
        ensures place { result ≡ next_zero bytes.now from }
        ensures within { result ≤ length bytes.now }
    {
        let next = self.next.as_slice();
        let block = from / BLOCK + 1;
        if block >= next.len() {
            return next_zero(bytes, from);
        }
        let end = BLOCK * block;
        let zero = from + zero_place(&bytes[from..end]);
        if zero < end {
            zero
        } else {
            next[block] as usize
        }
    }
}

/// The name at a place of a string table: empty where it reaches outside the table.
pub fn name_at<'a>(bytes: &'a [u8], zeros: &Zeros, table: &RawSection, place: u32) -> &'a [u8]
    requires { zeros.now.next ≡ zeros_of bytes.now }
    ensures { result.now ≡ name_in bytes.now table.now place }
{
    let end = table.span.to.min(bytes.len() as u64);
    if end.saturating_sub(table.span.from) <= u64::from(place) {
        return &[];
    }
    let from = table.span.from as usize + place as usize;
    let zero = zeros.next(bytes, from);
    if zero < end as usize {
        &bytes[from..zero]
    } else {
        &[]
    }
}
