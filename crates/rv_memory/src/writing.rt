//! Writes of bytes, wherever they lie: all of them or none.
ghost use Rattle.std.specs.Prelude.{◌≡◌, ◌⊎◌, ◌^◌, ◌<◌, ◌≤◌, true, None, length, map, take, IfOk, IfErr};
ghost use Rattle.rv_code.specs.Numbers.{bytes_of};
ghost use Rattle.rv_memory.specs.Answers.{hole_or};
ghost use Rattle.rv_memory.specs.Stretches.{cells_in};
ghost use Rattle.rv_memory.specs.Memory.{is_writable, span, first_shut, with_byte, written};
ghost use Rattle.rv_memory.specs.Outline.{AreInOrder, outline};

use crate::Hole;
use crate::place::place_of;
use crate::reading::writable_at;
use crate::stretch::Stretch;

/// The first of `count` addresses that can't be written.
#[inline(never)]
pub(crate) fn shut_from(stretches: &[Stretch], address: u32, count: u8) -> Option<u32>
    requires { AreInOrder stretches.now }
    ensures { result ≡ first_shut (cells_in stretches.now) (span address count) }
{
    if count == 0 {
        None
    } else if writable_at(stretches, address) {
        shut_from(stretches, address.wrapping_add(1), count - 1)
    } else {
        Some(address)
    }
}

/// Puts a byte at an address that can be written.
pub(crate) fn put_byte(stretches: &mut [Stretch], address: u32, byte: u8)
    requires order { AreInOrder stretches.old }
    requires free { is_writable (cells_in stretches.old) address ≡ true }
    ensures put { cells_in stretches.new ≡ map (with_byte address byte) (cells_in stretches.old) }
    ensures outline { outline stretches.new ≡ outline stretches.old }
{
    if let Some(place) = place_of(stretches, address) {
        let stretch = &mut stretches[place];
        let offset = (address - stretch.start()) as usize;
        stretch.store(offset, 1, u32::from(byte));
    }
}

/// Writes byte by byte, from the lowest on.
#[inline(never)]
pub(crate) fn scatter(stretches: &mut [Stretch], address: u32, count: u8, value: u32)
    requires order { AreInOrder stretches.old }
    requires free { first_shut (cells_in stretches.old) (span address count) ≡ None }
    ensures put { cells_in stretches.new ≡ written (cells_in stretches.old) (span address count) (bytes_of count value) }
    ensures outline { outline stretches.new ≡ outline stretches.old }
{
    if count > 0 {
        put_byte(stretches, address, (value % 256) as u8);
        scatter(stretches, address.wrapping_add(1), count - 1, value / 256);
    }
}

/// Puts the lowest `size` bytes of a value from an address on. The stretch with the number `near` is looked at first.
#[inline(always)]
pub(crate) fn store(
    stretches: &mut [Stretch],
    near: &mut usize,
    address: u32,
    size: u8,
    value: u32,
) -> Result<(), Hole>
    requires order { AreInOrder stretches.old }
    requires size { (size ≡ 1) ⊎ ((size ≡ 2) ⊎ (size ≡ 4)) }
    ensures answer { result ≡ hole_or (first_shut (cells_in stretches.old) (span address size)) tt }
    ensures put { IfOk result (λ _. cells_in stretches.new ≡ written (cells_in stretches.old) (span address size) (bytes_of size value)) }
    ensures kept { IfErr result (λ _. stretches.new ≡ stretches.old) }
    ensures outline { outline stretches.new ≡ outline stretches.old }
{
    let first = *near;
    if first < stretches.len() && stretches[first].is_writable() {
        let stretch = &mut stretches[first];
        if let Some(place) = stretch.place_for(address, size) {
            stretch.store(place, size, value);
            return Ok(());
        }
    }
    store_anywhere(stretches, near, address, size, value)
}

/// The same, of bytes that may lie anywhere. Where they lie in one stretch, it is looked up once, and is the near one then.
#[inline(never)]
fn store_anywhere(
    stretches: &mut [Stretch],
    near: &mut usize,
    address: u32,
    size: u8,
    value: u32,
) -> Result<(), Hole>
    requires order { AreInOrder stretches.old }
    requires size { (size ≡ 1) ⊎ ((size ≡ 2) ⊎ (size ≡ 4)) }
    ensures answer { result ≡ hole_or (first_shut (cells_in stretches.old) (span address size)) tt }
    ensures put { IfOk result (λ _. cells_in stretches.new ≡ written (cells_in stretches.old) (span address size) (bytes_of size value)) }
    ensures kept { IfErr result (λ _. stretches.new ≡ stretches.old) }
    ensures outline { outline stretches.new ≡ outline stretches.old }
{
    if let Some(place) = place_of(stretches, address) {
        *near = place;
        let stretch = &mut stretches[place];
        let offset = (address - stretch.start()) as usize;
        if stretch.is_writable() && stretch.len() - offset >= size as usize {
            stretch.store(offset, size, value);
            return Ok(());
        }
    }
    match shut_from(stretches, address, size) {
        Some(address) => Err(Hole { address }),
        None => {
            scatter(stretches, address, size, value);
            Ok(())
        }
    }
}

/// Puts as many of some bytes as there is room for from an address to the end of its stretch, and answers how many.
fn store_some(stretches: &mut [Stretch], address: u32, bytes: &[u8]) -> usize
    requires order { AreInOrder stretches.old }
    requires some { 0 < length bytes.now }
    requires free { first_shut (cells_in stretches.old) (span address (length bytes.now)) ≡ None }
    ensures some { 0 < result }
    ensures few { result ≤ length bytes.now }
    ensures small { result < 2 ^ 32 }
    ensures put { cells_in stretches.new ≡ written (cells_in stretches.old) (span address result) (take result bytes.now) }
    ensures outline { outline stretches.new ≡ outline stretches.old }
{
    match place_of(stretches, address) {
        Some(place) => {
            let stretch = &mut stretches[place];
            let offset = (address - stretch.start()) as usize;
            let count = bytes.len().min(stretch.len() - offset);
            stretch.store_bytes(offset, &bytes[..count]);
            count
        }
        None => 0,
    }
}

/// Puts bytes from an address on, all of which can be written. Each stretch is looked up once.
pub(crate) fn store_all(stretches: &mut [Stretch], address: u32, bytes: &[u8])
    requires order { AreInOrder stretches.old }
    requires free { first_shut (cells_in stretches.old) (span address (length bytes.now)) ≡ None }
    ensures put { cells_in stretches.new ≡ written (cells_in stretches.old) (span address (length bytes.now)) bytes.now }
    ensures outline { outline stretches.new ≡ outline stretches.old }
{
    if bytes.is_empty() {
        return;
    }
    let count = store_some(stretches, address, bytes);
    store_all(
        stretches,
        address.wrapping_add(count as u32),
        &bytes[count..],
    );
}
