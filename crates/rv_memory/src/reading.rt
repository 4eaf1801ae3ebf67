//! Reads of bytes, wherever they lie.
ghost use Rattle.std.specs.Prelude.{◌≡◌, ◌⊎◌, ◌^◌, ◌<◌, ◌≤◌, true, false, None, [], length, take, IfOk};
ghost use Rattle.std.specs.List.{AllByRecursion};
ghost use Rattle.rv_code.specs.Numbers.{number_of};
ghost use Rattle.rv_memory.specs.Answers.{read_at};
ghost use Rattle.rv_memory.specs.Stretches.{cells_in};
ghost use Rattle.rv_memory.specs.Memory.{is_mapped, is_writable, byte_at, span, bytes_at, first_hole, first_shut};
ghost use Rattle.rv_memory.specs.Outline.{AreInOrder, region_at, bytes_behind};

use crate::Hole;
use crate::place::{near_place, place_of};
use crate::stretch::Stretch;

/// The number of the first `size` bytes, the lowest first.
#[inline(always)]
pub(crate) fn number_from(bytes: &[u8], size: u8) -> u32
    requires size { (size ≡ 1) ⊎ ((size ≡ 2) ⊎ (size ≡ 4)) }
    requires enough { size ≤ length bytes.now }
    ensures number { result ≡ number_of (take size bytes.now) }
    ensures small { result < 256 ^ size }
{
    match size {
        1 => u32::from(bytes[0]),
        2 => u32::from_le_bytes([bytes[0], bytes[1], 0, 0]),
        _ => u32::from_le_bytes([bytes[0], bytes[1], bytes[2], bytes[3]]),
    }
}

/// Whether a byte is mapped at the address.
pub(crate) fn mapped_at(stretches: &[Stretch], address: u32) -> bool
    requires { AreInOrder stretches.now }
    ensures { result ≡ is_mapped (cells_in stretches.now) address }
{
    place_of(stretches, address).is_some()
}

/// Whether a byte that can be written is mapped at the address.
pub(crate) fn writable_at(stretches: &[Stretch], address: u32) -> bool
    requires { AreInOrder stretches.now }
    ensures { result ≡ is_writable (cells_in stretches.now) address }
{
    match place_of(stretches, address) {
        Some(place) => stretches[place].is_writable(),
        None => false,
    }
}

/// The start and the length of the stretch with this number.
pub(crate) fn extent_of(stretches: &[Stretch], number: u32) -> Option<(u32, u32)>
    requires { AreInOrder stretches.now }
    ensures { result ≡ region_at stretches.now number }
{
    let place = number as usize;
    if place < stretches.len() {
        let stretch = &stretches[place];
        Some((stretch.start(), stretch.len() as u32))
    } else {
        None
    }
}

/// The bytes from an address to the end of its stretch, none where it lies in no stretch.
pub(crate) fn rest_from(stretches: &[Stretch], address: u32) -> &[u8]
    requires { AreInOrder stretches.now }
    ensures to_the_end { result.now ≡ bytes_behind stretches.now address }
    ensures bytes { bytes_at (cells_in stretches.now) (span address (length result.now)) ≡ result.now }
    ensures mapped { first_hole (cells_in stretches.now) (span address (length result.now)) ≡ None }
    ensures empty { result.now ≡ [] → is_mapped (cells_in stretches.now) address ≡ false }
{
    match place_of(stretches, address) {
        Some(place) => {
            let stretch = &stretches[place];
            stretch.from_place((address - stretch.start()) as usize)
        }
        None => &[],
    }
}

/// The number that `size` bytes from an address on have. The stretch with the number `near` is looked at first.
#[inline(always)]
pub(crate) fn fetch(
    stretches: &[Stretch],
    near: &mut usize,
    address: u32,
    size: u8,
) -> Result<u32, Hole>
    requires order { AreInOrder stretches.now }
    requires size { (size ≡ 1) ⊎ ((size ≡ 2) ⊎ (size ≡ 4)) }
    ensures answer { result ≡ read_at (cells_in stretches.now) address size }
    ensures small { IfOk result (λ number. number < 256 ^ size) }
{
    let first = *near;
    if first < stretches.len()
        && let Some(place) = stretches[first].place_for(address, size)
    {
        return Ok(number_from(stretches[first].from_place(place), size));
    }
    fetch_anywhere(stretches, near, address, size)
}

/// The same, of bytes that may lie anywhere. Where they lie in one stretch, it is looked up once, and is the near one then.
#[inline(never)]
fn fetch_anywhere(
    stretches: &[Stretch],
    near: &mut usize,
    address: u32,
    size: u8,
) -> Result<u32, Hole>
    requires order { AreInOrder stretches.now }
    requires size { (size ≡ 1) ⊎ ((size ≡ 2) ⊎ (size ≡ 4)) }
    ensures answer { result ≡ read_at (cells_in stretches.now) address size }
    ensures small { IfOk result (λ number. number < 256 ^ size) }
{
    if let Some(place) = place_of(stretches, address) {
        *near = place;
        let stretch = &stretches[place];
        let bytes = stretch.from_place((address - stretch.start()) as usize);
        if bytes.len() >= size as usize {
            return Ok(number_from(bytes, size));
        }
    }
    gather(stretches, address, size)
}

/// Reads byte by byte, from the lowest on.
pub(crate) fn gather(stretches: &[Stretch], address: u32, count: u8) -> Result<u32, Hole>
    requires order { AreInOrder stretches.now }
    requires few { count ≤ 4 }
    ensures small { IfOk result (λ number. number < 256 ^ count) }
    ensures answer { result ≡ read_at (cells_in stretches.now) address count }
{
    if count == 0 {
        return Ok(0);
    }
    let Some(place) = place_of(stretches, address) else {
        return Err(Hole { address });
    };
    let stretch = &stretches[place];
    let byte = stretch.byte((address - stretch.start()) as usize);
    let rest = gather(stretches, address.wrapping_add(1), count - 1)?;
    Ok(u32::from(byte) + 256 * rest)
}

/// The number of four bytes from an address on. A byte that isn't mapped counts as 0. `near` is the number of the stretch
/// where the last ones were found, which is looked at first.
#[inline(always)]
pub(crate) fn word_near(stretches: &[Stretch], near: &mut usize, address: u32) -> u32
    requires { AreInOrder stretches.now }
    ensures { result ≡ number_of (bytes_at (cells_in stretches.now) (span address 4)) }
{
    if let Some(place) = near_place(stretches, *near, address) {
        *near = place;
        let stretch = &stretches[place];
        let bytes = stretch.from_place((address - stretch.start()) as usize);
        if bytes.len() >= 4 {
            return number_from(bytes, 4);
        }
    }
    word_by_byte(stretches, address)
}

/// The same, byte by byte.
#[inline(never)]
fn word_by_byte(stretches: &[Stretch], address: u32) -> u32
    requires { AreInOrder stretches.now }
    ensures { result ≡ number_of (bytes_at (cells_in stretches.now) (span address 4)) }
{
    u32::from_le_bytes([
        byte_or_zero(stretches, address),
        byte_or_zero(stretches, address.wrapping_add(1)),
        byte_or_zero(stretches, address.wrapping_add(2)),
        byte_or_zero(stretches, address.wrapping_add(3)),
    ])
}

/// The byte at an address, 0 where none is mapped.
fn byte_or_zero(stretches: &[Stretch], address: u32) -> u8
    requires { AreInOrder stretches.now }
    ensures { result ≡ byte_at (cells_in stretches.now) address }
{
    match place_of(stretches, address) {
        Some(place) => {
            let stretch = &stretches[place];
            stretch.byte((address - stretch.start()) as usize)
        }
        None => 0,
    }
}

/// How many bytes from an address to the end of its stretch can be written.
pub(crate) fn room_at(stretches: &[Stretch], address: u32) -> usize
    requires { AreInOrder stretches.now }
    ensures free { first_shut (cells_in stretches.now) (span address result) ≡ None }
    ensures none { result ≡ 0 → is_writable (cells_in stretches.now) address ≡ false }
    ensures to_the_end { is_writable (cells_in stretches.now) address ≡ true → result ≡ length (bytes_behind stretches.now address) }
{
    match place_of(stretches, address) {
        Some(place) if stretches[place].is_writable() => {
            let stretch = &stretches[place];
            stretch.len() - (address - stretch.start()) as usize
        }
        _ => 0,
    }
}

/// How many bytes from an address to the end of its stretch can't be written.
pub(crate) fn fixed_at(stretches: &[Stretch], address: u32) -> usize
    requires { AreInOrder stretches.now }
    ensures fixed { AllByRecursion (λ byte. is_writable (cells_in stretches.now) byte ≡ false) (span address result) }
    ensures to_the_end { is_writable (cells_in stretches.now) address ≡ false → result ≡ length (bytes_behind stretches.now address) }
{
    match place_of(stretches, address) {
        Some(place) if !stretches[place].is_writable() => {
            let stretch = &stretches[place];
            let offset = (address - stretch.start()) as usize;
            stretch.len() - offset
        }
        _ => 0,
    }
}
