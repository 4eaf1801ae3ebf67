ghost use Rattle.std.specs.Prelude.{◌≡◌, ◌⊎◌, ◌↔◌, ◌+◌, ◌-◌, ◌^◌, ◌<◌, ◌≤◌, IsTrue, IfSome, length, drop, slice_index};
ghost use Rattle.rv_code.specs.Numbers.{bytes_of};

use std::marker::Model;

/// Mapped bytes, one behind the other.
#[derive(Debug, Drop)]
pub(crate) struct Stretch {
    start: u32,
    bytes: Vec<u8>,
    writable: bool,
}

impl Model for Stretch {
    ghost use Rattle.rv_memory.specs.Stretches.{MappedStretch};

    ghost Value = { MappedStretch };

    ghost view = { λ s. record { start = s.start; bytes = s.bytes.items; writable = s.writable } };
}

impl Stretch {
    ghost use Rattle.rv_memory.specs.Stretches.{MappedStretch};
    ghost use Rattle.rv_memory.specs.Outline.{stretch_end};
    ghost use Rattle.rv_memory.specs.Inner.Stored.{with_bytes, stored};

    /// These bytes, from this address on.
    pub(crate) fn new(start: u32, bytes: Vec<u8>, writable: bool) -> Self
        ensures { result ≡ record { start = start; bytes = bytes.items; writable = writable } }
    {
        Stretch {
            start,
            bytes,
            writable,
        }
    }

    /// The first byte's address.
    #[inline(always)]
    pub(crate) fn start(&self) -> u32
        ensures { result ≡ self.now.start }
    {
        self.start
    }

    /// How many bytes there are.
    #[inline(always)]
    pub(crate) fn len(&self) -> usize
        ensures { result ≡ length self.now.bytes }
    {
        self.bytes.len()
    }

    /// Whether the bytes can be written.
    #[inline(always)]
    pub(crate) fn is_writable(&self) -> bool
        ensures { result ≡ self.now.writable }
    {
        self.writable
    }

    /// Whether one of the bytes has this address.
    #[inline(always)]
    pub(crate) fn has_address(&self, address: u32) -> bool
        ensures { IsTrue result ↔ (self.now.start ≤ address) × (address < stretch_end self.now) }
    {
        address >= self.start && ((address - self.start) as usize) < self.bytes.len()
    }

    /// The place of the first of `size` bytes from an address on, where all of them are the stretch's.
    #[inline(always)]
    pub(crate) fn place_for(&self, address: u32, size: u8) -> Option<usize>
        requires some { 0 < size }
        requires within { stretch_end self.now ≤ 2 ^ 32 }
        ensures { IfSome result (λ place. (address ≡ self.now.start + place) × (place + size ≤ length self.now.bytes)) }
    {
        let place = address.wrapping_sub(self.start) as usize;
        if place + size as usize <= self.bytes.len() {
            Some(place)
        } else {
            None
        }
    }

    /// The bytes from this place on.
    #[inline(always)]
    pub(crate) fn from_place(&self, place: usize) -> &[u8]
        requires { place ≤ length self.now.bytes }
        ensures { result.now ≡ drop place self.now.bytes }
    {
        &self.bytes[place..]
    }

    /// The byte at this place.
    #[inline(always)]
    pub(crate) fn byte(&self, place: usize) -> u8
        requires { place < length self.now.bytes }
        ensures { result ≡ slice_index self.now.bytes place }
    {
        self.bytes[place]
    }

    /// Puts the lowest `size` bytes of a value from this place on, the lowest first.
    #[inline(always)]
    pub(crate) fn store(&mut self, place: usize, size: u8, value: u32)
        requires size { (size ≡ 1) ⊎ ((size ≡ 2) ⊎ (size ≡ 4)) }
        requires within { place + size ≤ length self.old.bytes }
        ensures { self.new ≡ with_bytes self.old (stored self.old.bytes place (bytes_of size value)) }
    {
        let [first, second, third, fourth] = value.to_le_bytes();
        self.bytes[place] = first;
        if size > 1 {
            self.bytes[place + 1] = second;
        }
        if size > 2 {
            self.bytes[place + 2] = third;
            self.bytes[place + 3] = fourth;
        }
    }

    /// Puts bytes over others, from this place on.
    pub(crate) fn store_bytes(&mut self, place: usize, bytes: &[u8])
        requires { place + length bytes.now ≤ length self.old.bytes }
        ensures { self.new ≡ with_bytes self.old (stored self.old.bytes place bytes.now) }
    {
        self.bytes[place..place + bytes.len()].copy_from_slice(bytes);
    }
}
