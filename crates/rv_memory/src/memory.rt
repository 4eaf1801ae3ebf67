ghost use Rattle.std.specs.Prelude.{◌≡◌, ◌⊎◌, ◌^◌, ◌<◌, true, false, None, [], length, IfOk, IfErr};
ghost use Rattle.std.specs.List.{AllByRecursion};
ghost use Rattle.rv_code.specs.Numbers.{bytes_of, number_of};
ghost use Rattle.rv_memory.specs.Answers.{hole_or, read_at};
ghost use Rattle.rv_memory.specs.Stretches.{mapping_of, memory_of};
ghost use Rattle.rv_memory.specs.Memory.{is_mapped, is_writable, span, bytes_at, first_hole, first_shut, written};
ghost use Rattle.rv_memory.specs.Outline.{outline, region_at, bytes_behind};

use crate::Hole;
use crate::loading::stretches_of;
use crate::reading::{
    extent_of, fetch, fixed_at, mapped_at, rest_from, room_at, word_near, writable_at,
};
use crate::stretch::Stretch;
use crate::writing::{store, store_all};
use rv_code::Image;
use std::alloc::{AllocError, Global};
use std::marker::Model;

/// The mapped bytes of a machine: the regions of its image and the stack, in the order of their addresses.
///
/// An access of some bytes is carried out as one of each byte from the lowest address on, modulo 2^32: it need not be
/// aligned, and it may begin in one region and end in another.
#[derive(Debug, Drop)]
pub struct Memory {
    stretches: Vec<Stretch>,
}

impl Model for Memory {
    ghost use Rattle.rv_memory.specs.Stretches.{Mapping};

    ghost Value = { Mapping };

    ghost use Rattle.rv_memory.specs.Outline.{AreInOrder};

    ghost view = { λ memory. record { stretches = memory.stretches.items } };

    ghost invariant = { λ memory. AreInOrder memory.stretches.items };
}

impl Memory {
    /// The memory of an image before its first step. The only error is want of memory.
    pub fn load(alloc: Global, image: &Image) -> Result<Memory, AllocError>
        ensures { IfOk result (λ memory. memory ≡ mapping_of image.now.regions) }
    {
        let stretches = stretches_of(alloc, image.regions.as_slice())?;
        Ok(Memory { stretches })
    }

    /// The number that `size` bytes from an address on have, the lowest byte first. `near` is the number of the region where the
    /// last ones were found, which is looked at first.
    ///
    /// # Errors
    ///
    /// The first address of them where nothing is mapped.
    #[inline(always)]
    pub fn read(&self, near: &mut usize, address: u32, size: u8) -> Result<u32, Hole>
        requires { (size ≡ 1) ⊎ ((size ≡ 2) ⊎ (size ≡ 4)) }
        ensures answer { result ≡ read_at (memory_of self.now) address size }
        ensures small { IfOk result (λ number. number < 256 ^ size) }
    {
        fetch(&self.stretches, near, address, size)
    }

    /// The number of the four bytes from an address on, the lowest first. A byte that isn't mapped counts as 0. `near` is
    /// the number of the region where the last ones were found, which is looked at first.
    #[inline(always)]
    pub fn word(&self, near: &mut usize, address: u32) -> u32
        ensures { result ≡ number_of (bytes_at (memory_of self.now) (span address 4)) }
    {
        word_near(&self.stretches, near, address)
    }

    /// Puts the lowest `size` bytes of a value from an address on, the lowest first. `near` is as in [`read`](Memory::read).
    ///
    /// # Errors
    ///
    /// The first address of them where nothing that can be written is mapped. All is then as before.
    #[inline(always)]
    pub fn write(
        &mut self,
        near: &mut usize,
        address: u32,
        size: u8,
        value: u32,
    ) -> Result<(), Hole>
        requires { (size ≡ 1) ⊎ ((size ≡ 2) ⊎ (size ≡ 4)) }
        ensures answer { result ≡ hole_or (first_shut (memory_of self.old) (span address size)) tt }
        ensures put { IfOk result (λ _. memory_of self.new ≡ written (memory_of self.old) (span address size) (bytes_of size value)) }
        ensures kept { IfErr result (λ _. self.new ≡ self.old) }
        ensures outline { outline self.new.stretches ≡ outline self.old.stretches }
    {
        store(&mut self.stretches, near, address, size, value)
    }

    /// Puts bytes from an address on, all of which have to be writable.
    pub fn put(&mut self, address: u32, bytes: &[u8])
        requires { first_shut (memory_of self.old) (span address (length bytes.now)) ≡ None }
        ensures put { memory_of self.new ≡ written (memory_of self.old) (span address (length bytes.now)) bytes.now }
        ensures outline { outline self.new.stretches ≡ outline self.old.stretches }
    {
        store_all(&mut self.stretches, address, bytes)
    }

    /// Whether a byte is mapped at the address.
    pub fn readable(&self, address: u32) -> bool
        ensures { result ≡ is_mapped (memory_of self.now) address }
    {
        mapped_at(&self.stretches, address)
    }

    /// Whether a byte that can be written is mapped at the address.
    pub fn writable(&self, address: u32) -> bool
        ensures { result ≡ is_writable (memory_of self.now) address }
    {
        writable_at(&self.stretches, address)
    }

    /// The start and the length of the region with this number, counted from 0 in the order of addresses, the stack among
    /// them.
    pub fn region(&self, number: u32) -> Option<(u32, u32)>
        ensures { result ≡ region_at self.now.stretches number }
    {
        extent_of(&self.stretches, number)
    }

    /// The bytes from an address to the end of its region, none where it isn't mapped.
    pub fn bytes_from(&self, address: u32) -> &[u8]
        ensures to_the_end { result.now ≡ bytes_behind self.now.stretches address }
        ensures bytes { bytes_at (memory_of self.now) (span address (length result.now)) ≡ result.now }
        ensures mapped { first_hole (memory_of self.now) (span address (length result.now)) ≡ None }
        ensures empty { result.now ≡ [] → is_mapped (memory_of self.now) address ≡ false }
    {
        rest_from(&self.stretches, address)
    }

    /// How many bytes from an address to the end of its region can be written, none where it isn't mapped writable.
    pub fn room_from(&self, address: u32) -> usize
        ensures free { first_shut (memory_of self.now) (span address result) ≡ None }
        ensures none { result ≡ 0 → is_writable (memory_of self.now) address ≡ false }
        ensures to_the_end { is_writable (memory_of self.now) address ≡ true → result ≡ length (bytes_behind self.now.stretches address) }
    {
        room_at(&self.stretches, address)
    }

    /// How many bytes from an address to the end of its region can't be written, none where it isn't mapped.
    pub fn fixed_from(&self, address: u32) -> usize
        ensures fixed { AllByRecursion (λ byte. is_writable (memory_of self.now) byte ≡ false) (span address result) }
        ensures to_the_end { is_writable (memory_of self.now) address ≡ false → result ≡ length (bytes_behind self.now.stretches address) }
    {
        fixed_at(&self.stretches, address)
    }
}
