ghost use Rattle.std.specs.Prelude.{◌≡◌, ◌⊎◌, ◌^◌, ◌<◌, IfOk, IfErr, IfSome, None, length, true};
ghost use Rattle.rv_code.specs.Code.{is_code};
ghost use Rattle.rv_code.specs.Parts.{HasRegisters};
ghost use Rattle.rv_code.specs.Numbers.{bytes_of, number_of};
ghost use Rattle.rv_memory.specs.Answers.{hole_or, read_at};
ghost use Rattle.rv_memory.specs.Stretches.{memory_of};
ghost use Rattle.rv_memory.specs.Outline.{outline};
ghost use Rattle.rv_memory.specs.Memory.{bytes_at, span, first_shut, written};
ghost use Rattle.rv_machine.specs.Inner.Decoded.{Contents, IsInstr, decoded_at, word_in_memory};

use crate::code::{finds_code, holds_code};
use crate::table::{Table, look_for, tables_of};
use rv_code::{Extent, Instr, decode};
use rv_memory::{Hole, Memory};
use std::alloc::{AllocError, Global};
use std::marker::Model;

/// What is loaded: the mapped bytes, where code words stand among them, and those of the words that can't be written, decoded.
#[derive(Debug, Drop)]
pub(crate) struct Loaded {
    memory: Memory,
    /// The number of the region that the last access was in.
    near_data: usize,
    /// The table that the last fetch was in, and the others.
    near: Table,
    others: Vec<Table>,
    code: Vec<Extent>,
    /// The place in `code` of the extent that the last fetch was in which was in no table; past its end before the first.
    near_code: usize,
    /// The number of the region that this fetch was in.
    near_word: usize,
}

impl Model for Loaded {
    ghost use Rattle.rv_memory.specs.Stretches.{memory_of};
    ghost use Rattle.rv_machine.specs.Inner.Decoded.{AreTables, Contents};

    ghost Value = { Contents };

    ghost view = { λ l. record { code = l.code.items; memory = l.memory } };

    ghost invariant = { λ l. AreTables l.code.items (memory_of l.memory) l.near l.others.items };
}

impl Loaded {
    /// With all the words decoded that can't be written.
    pub(crate) fn new(
        alloc: Global,
        memory: Memory,
        code: Vec<Extent>,
    ) -> Result<Loaded, AllocError>
        ensures { IfOk result (λ loaded. loaded ≡ record { code = code.items; memory = memory }) }
    {
        let others = tables_of(alloc, &memory, &code)?;
        let near_code = code.len();
        Ok(Loaded {
            memory,
            near_data: 0,
            near: Table::new(alloc),
            others,
            code,
            near_code,
            near_word: 0,
        })
    }

    /// The instruction at an address, `None` where no code word stands there.
    #[inline(always)]
    pub(crate) fn fetch(&mut self, address: u32) -> Option<Instr>
        ensures registers { IfSome result HasRegisters }
        ensures answer { result ≡ decoded_at self.old.code (memory_of self.old.memory) address }
        ensures same { self.new ≡ self.old }
    {
        match self.near.at(address) {
            Some(instr) => Some(instr),
            None => Some(decode(self.word_anywhere(address)?)),
        }
    }

    /// The code word at an address, of one that isn't in the near table: what memory has there now. The extent of the last such word in no
    /// table is asked first.
    #[inline(never)]
    fn word_anywhere(&mut self, address: u32) -> Option<u32>
        ensures word { result ≡ word_in_memory self.old.code (memory_of self.old.memory) address }
        ensures same { self.new ≡ self.old }
    {
        if holds_code(&self.code, self.near_code, address)
            && let Ok(word) = self.memory.read(&mut self.near_word, address, 4)
        {
            return Some(word);
        }
        self.word_far(address)
    }

    /// The same, of a word that may stand in another table or in none. A table that it stands in is the near one from now on.
    #[inline(never)]
    fn word_far(&mut self, address: u32) -> Option<u32>
        ensures word { result ≡ word_in_memory self.old.code (memory_of self.old.memory) address }
        ensures same { self.new ≡ self.old }
    {
        if self.takes_table(address) || self.finds_extent(address) {
            Some(self.word(address))
        } else {
            None
        }
    }

    /// The number of the four bytes that memory has from an address on.
    fn word(&mut self, address: u32) -> u32
        ensures word { result ≡ number_of (bytes_at (memory_of self.old.memory) (span address 4)) }
        ensures same { self.new ≡ self.old }
    {
        self.memory.word(&mut self.near_word, address)
    }

    /// Whether a code word stands at an address. The extent that it is in is the near one from now on.
    fn finds_extent(&mut self, address: u32) -> bool
        ensures found { result ≡ is_code self.old.code address }
        ensures same { self.new ≡ self.old }
    {
        finds_code(&self.code, &mut self.near_code, address)
    }

    /// Whether the word at an address stands in one of the tables that aren't near, which is then the near one.
    fn takes_table(&mut self, address: u32) -> bool
        ensures found { result ≡ true → is_code self.old.code address ≡ true }
        ensures same { self.new ≡ self.old }
    {
        self.decoded_at(address).is_some()
    }

    /// The instruction at an address, if it stands in one of the tables that aren't near. That table is the near one from now on.
    fn decoded_at(&mut self, address: u32) -> Option<Instr>
        ensures found { IfSome result (λ instr. IsInstr self.old.code (memory_of self.old.memory) address instr) }
        ensures same { self.new ≡ self.old }
    {
        look_for(&mut self.near, &mut self.others, address)
    }

    /// The mapped bytes.
    pub(crate) fn memory(&self) -> &Memory
        ensures { result.now ≡ self.now.memory }
    {
        &self.memory
    }

    /// The number that `size` bytes from an address on have, the lowest byte first.
    ///
    /// # Errors
    ///
    /// The first address of them where nothing is mapped.
    #[inline(always)]
    pub(crate) fn read(&mut self, address: u32, size: u8) -> Result<u32, Hole>
        requires { (size ≡ 1) ⊎ ((size ≡ 2) ⊎ (size ≡ 4)) }
        ensures answer { result ≡ read_at (memory_of self.old.memory) address size }
        ensures small { IfOk result (λ number. number < 256 ^ size) }
        ensures same { self.new ≡ self.old }
    {
        self.memory.read(&mut self.near_data, address, size)
    }

    /// Puts the lowest `size` bytes of a value from an address on, the lowest first.
    ///
    /// # Errors
    ///
    /// The first address of them where nothing that can be written is mapped. All is then as before.
    #[inline(always)]
    pub(crate) fn write(&mut self, address: u32, size: u8, value: u32) -> Result<(), Hole>
        requires { (size ≡ 1) ⊎ ((size ≡ 2) ⊎ (size ≡ 4)) }
        ensures answer { result ≡ hole_or (first_shut (memory_of self.old.memory) (span address size)) tt }
        ensures put { IfOk result (λ _. memory_of self.new.memory ≡ written (memory_of self.old.memory) (span address size) (bytes_of size value)) }
        ensures kept { IfErr result (λ _. self.new ≡ self.old) }
        ensures outline { outline self.new.memory.stretches ≡ outline self.old.memory.stretches }
        ensures code { self.new.code ≡ self.old.code }
    {
        self.memory.write(&mut self.near_data, address, size, value)
    }

    /// Puts bytes from an address on, all of which have to be writable.
    pub(crate) fn put(&mut self, address: u32, bytes: &[u8])
        requires { first_shut (memory_of self.old.memory) (span address (length bytes.now)) ≡ None }
        ensures put { memory_of self.new.memory ≡ written (memory_of self.old.memory) (span address (length bytes.now)) bytes.now }
        ensures outline { outline self.new.memory.stretches ≡ outline self.old.memory.stretches }
        ensures code { self.new.code ≡ self.old.code }
    {
        self.memory.put(address, bytes);
    }
}
