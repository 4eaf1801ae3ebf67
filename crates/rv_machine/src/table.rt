//! Code words that can't be written, decoded once.
ghost use Rattle.std.specs.Prelude.{◌≡◌, ◌*◌, ◌<◌, List, length, IfOk, IfSome, All};
ghost use Rattle.rv_code.specs.declared.extent.Extent.{Extent};
ghost use Rattle.rv_memory.specs.Stretches.{memory_of};
ghost use Rattle.rv_memory.specs.Memory.{Cell, span};
ghost use Rattle.rv_machine.specs.Inner.Decoded.{AreFixed, AreTables, HasWordsOf, IsInstr, IsTable};

use rv_code::{Extent, Instr, decode};
use rv_memory::Memory;
use std::alloc::{AllocError, Global};
use std::mem::swap;

/// The instructions of code words that can't be written, one behind the other from an address on.
#[derive(Debug, Drop)]
pub(crate) struct Table {
    pub(crate) start: u32,
    pub(crate) instrs: Vec<Instr>,
}

impl Table {
    /// A table of no words.
    pub(crate) fn new(alloc: Global) -> Table
        ensures { (code : List Extent) → (memory : List Cell) → IsTable code memory result }
    {
        Table {
            start: 0,
            instrs: Vec::new(alloc),
        }
    }

    /// The instruction of the word at the address, if it stands in this table.
    #[inline(always)]
    pub(crate) fn at(&self, address: u32) -> Option<Instr>
        ensures { (code : List Extent) → (memory : List Cell) → IsTable code memory self.now → IfSome result (λ instr. IsInstr code memory address instr) }
    {
        let offset = address.wrapping_sub(self.start);
        let place = (offset / 4) as usize;
        if offset % 4 == 0 && place < self.instrs.len() {
            Some(self.instrs[place])
        } else {
            None
        }
    }
}

/// The number of the table in which the word at the address stands.
fn number_with(tables: &[Table], address: u32) -> Option<usize>
    ensures { IfSome result (λ number. number < length tables.now) }
{
    for (number, table) in tables.iter().enumerate() {
        if table.at(address).is_some() {
            return Some(number);
        }
    }
    None
}

/// The instruction of the word at the address, if it stands in one of the tables, which then changes places with `near`.
pub(crate) fn look_for(near: &mut Table, tables: &mut [Table], address: u32) -> Option<Instr>
    ensures count { length tables.new ≡ length tables.old }
    ensures found { (code : List Extent) → (memory : List Cell) → AreTables code memory near.old tables.old →
        AreTables code memory near.new tables.new × IfSome result (λ instr. IsInstr code memory address instr) }
{
    let number = number_with(tables, address)?;
    swap(near, &mut tables[number]);
    near.at(address)
}

/// The tables of the extents whose first words can't be written.
pub(crate) fn tables_of(
    alloc: Global,
    memory: &Memory,
    code: &[Extent],
) -> Result<Vec<Table>, AllocError>
    ensures { IfOk result (λ tables. All (λ table. IsTable code.now (memory_of memory.now) table) tables.items) }
{
    let mut tables = Vec::with_capacity(alloc, code.len())?;
    for extent in code {
        let count = memory.fixed_from(extent.start) / 4;
        if count > 0 {
            tables.push(table_of(alloc, memory, extent, count)?)?;
        }
    }
    Ok(tables)
}

/// The instructions of the words of an extent, at most so many, none of which can be written.
fn table_of(
    alloc: Global,
    memory: &Memory,
    extent: &Extent,
    fixed: usize,
) -> Result<Table, AllocError>
    requires { AreFixed (memory_of memory.now) (span extent.now.start (4 * fixed)) }
    ensures { IfOk result (λ table. (code : List Extent) → HasWordsOf code extent.now → IsTable code (memory_of memory.now) table) }
{
    let count = (extent.count as usize).min(fixed);
    let mut instrs = Vec::with_capacity(alloc, count)?;
    let mut near = 0;
    let mut address = extent.start;
    for _place in 0..count {
        if !extent.has_word(address) {
            break;
        }
        instrs.push(decode(memory.word(&mut near, address)))?;
        address = address.wrapping_add(4);
    }
    Ok(Table {
        start: extent.start,
        instrs,
    })
}
