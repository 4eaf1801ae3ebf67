ghost use Rattle.std.specs.Prelude.{◌≡◌, ◌≢◌, ◌≤◌, length, Some, IfOk, IfErr};
ghost use Rattle.elf_raw.specs.Raw.{raw_of};
ghost use Rattle.elf_raw.specs.Tables.{AreTablesOf};
ghost use Rattle.elf_raw.specs.Refusal.{elf_refusal, IsSound};

use crate::header::read_header;
use crate::refusing::refusal_of;
use crate::symbols::read_symbols;
use crate::tables::{read_relocations, read_sections, read_segments};
use crate::{ElfFault, FILE_LIMIT, RawElf};
use rv_code::ListOf;
use std::alloc::{AllocError, Global};

/// The tables of a file that isn't refused.
fn read_tables(alloc: Global, bytes: &[u8]) -> Result<RawElf, AllocError>
    requires sound { IsSound bytes.now }
    requires small { length bytes.now ≤ FILE_LIMIT }
    ensures { IfOk result (λ raw. raw ≡ raw_of bytes.now) }
{
    let header = read_header(bytes);
    let segments = read_segments(alloc, bytes, &header)?;
    let sections = read_sections(alloc, bytes, &header)?;
    let symbols = read_symbols(alloc, bytes, &header)?;
    let relocations = read_relocations(alloc, bytes, &header)?;
    Ok(RawElf {
        header,
        segments: ListOf::from_vec(segments),
        sections: ListOf::from_vec(sections),
        symbols: ListOf::from_vec(symbols),
        relocations: ListOf::from_vec(relocations),
    })
}

/// The tables of an ELF32 file of at most 268,435,456 bytes.
///
/// # Errors
///
/// The first refusal that holds, in the order of [`ElfFault`]; or memory was wanting.
#[tactic(auto, using(crate::proofs::Sound::sound))]
pub fn read_raw(alloc: Global, bytes: &[u8]) -> Result<RawElf, ElfFault>
    requires { length bytes.now ≤ FILE_LIMIT }
    ensures read { IfOk result (λ raw. AreTablesOf raw bytes.now) }
    ensures refused { IfErr result (λ fault. fault ≢ ElfFault.NoMemory → elf_refusal bytes.now ≡ Some fault) }
{
    if let Some(fault) = refusal_of(bytes) {
        return Err(fault);
    }
    match read_tables(alloc, bytes) {
        Ok(raw) => Ok(raw),
        Err(AllocError) => Err(ElfFault::NoMemory),
    }
}
