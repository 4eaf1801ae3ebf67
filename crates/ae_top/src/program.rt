//! The program that a command names: reading it, and loading the machine with it.
ghost use Rattle.std.specs.Prelude.{◌≡◌, ◌≤◌, None, length, IfOk, IfErr, IsErrOf};
ghost use Rattle.ae_ports.specs.Files.{SameFiles, HasBytes};
ghost use Rattle.elf_raw.specs.Tables.{AreTablesOf};
ghost use Rattle.ae_top.specs.NoFile.{IsNotTaken, Lacks};
ghost use Rattle.ae_top.specs.Inner.Loading.{asked_by, IsLoaded, IsLoadedFrom};
ghost use Rattle.ae_top.specs.Refusing.{tables_refusal, refusal_of};
ghost use Rattle.ae_top.specs.Running.{IsUsable};
ghost use Rattle.ae_top.specs.World.{Blames};

use crate::Refusal;
use crate::no_file::{NoFile, NotTaken};
use crate::reading::{ReadFault, read_file};
use ae_ports::{Failed, Store, Word};
use elf_image::{ImageFault, Over, accept, for_rewrite};
use elf_raw::{ElfFault, FILE_LIMIT, RawElf, read_raw};
use rv_code::Image;
use rv_machine::Machine;
use std::alloc::{AllocError, Global};

/// Which executables a command works on.
#[derive(Clone, Copy, Debug, PartialEq, Eq)]
pub enum Wanted {
    /// Any.
    Any,
    /// One that hasn't been rewritten.
    Original,
}

/// The bytes of a file, or why they aren't to be had or are too many. Of a file that is too long nothing is read, and no
/// memory is taken for it.
pub fn read_program<S: Store>(alloc: Global, store: &mut S, name: &Word) -> Result<Vec<u8>, NoFile>
    ensures bytes { IfOk result (λ bytes. HasBytes (S.told store.old) name.now bytes.items) }
    ensures small { IfOk result (λ bytes. length bytes.items ≤ FILE_LIMIT) }
    ensures lacks { IfErr result (Lacks tables_refusal (S.told store.old) name.now) }
    ensures blames { Blames (IsErrOf result NoFile.StoreFault) (S.faults store.old) (S.faults store.new) }
    ensures files { SameFiles (S.told store.old) (S.told store.new) }
    ensures rest { S.same_rest store.old store.new }
{
    let size = match store.size(name) {
        Ok(Some(size)) => size,
        Ok(None) => return Err(NoFile::Missing),
        Err(Failed) => return Err(NoFile::StoreFault),
    };
    if size > FILE_LIMIT {
        let fault = ImageFault::TooLarge { what: Over::File };
        let refusal = Refusal::Image(fault);
        return Err(NoFile::NotTaken(NotTaken::Refused(refusal)));
    }
    match read_file(alloc, store, name, size as usize) {
        Ok(bytes) => Ok(bytes),
        Err(ReadFault::NoMemory) => Err(NoFile::NotTaken(NotTaken::NoMemory)),
        Err(ReadFault::Failed) => Err(NoFile::StoreFault),
    }
}

/// The tables of a file, or why they aren't taken.
pub fn read_tables(alloc: Global, bytes: &[u8]) -> Result<RawElf, NotTaken>
    requires small { length bytes.now ≤ FILE_LIMIT }
    ensures tables { IfOk result (λ raw. AreTablesOf raw bytes.now) }
    ensures asked { IfOk result (λ _. tables_refusal bytes.now ≡ None) }
    ensures refuses { IfErr result (λ why. IsNotTaken tables_refusal why bytes.now) }
{
    match read_raw(alloc, bytes) {
        Ok(raw) => Ok(raw),
        Err(ElfFault::NoMemory) => Err(NotTaken::NoMemory),
        Err(fault) => Err(NotTaken::Refused(Refusal::Elf(fault))),
    }
}

/// The image of a file, or why it isn't accepted.
pub fn accept_file(alloc: Global, bytes: &[u8]) -> Result<Image, NotTaken>
    requires small { length bytes.now ≤ FILE_LIMIT }
    ensures usable { IfOk result (IsUsable refusal_of bytes.now) }
    ensures refuses { IfErr result (λ why. IsNotTaken refusal_of why bytes.now) }
{
    let raw = read_tables(alloc, bytes)?;
    match accept(alloc, &raw, bytes) {
        Ok(image) => Ok(image),
        Err(ImageFault::NoMemory) => Err(NotTaken::NoMemory),
        Err(fault) => Err(NotTaken::Refused(Refusal::Image(fault))),
    }
}

/// The image of a file, or why it isn't one that is wanted.
pub fn accept_wanted(alloc: Global, bytes: &[u8], wanted: Wanted) -> Result<Image, NotTaken>
    requires small { length bytes.now ≤ FILE_LIMIT }
    ensures usable { IfOk result (IsUsable (asked_by wanted) bytes.now) }
    ensures no_note { IfOk result (λ image. wanted ≡ Wanted.Original → image.note ≡ None) }
    ensures refuses { IfErr result (λ why. IsNotTaken (asked_by wanted) why bytes.now) }
{
    let image = accept_file(alloc, bytes)?;
    match wanted {
        Wanted::Any => Ok(image),
        Wanted::Original => match for_rewrite(&image) {
            Ok(()) => Ok(image),
            Err(fault) => Err(NotTaken::Refused(Refusal::Image(fault))),
        },
    }
}

/// A machine with the image of the file with these bytes, before its first step; or why there is none.
fn load_file(alloc: Global, bytes: &[u8], wanted: Wanted) -> Result<Machine, NotTaken>
    requires small { length bytes.now ≤ FILE_LIMIT }
    ensures loaded { IfOk result (IsLoadedFrom (asked_by wanted) bytes.now) }
    ensures no_note { IfOk result (λ machine. wanted ≡ Wanted.Original → machine.note ≡ None) }
    ensures refuses { IfErr result (λ why. IsNotTaken (asked_by wanted) why bytes.now) }
{
    let image = accept_wanted(alloc, bytes, wanted)?;
    match Machine::load(alloc, &image) {
        Ok(machine) => Ok(machine),
        Err(AllocError) => Err(NotTaken::NoMemory),
    }
}

/// A machine with the image of the program that the store has under this name, before its first step; or why there is none.
pub fn load_program<S: Store>(
    alloc: Global,
    store: &mut S,
    name: &Word,
    wanted: Wanted,
) -> Result<Machine, NoFile>
    ensures loaded { IfOk result (IsLoaded (asked_by wanted) (S.told store.old) name.now) }
    ensures ready { IfOk result (λ machine. machine.kept ≡ None) }
    ensures no_note { IfOk result (λ machine. wanted ≡ Wanted.Original → machine.note ≡ None) }
    ensures lacks { IfErr result (Lacks (asked_by wanted) (S.told store.old) name.now) }
    ensures blames { Blames (IsErrOf result NoFile.StoreFault) (S.faults store.old) (S.faults store.new) }
    ensures files { SameFiles (S.told store.old) (S.told store.new) }
    ensures rest { S.same_rest store.old store.new }
{
    let bytes = read_program(alloc, store, name)?;
    match load_file(alloc, &bytes, wanted) {
        Ok(machine) => Ok(machine),
        Err(why) => Err(NoFile::NotTaken(why)),
    }
}
