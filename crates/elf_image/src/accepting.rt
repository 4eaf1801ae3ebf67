//! Accepting executables.
ghost use Rattle.std.specs.Prelude.{◌≡◌, ◌≢◌, ℕ, ◌<◌, ◌≤◌, ◌^◌, ⊤, List, length, None, Some, IfOk, IfErr, IfSome, IsTrue, MatchOption, is_some};
ghost use Rattle.elf_raw.specs.Raw.{raw_of};
ghost use Rattle.elf_raw.specs.Refusal.{IsSound};
ghost use Rattle.elf_raw.specs.Tables.{AreTablesOf};
ghost use Rattle.rv_code.specs.Limits.{words_limit};
ghost use Rattle.rv_code.specs.Places.{code_addresses};
ghost use Rattle.elf_image.specs.Accepted.{IsAccepted, image_of};
ghost use Rattle.elf_image.specs.CodeWords.{code_load, extents_in};
ghost use Rattle.elf_image.specs.Loads.{bad_program_header, has_note};
ghost use Rattle.elf_image.specs.Inner.Loaded.{loaded_length};
ghost use Rattle.elf_image.specs.Refusal.{over_of, code_refusal, image_refusal, IsAcceptFault};

use crate::loads::{bad_segment, has_note, is_dynamic};
use crate::names::names_of;
use crate::note::note_in;
use crate::regions::{mapped_length, regions_of};
use crate::relocations::{bad_relocation, named_of};
use crate::sections::{code_extents, is_code, word_count};
use crate::words::{code_load, ranges_of};
use crate::{ImageFault, Over};
use elf_raw::{RawElf, RawSegment};
use rv_code::{Extent, Image, ListOf, MAPPED_LIMIT, NOTED_WORDS_LIMIT, RANGES_LIMIT, WORDS_LIMIT};
use std::alloc::{AllocError, Global};

/// The most code words.
fn words_limit(noted: bool) -> u32
    ensures { result ≡ words_limit noted }
{
    if noted {
        NOTED_WORDS_LIMIT
    } else {
        WORDS_LIMIT
    }
}

/// What a file with these program headers has too much of, if anything, where its code words stand at these extents.
fn too_large(segments: &[RawSegment], extents: &[Extent]) -> Option<Over>
    requires segments { length segments.now < 2 ^ 32 }
    requires extents { length extents.now < 2 ^ 32 }
    ensures over { result ≡ over_of (has_note segments.now) (loaded_length segments.now) (length extents.now) (length (code_addresses extents.now)) }
    ensures read { IfSome result (λ what. what ≢ Over.File) }
{
    if mapped_length(segments) > u64::from(MAPPED_LIMIT) {
        return Some(Over::Mapped);
    }
    if extents.len() > RANGES_LIMIT as usize {
        return Some(Over::Ranges);
    }
    if word_count(extents) > u64::from(words_limit(has_note(segments))) {
        return Some(Over::Words);
    }
    None
}

/// The refusal of the relocation with this number. One with a number of more than 32 bits stands behind 64 GiB of others: the
/// answer is then that memory is wanting.
fn relocation_fault(number: usize) -> ImageFault
    ensures numbered { number < 2 ^ 32 → result ≡ ImageFault.BadRelocation number }
    ensures past { 2 ^ 32 ≤ number → result ≡ ImageFault.NoMemory }
{
    match u32::try_from(number) {
        Ok(index) => ImageFault::BadRelocation { index },
        Err(_) => ImageFault::NoMemory,
    }
}

/// Why the file's code isn't accepted, if anything speaks against it. Its code words stand at these extents.
fn code_refusal(raw: &RawElf, extents: &[Extent]) -> Option<ImageFault>
    requires read { (bytes : List ℕ) × (raw.now ≡ raw_of bytes) }
    requires few { length extents.now < 2 ^ 32 }
    requires segments { length raw.now.segments < 2 ^ 32 }
    ensures first { (bytes : List ℕ) → raw.now ≡ raw_of bytes → IsSound bytes → bad_program_header bytes ≡ None → extents.now ≡ extents_in bytes → result ≢ Some ImageFault.NoMemory → result ≡ code_refusal bytes }
    ensures own { MatchOption result ⊤ IsAcceptFault }
{
    if extents.is_empty() {
        return Some(ImageFault::NoCode);
    }
    if !is_code(extents, raw.header.entry) {
        return Some(ImageFault::EntryNotCode);
    }
    if let Some(number) = bad_relocation(raw) {
        return Some(relocation_fault(number));
    }
    match too_large(raw.segments.as_slice(), extents) {
        Some(what) => Some(ImageFault::TooLarge { what }),
        None => None,
    }
}

/// The image of a file that isn't refused. Its code is loaded by `load`, and its code words stand at these extents.
fn read_image(
    alloc: Global,
    raw: &RawElf,
    bytes: &[u8],
    load: &RawSegment,
    extents: &[Extent],
) -> Result<Image, AllocError>
    requires read { raw.now ≡ raw_of bytes.now }
    requires sound { IsSound bytes.now }
    requires good { bad_program_header bytes.now ≡ None }
    requires load { load.now ≡ code_load bytes.now }
    requires extents { extents.now ≡ extents_in bytes.now }
    requires accepted { code_refusal bytes.now ≡ None }
    ensures { IfOk result (λ image. image ≡ image_of bytes.now) }
{
    let regions = regions_of(alloc, raw, bytes)?;
    let code = ranges_of(alloc, bytes, load, extents)?;
    let names = names_of(alloc, raw.symbols.as_slice(), extents)?;
    let named = named_of(alloc, raw, bytes, extents)?;
    let note = note_in(alloc, raw, bytes)?;
    Ok(Image {
        entry: raw.header.entry,
        regions: ListOf::from_vec(regions),
        code: ListOf::from_vec(code),
        names: ListOf::from_vec(names),
        named: ListOf::from_vec(named),
        note,
    })
}

/// The image of a file of whose program headers none offends, if nothing else speaks against it.
fn accept_code(alloc: Global, raw: &RawElf, bytes: &[u8]) -> Result<Image, ImageFault>
    requires read { raw.now ≡ raw_of bytes.now }
    requires sound { IsSound bytes.now }
    requires good { bad_program_header bytes.now ≡ None }
    ensures image { IfOk result (λ image. image ≡ image_of bytes.now) }
    ensures accepted { IfOk result (λ _. code_refusal bytes.now ≡ None) }
    ensures refused { IfErr result (λ fault. fault ≢ ImageFault.NoMemory → code_refusal bytes.now ≡ Some fault) }
    ensures own { IfErr result IsAcceptFault }
{
    let load = code_load(raw.segments.as_slice());
    let Ok(extents) = code_extents(alloc, load, raw.sections.as_slice()) else {
        return Err(ImageFault::NoMemory);
    };
    if let Some(fault) = code_refusal(raw, &extents) {
        return Err(fault);
    }
    match read_image(alloc, raw, bytes, load, &extents) {
        Ok(image) => Ok(image),
        Err(AllocError) => Err(ImageFault::NoMemory),
    }
}

/// The image of an executable whose tables these are.
///
/// # Errors
///
/// The first refusal that holds, in the order of [`ImageFault`]; or memory was wanting.
pub fn accept(alloc: Global, raw: &RawElf, bytes: &[u8]) -> Result<Image, ImageFault>
    requires { AreTablesOf raw.now bytes.now }
    ensures accepted { IfOk result (IsAccepted bytes.now) }
    ensures refused { IfErr result (λ fault. fault ≢ ImageFault.NoMemory → image_refusal bytes.now ≡ Some fault) }
    ensures own { IfErr result IsAcceptFault }
{
    if is_dynamic(raw.segments.as_slice()) {
        return Err(ImageFault::Dynamic);
    }
    match bad_segment(alloc, raw, bytes) {
        Ok(Some(index)) => Err(ImageFault::Segments { index }),
        Ok(None) => accept_code(alloc, raw, bytes),
        Err(AllocError) => Err(ImageFault::NoMemory),
    }
}

/// Whether an executable may be rewritten, or traced as an original: it has no note.
///
/// # Errors
///
/// [`ImageFault::Traced`] exactly where the image has a note.
pub fn for_rewrite(image: &Image) -> Result<(), ImageFault>
    ensures plain { IfOk result (λ _. image.now.note ≡ None) }
    ensures traced { IfErr result (λ fault. (fault ≡ ImageFault.Traced) × IsTrue (is_some image.now.note)) }
{
    match image.note {
        Some(_) => Err(ImageFault::Traced),
        None => Ok(()),
    }
}
