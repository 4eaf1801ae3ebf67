//! What a file puts into memory, in the order of addresses.
ghost use Rattle.std.specs.Prelude.{◌≡◌, ◌≢◌, ◌≤◌, ◌<◌, ◌^◌, All, AllPairs, false, filter, is_some, map, None, IfOk, length};
ghost use Rattle.std.specs.List.{AllByRecursion};
ghost use Rattle.rv_code.specs.Ordered.{ordered};
ghost use Rattle.elf_raw.specs.Raw.{raw_of};
ghost use Rattle.elf_raw.specs.Refusal.{IsSound, reaches_past};
ghost use Rattle.rv_code.specs.Image.{IsRegion, RegionsRise};
ghost use Rattle.rv_code.specs.Limits.{regions_limit};
ghost use Rattle.elf_image.specs.Loads.{is_load, bad_program_header, region_of, regions_of, note_in};
ghost use Rattle.elf_image.specs.Inner.Loaded.{loaded_length};

use crate::loads::{is_load, is_writable, piece_of};
use elf_raw::{RawElf, RawSegment};
use rv_code::{ListOf, Region, TRACER_START};
use std::alloc::{AllocError, Global};

/// The program headers that are loaded, in their order.
fn loads_of(alloc: Global, segments: &[RawSegment]) -> Result<Vec<RawSegment>, AllocError>
    ensures { IfOk result (λ loads. loads.items ≡ filter is_load segments.now) }
{
    segments
        .iter()
        .copied()
        .filter(|segment| is_load(segment))
        .collect(alloc)
}

/// The same in the order of their addresses, where no two begin at one address.
fn loads_in_order(alloc: Global, segments: &[RawSegment]) -> Result<Vec<RawSegment>, AllocError>
    requires { AllPairs (λ one other. one.vaddr ≢ other.vaddr) (filter is_load segments.now) }
    ensures { IfOk result (λ loads.
        loads.items ≡ ordered (λ load. load.vaddr) (filter is_load segments.now)) }
{
    let mut loads = loads_of(alloc, segments)?;
    loads.sort_unstable_by_key(|load| load.vaddr);
    Ok(loads)
}

/// What a program header loads, zeros behind the bytes of the file.
fn region_of(alloc: Global, bytes: &[u8], segment: &RawSegment) -> Result<Region, AllocError>
    requires within { reaches_past bytes.now segment.now.offset segment.now.filesz ≡ false }
    requires whole { segment.now.filesz ≤ segment.now.memsz }
    ensures { IfOk result (λ region. region ≡ region_of bytes.now segment.now) }
{
    let piece = Vec::from_slice(alloc, piece_of(bytes, segment))?;
    Ok(Region {
        start: segment.vaddr,
        bytes: ListOf::from_vec(piece),
        zeros: segment.memsz - segment.filesz,
        writable: is_writable(segment),
    })
}

/// What program headers load, each by itself.
fn read_regions(
    alloc: Global,
    bytes: &[u8],
    loads: &[RawSegment],
) -> Result<Vec<Region>, AllocError>
    requires within { All (λ load. reaches_past bytes.now load.offset load.filesz ≡ false) loads.now }
    requires whole { All (λ load. load.filesz ≤ load.memsz) loads.now }
    ensures { IfOk result (λ regions. regions.items ≡ map (region_of bytes.now) loads.now) }
{
    let mut regions = Vec::with_capacity(alloc, loads.len())?;
    for load in loads {
        regions.push(region_of(alloc, bytes, load)?)?;
    }
    Ok(regions)
}

/// What a file puts into memory of whose program headers none offends, in the order of addresses.
pub fn regions_of(alloc: Global, raw: &RawElf, bytes: &[u8]) -> Result<Vec<Region>, AllocError>
    requires read { raw.now ≡ raw_of bytes.now }
    requires sound { IsSound bytes.now }
    requires good { bad_program_header bytes.now ≡ None }
    ensures same { IfOk result (λ regions. regions.items ≡ regions_of bytes.now) }
    ensures each { IfOk result (λ regions.
        AllByRecursion (IsRegion (is_some (note_in bytes.now))) regions.items) }
    ensures rise { IfOk result (λ regions. RegionsRise regions.items) }
    ensures few { IfOk result (λ regions.
        length regions.items ≤ regions_limit (is_some (note_in bytes.now))) }
{
    let loads = loads_in_order(alloc, raw.segments.as_slice())?;
    read_regions(alloc, bytes, &loads)
}

/// How many bytes in memory the program headers load below the tracer's.
pub fn mapped_length(segments: &[RawSegment]) -> u64
    requires { length segments.now < 2 ^ 32 }
    ensures { result ≡ loaded_length segments.now }
{
    segments
        .iter()
        .filter(|segment| is_load(segment) && segment.vaddr < TRACER_START)
        .map(|segment| u64::from(segment.memsz))
        .sum()
}
