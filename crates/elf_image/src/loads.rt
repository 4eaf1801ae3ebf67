//! Program headers: which are loaded, and which offends.
ghost use Rattle.std.specs.Prelude.{◌≡◌, ◌<◌, ◌&&◌, ◌||◌, not, ◌++◌, ◌∷◌, [], if◌then◌else◌, false, IfOk};
ghost use Rattle.std.specs.List.{list_any};
ghost use Rattle.elf_raw.specs.Raw.{raw_of};
ghost use Rattle.elf_raw.specs.Refusal.{IsSound, reaches_past};
ghost use Rattle.rv_code.specs.Limits.{regions_limit};
ghost use Rattle.elf_image.specs.NoteBytes.{is_note};
ghost use Rattle.elf_image.specs.Loads.{is_load, is_dynamic, is_note_header, is_executable, is_writable_load, is_code_load, piece_of, has_note, load_end, is_allowed, shares_byte, load_offends, bad_note, bad_program_header};

use crate::note::is_note;
use elf_raw::{RawElf, RawSegment};
use rv_code::{NOTED_REGIONS_LIMIT, REGIONS_LIMIT, STACK_START, TRACER_START};
use std::alloc::{AllocError, Global};

/// The first number that is no address.
const ADDRESSES_END: u64 = 0x1_0000_0000;

/// Whether a program header of type PT_DYNAMIC or PT_INTERP is there.
pub fn is_dynamic(segments: &[RawSegment]) -> bool
    ensures { result ≡ list_any is_dynamic segments.now }
{
    segments
        .iter()
        .any(|segment| segment.kind == 2 || segment.kind == 3)
}

/// Whether the program header has the note's type.
pub fn is_note_header(segment: &RawSegment) -> bool
    ensures { result ≡ is_note_header segment.now }
{
    segment.kind == 0x6041_4531
}

/// Whether a program header of the note's type is there, whatever its bytes are.
pub fn has_note(segments: &[RawSegment]) -> bool
    ensures { result ≡ has_note segments.now }
{
    segments.iter().any(is_note_header)
}

/// Whether the program header is loaded: of type PT_LOAD, with bytes in memory.
pub fn is_load(segment: &RawSegment) -> bool
    ensures { result ≡ is_load segment.now }
{
    segment.kind == 1 && segment.memsz != 0
}

/// Whether it may be executed (PF_X).
pub fn is_executable(segment: &RawSegment) -> bool
    ensures { result ≡ is_executable segment.now }
{
    segment.flags % 2 == 1
}

/// Whether it may be written (PF_W).
pub fn is_writable(segment: &RawSegment) -> bool
    ensures { result ≡ is_writable_load segment.now }
{
    segment.flags / 2 % 2 == 1
}

/// The bytes of a program header in the file.
pub fn piece_of<'a>(bytes: &'a [u8], segment: &RawSegment) -> &'a [u8]
    requires { reaches_past bytes.now segment.now.offset segment.now.filesz ≡ false }
    ensures { result.now ≡ piece_of bytes.now segment.now }
{
    if segment.filesz == 0 {
        return &bytes[..0];
    }
    &bytes[segment.offset as usize..][..segment.filesz as usize]
}

/// The first address behind it.
fn load_end(segment: &RawSegment) -> u64
    ensures { result ≡ load_end segment.now }
{
    u64::from(segment.vaddr) + u64::from(segment.memsz)
}

/// Whether it lies below the stack or, in a file with a note, with the tracer's.
fn is_allowed(noted: bool, segment: &RawSegment) -> bool
    ensures { result ≡ is_allowed noted segment.now }
{
    load_end(segment) <= u64::from(STACK_START)
        || (noted && TRACER_START <= segment.vaddr && load_end(segment) <= ADDRESSES_END)
}

/// Whether two that have bytes in memory have one in common.
fn shares_byte(one: &RawSegment, other: &RawSegment) -> bool
    ensures { result ≡ shares_byte one.now other.now }
{
    u64::from(one.vaddr) < load_end(other) && u64::from(other.vaddr) < load_end(one)
}

/// How many program headers a file may load.
fn loads_limit(noted: bool) -> u32
    ensures { result ≡ regions_limit noted }
{
    if noted {
        NOTED_REGIONS_LIMIT
    } else {
        REGIONS_LIMIT
    }
}

/// Whether it has a byte in memory that an earlier one has.
fn shares_earlier(earlier: &[RawSegment], segment: &RawSegment) -> bool
    ensures { result ≡ list_any (shares_byte segment.now) earlier.now }
{
    earlier.iter().any(|other| shares_byte(segment, other))
}

/// Whether one of them may be executed.
fn has_executable(segments: &[RawSegment]) -> bool
    ensures { result ≡ list_any is_executable segments.now }
{
    segments.iter().any(is_executable)
}

/// Whether a program header that is loaded offends behind the earlier ones that are.
fn load_offends(noted: bool, earlier: &[RawSegment], segment: &RawSegment) -> bool
    ensures { result ≡ load_offends noted earlier.now segment.now }
{
    segment.memsz < segment.filesz
        || !is_allowed(noted, segment)
        || shares_earlier(earlier, segment)
        || (is_executable(segment) && has_executable(earlier))
        || loads_limit(noted) as usize <= earlier.len()
}

/// Whether it is loaded, and offends behind the earlier ones that are.
fn is_bad_load(noted: bool, earlier: &[RawSegment], segment: &RawSegment) -> bool
    ensures { result ≡ (is_load segment.now && load_offends noted earlier.now segment.now) }
{
    is_load(segment) && load_offends(noted, earlier, segment)
}

/// Adds the program header, if it is loaded.
fn add_load(loads: &mut Vec<RawSegment>, segment: &RawSegment) -> Result<(), AllocError>
    ensures { IfOk result (λ _.
        loads.new.items ≡ loads.old.items ++ (if is_load segment.now then segment.now ∷ [] else [])) }
{
    if is_load(segment) {
        loads.push(*segment)?;
    }
    Ok(())
}

/// Whether it is of the note's type, and its bytes aren't a note or an earlier one is there.
fn is_bad_note(bytes: &[u8], before: &[RawSegment], segment: &RawSegment) -> bool
    requires { reaches_past bytes.now segment.now.offset segment.now.filesz ≡ false }
    ensures { result ≡ (is_note_header segment.now
        && (not (is_note (piece_of bytes.now segment.now)) || has_note before.now)) }
{
    is_note_header(segment) && (!is_note(piece_of(bytes, segment)) || has_note(before))
}

/// The number of the first program header of the note's type that offends.
fn bad_note(raw: &RawElf, bytes: &[u8]) -> Option<u32>
    requires read { raw.now ≡ raw_of bytes.now }
    requires sound { IsSound bytes.now }
    ensures { result ≡ bad_note bytes.now }
{
    let segments = raw.segments.as_slice();
    for number in 0..raw.header.phnum {
        let place = number as usize;
        if is_bad_note(bytes, &segments[..place], &segments[place]) {
            return Some(u32::from(number));
        }
    }
    None
}

/// Whether one of them loads code.
fn loads_code(segments: &[RawSegment]) -> bool
    ensures { result ≡ list_any is_code_load segments.now }
{
    segments
        .iter()
        .any(|segment| is_load(segment) && is_executable(segment))
}

/// The number of the first program header that offends, counted from 0: of what is loaded; then their number, where no
/// code is loaded; then of notes. A program header of type PT_LOAD with no bytes in memory is passed over.
pub fn bad_segment(alloc: Global, raw: &RawElf, bytes: &[u8]) -> Result<Option<u32>, AllocError>
    requires read { raw.now ≡ raw_of bytes.now }
    requires sound { IsSound bytes.now }
    ensures { IfOk result (λ index. index ≡ bad_program_header bytes.now) }
{
    let segments = raw.segments.as_slice();
    let noted = has_note(segments);
    let mut loads = Vec::new(alloc);
    for number in 0..raw.header.phnum {
        let segment = &segments[number as usize];
        if is_bad_load(noted, &loads, segment) {
            return Ok(Some(u32::from(number)));
        }
        add_load(&mut loads, segment)?;
    }
    if !loads_code(segments) {
        return Ok(Some(u32::from(raw.header.phnum)));
    }
    Ok(bad_note(raw, bytes))
}
