//! The note of a rewritten executable.
ghost use Rattle.std.specs.Prelude.{◌≡◌, ◌+◌, ◌<◌, ◌≤◌, length, true, None, IfOk, IfSome};
ghost use Rattle.std.specs.List.{find};
ghost use Rattle.std.specs.Option.{option_copied};
ghost use Rattle.elf_raw.specs.Raw.{raw_of};
ghost use Rattle.elf_raw.specs.Refusal.{IsSound};
ghost use Rattle.rv_code.specs.Image.{IsNote};
ghost use Rattle.elf_image.specs.Loads.{is_note_header, bad_program_header, note_in};
ghost use Rattle.elf_image.specs.NoteBytes.{has_note_magic, has_note_length, mark_count, mark_of, rises_at, marks_rise, is_aligned_at, originals_are_aligned, is_note, note_of};

use crate::loads::{is_note_header, piece_of};
use elf_raw::{RawElf, RawSegment, word_at};
use rv_code::{ListOf, Mark, Note};
use std::alloc::{AllocError, Global};

/// The bytes before the first mark.
const MARKS_START: usize = 28;

/// The bytes of a mark.
const MARK_SIZE: usize = 8;

/// The number of marks that the bytes say.
fn mark_count(piece: &[u8]) -> u32
    requires { 28 ≤ length piece.now }
    ensures { result ≡ mark_count piece.now }
{
    word_at(piece, 24)
}

/// Whether there are as many bytes as the number of marks says.
fn has_note_length(piece: &[u8]) -> bool
    ensures { result ≡ has_note_length piece.now }
{
    MARKS_START <= piece.len()
        && piece.len() == MARKS_START + MARK_SIZE * mark_count(piece) as usize
}

/// Whether the bytes begin as a note's.
fn has_note_magic(piece: &[u8]) -> bool
    ensures { result ≡ has_note_magic piece.now }
{
    piece.starts_with(b"AEN1")
}

/// The mark with this number.
fn mark_of(piece: &[u8], number: u32) -> Mark
    requires length { has_note_length piece.now ≡ true }
    requires number { number < mark_count piece.now }
    ensures { result ≡ mark_of piece.now number }
{
    let at = MARKS_START + MARK_SIZE * number as usize;
    Mark {
        from: word_at(piece, at),
        original: word_at(piece, at + 4),
    }
}

/// Whether the mark with this number begins below the next.
fn rises_at(piece: &[u8], number: u32) -> bool
    requires length { has_note_length piece.now ≡ true }
    requires number { number + 1 < mark_count piece.now }
    ensures { result ≡ rises_at piece.now number }
{
    mark_of(piece, number).from < mark_of(piece, number + 1).from
}

/// Whether the marks' from addresses rise.
fn marks_rise(piece: &[u8]) -> bool
    requires { has_note_length piece.now ≡ true }
    ensures { result ≡ marks_rise piece.now }
{
    for number in 0..mark_count(piece).saturating_sub(1) {
        if !rises_at(piece, number) {
            return false;
        }
    }
    true
}

/// Whether the original address of the mark with this number is a multiple of 4.
fn is_aligned_at(piece: &[u8], number: u32) -> bool
    requires length { has_note_length piece.now ≡ true }
    requires number { number < mark_count piece.now }
    ensures { result ≡ is_aligned_at piece.now number }
{
    mark_of(piece, number).original % 4 == 0
}

/// Whether the marks' original addresses are multiples of 4.
fn originals_are_aligned(piece: &[u8]) -> bool
    requires { has_note_length piece.now ≡ true }
    ensures { result ≡ originals_are_aligned piece.now }
{
    for number in 0..mark_count(piece) {
        if !is_aligned_at(piece, number) {
            return false;
        }
    }
    true
}

/// Whether the bytes are a note.
pub fn is_note(piece: &[u8]) -> bool
    ensures { result ≡ is_note piece.now }
{
    has_note_length(piece)
        && has_note_magic(piece)
        && word_at(piece, 4) % 4 == 0
        && word_at(piece, 8) % 4 == 0
        && marks_rise(piece)
        && originals_are_aligned(piece)
}

/// What the bytes of a note say.
pub fn read_note(alloc: Global, piece: &[u8]) -> Result<Note, AllocError>
    requires { is_note piece.now ≡ true }
    ensures { IfOk result (λ note. note ≡ note_of piece.now) }
{
    let count = mark_count(piece);
    let mut marks = Vec::with_capacity(alloc, count as usize)?;
    for number in 0..count {
        marks.push(mark_of(piece, number))?;
    }
    Ok(Note {
        entry: word_at(piece, 4),
        first: word_at(piece, 8),
        count: word_at(piece, 12),
        buffer: word_at(piece, 16),
        used: word_at(piece, 20),
        map: ListOf::from_vec(marks),
    })
}

/// The first program header of the note's type.
fn note_header(segments: &[RawSegment]) -> Option<&RawSegment>
    ensures { option_copied result ≡ find is_note_header segments.now }
{
    segments.iter().find(|segment| is_note_header(segment))
}

/// The note of a file that has one, of whose program headers none offends.
pub fn note_in(alloc: Global, raw: &RawElf, bytes: &[u8]) -> Result<Option<Note>, AllocError>
    requires read { raw.now ≡ raw_of bytes.now }
    requires sound { IsSound bytes.now }
    requires good { bad_program_header bytes.now ≡ None }
    ensures same { IfOk result (λ note. note ≡ note_in bytes.now) }
    ensures sound { IfOk result (λ note. IfSome note IsNote) }
{
    match note_header(raw.segments.as_slice()) {
        Some(segment) => Ok(Some(read_note(alloc, piece_of(bytes, segment))?)),
        None => Ok(None),
    }
}
