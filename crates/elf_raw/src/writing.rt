//! Files written from their tables.
ghost use Rattle.std.specs.Prelude.{◌≡◌, ◌^◌, ◌*◌, ◌<◌, ◌≤◌, length, take, drop, replicate, max, IfOk};
ghost use Rattle.std.specs.List.{All, flat_map, fold};
ghost use Rattle.elf_raw.specs.Header.{header_size, header_of};
ghost use Rattle.elf_raw.specs.Tables.{AreTablesOf};
ghost use Rattle.elf_raw.specs.Sections.{section_size, section_span, section_at};
ghost use Rattle.elf_raw.specs.Segments.{segment_size, segment_span, segment_at};
ghost use Rattle.elf_raw.specs.Writable.{IsCounted, IsWritable};
ghost use Rattle.elf_raw.specs.Written.{header_bytes, segment_bytes, section_bytes, parts_of, end_of, last_end, file_end, laid, lay, file_of};

use crate::encoding::{put_header, put_section, put_segment};
use crate::header::HEADER_SIZE;
use crate::laying::put_bytes;
use crate::section::SECTION_SIZE;
use crate::segment::SEGMENT_SIZE;
use crate::{Piece, RawElf, RawHeader, RawSection, RawSegment};
use std::alloc::{AllocError, Global};

/// Where so many bytes from an offset on end; no bytes end at the front.
fn end_of(offset: u32, size: usize) -> usize
    requires { size < 2 ^ 63 }
    ensures { result ≡ end_of offset size }
{
    if size == 0 { 0 } else { offset as usize + size }
}

/// Where the last of the header and the tables ends.
fn tables_end(header: RawHeader) -> usize
    ensures end { result ≡ max (max header_size (end_of header.phoff (segment_size * header.phnum))) (end_of header.shoff (section_size * header.shnum)) }
    ensures size { length (header_bytes header) ≡ header_size }
{
    let segments = end_of(header.phoff, SEGMENT_SIZE * usize::from(header.phnum));
    let sections = end_of(header.shoff, SECTION_SIZE * usize::from(header.shnum));
    HEADER_SIZE.max(segments).max(sections)
}

/// Where the last of the pieces ends, or what was before them where that is later.
fn pieces_end(before: usize, pieces: &[Piece]) -> usize
    ensures { result ≡ fold last_end before pieces.now }
{
    let mut end = before;
    for piece in pieces {
        end = end.max(end_of(piece.offset, piece.bytes.as_slice().len()));
    }
    end
}

/// Where the last of all parts of the file ends.
fn size_of(raw: &RawElf, pieces: &[Piece]) -> usize
    requires { IsCounted raw.now }
    ensures end { result ≡ file_end (parts_of raw.now pieces.now) }
    ensures size { length (header_bytes raw.now.header) ≡ header_size }
{
    pieces_end(tables_end(raw.header), pieces)
}

/// A file of so many zeros.
fn blank_file(alloc: Global, size: usize) -> Result<Vec<u8>, AllocError>
    ensures { IfOk result (λ file. file.items ≡ replicate size 0) }
{
    vec![in alloc; 0u8; size]
}

/// Puts the program headers, one after the other.
fn put_segments(file: &mut [u8], offset: u32, segments: &[RawSegment])
    requires within { end_of offset (segment_size * length segments.now) ≤ length file.old }
    requires spanned { All (λ segment. segment.span ≡ segment_span segment.offset segment.filesz) segments.now }
    ensures written { file.new ≡ laid file.old offset (flat_map segment_bytes segments.now) }
    ensures back { All (λ segment. segment_at (segment_bytes segment) 0 ≡ segment) segments.now }
{
    for (place, segment) in segments.iter().enumerate() {
        put_segment(file, offset as usize + SEGMENT_SIZE * place, *segment);
    }
}

/// Puts the section headers, one after the other.
fn put_sections(file: &mut [u8], offset: u32, sections: &[RawSection])
    requires within { end_of offset (section_size * length sections.now) ≤ length file.old }
    requires spanned { All (λ section. section.span ≡ section_span section.kind section.offset section.size) sections.now }
    ensures written { file.new ≡ laid file.old offset (flat_map section_bytes sections.now) }
    ensures back { All (λ section. section_at (section_bytes section) 0 ≡ section) sections.now }
{
    for (place, section) in sections.iter().enumerate() {
        put_section(file, offset as usize + SECTION_SIZE * place, *section);
    }
}

/// Puts a piece at its offset.
#[tactic(auto, using(crate::proofs::Laid::laid_none))]
fn put_piece(file: &mut [u8], piece: &Piece)
    requires { end_of piece.now.offset (length piece.now.bytes) ≤ length file.old }
    ensures { file.new ≡ lay file.old piece.now }
{
    let bytes = piece.bytes.as_slice();
    if !bytes.is_empty() {
        put_bytes(file, piece.offset as usize, bytes);
    }
}

/// Puts the pieces at their offsets.
fn put_pieces(file: &mut [u8], pieces: &[Piece])
    requires { All (λ piece. end_of piece.offset (length piece.bytes) ≤ length file.old) pieces.now }
    ensures { file.new ≡ fold lay file.old pieces.now }
{
    for piece in pieces {
        put_piece(file, piece);
    }
}

/// Puts the header, the tables and the pieces into a file.
fn put_parts(file: &mut [u8], raw: &RawElf, pieces: &[Piece])
    requires writable { IsWritable raw.now pieces.now }
    requires size { length (header_bytes raw.now.header) ≡ header_size }
    requires end { length file.old ≡ file_end (parts_of raw.now pieces.now) }
    ensures written { file.new ≡ fold lay file.old (parts_of raw.now pieces.now) }
    ensures header { header_of (header_bytes raw.now.header) ≡ raw.now.header }
    ensures segments { All (λ segment. segment_at (segment_bytes segment) 0 ≡ segment) raw.now.segments }
    ensures sections { All (λ section. section_at (section_bytes section) 0 ≡ section) raw.now.sections }
{
    put_header(file, raw.header);
    put_segments(file, raw.header.phoff, raw.segments.as_slice());
    put_sections(file, raw.header.shoff, raw.sections.as_slice());
    put_pieces(file, pieces);
}

/// The file with these tables, and with these pieces at their offsets, and zeros between. [`crate::read_raw`] reads it back as the
/// same tables: it isn't too long, and no refusal holds of it.
///
/// The header's counts are those of the lists, where the bytes of a segment or a section stand is what its fields say, no two
/// parts of the file meet, the pieces hold the symbols and the relocations that the lists give at the sections that are such
/// tables, and no refusal holds of what the fields say.
///
/// # Errors
///
/// Memory was wanting.
pub fn write_raw(alloc: Global, raw: &RawElf, pieces: &[Piece]) -> Result<Vec<u8>, AllocError>
    requires { IsWritable raw.now pieces.now }
    ensures written { IfOk result (λ bytes. bytes.items ≡ file_of raw.now pieces.now) }
    ensures pieces { IfOk result (λ bytes. All (λ piece. take (length piece.bytes) (drop piece.offset bytes.items) ≡ piece.bytes) pieces.now) }
    ensures read_back { IfOk result (λ bytes. AreTablesOf raw.now bytes.items) }
{
    let mut file = blank_file(alloc, size_of(raw, pieces))?;
    put_parts(&mut file, raw, pieces);
    Ok(file)
}
