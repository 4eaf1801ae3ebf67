//! A note, written as the bytes of its program header.
ghost use Rattle.std.specs.Prelude.{◌≡◌, ◌++◌, ◌<◌, ◌^◌, length, true, IfOk};
ghost use Rattle.elf_raw.specs.Written.{word_bytes};
ghost use Rattle.rv_code.specs.Image.{IsNote};
ghost use Rattle.elf_image.specs.NoteBytes.{mark_words, note_bytes, is_note, note_of};

use elf_raw::{add_words, words_are_read_back};
use rv_code::{Mark, Note};
use std::alloc::{AllocError, Global};

/// Adds the two words of a mark.
fn add_mark(bytes: &mut Vec<u8>, mark: Mark) -> Result<(), AllocError>
    ensures { IfOk result (λ _. bytes.new.items ≡ bytes.old.items ++ word_bytes (mark_words mark)) }
{
    add_words(bytes, &[mark.from, mark.original])
}

/// The bytes of a note, as the program header of a rewritten executable has them in its file: 28, and 8 for each mark.
///
/// # Errors
///
/// Memory was wanting.
pub fn note_bytes(alloc: Global, note: &Note) -> Result<Vec<u8>, AllocError>
    requires note { IsNote note.now }
    requires few { length note.now.map < 2 ^ 32 }
    ensures bytes { IfOk result (λ bytes. bytes.items ≡ note_bytes note.now) }
    ensures note { IfOk result (λ bytes. is_note bytes.items ≡ true) }
    ensures read_back { IfOk result (λ bytes. note_of bytes.items ≡ note.now) }
{
    words_are_read_back();
    let marks = note.map.as_slice();
    let mut bytes = Vec::new(alloc);
    bytes.extend_from_slice(b"AEN1")?;
    let count = marks.len() as u32;
    add_words(
        &mut bytes,
        &[
            note.entry,
            note.first,
            note.count,
            note.buffer,
            note.used,
            count,
        ],
    )?;
    for mark in marks {
        add_mark(&mut bytes, *mark)?;
    }
    Ok(bytes)
}
