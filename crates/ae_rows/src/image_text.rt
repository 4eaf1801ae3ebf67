//! What an accepted executable comes to, as lines.
use rv_code::{Image, Name, Note, Range, Region};
use std::alloc::Global;
use std::io;

/// More bytes of a region aren't shown.
const SHOWN: usize = 16;

/// The lines of an image: its entry, regions, ranges of code words, names, named addresses, and its note.
pub fn image_text(alloc: Global, image: &Image) -> io::Result<Vec<u8>> {
    let mut text = Vec::new(alloc);
    add(&mut text, format!(in alloc; "entry {:08x}\n", image.entry)?)?;
    for region in image.regions.as_slice() {
        add_region(alloc, &mut text, region)?;
    }
    for range in image.code.as_slice() {
        add_range(alloc, &mut text, range)?;
    }
    for name in image.names.as_slice() {
        add_name(alloc, &mut text, name)?;
    }
    for address in image.named.as_slice() {
        add(&mut text, format!(in alloc; "named {address:08x}\n")?)?;
    }
    if let Some(note) = &image.note {
        add_note(alloc, &mut text, note)?;
    }
    Ok(text)
}

fn add(text: &mut Vec<u8>, more: String) -> io::Result<()> {
    text.extend_from_slice(more.as_bytes())?;
    Ok(())
}

/// `region START BYTES ZEROS zeros fixed`, with the number of bytes where there are many.
fn add_region(alloc: Global, text: &mut Vec<u8>, region: &Region) -> io::Result<()> {
    let bytes = region.bytes.as_slice();
    add(text, format!(in alloc; "region {:08x}", region.start)?)?;
    if bytes.is_empty() || bytes.len() > SHOWN {
        add(text, format!(in alloc; " {} bytes", bytes.len())?)?;
    } else {
        add(text, format!(in alloc; " hex ")?)?;
        for byte in bytes {
            add(text, format!(in alloc; "{byte:02x}")?)?;
        }
    }
    let kind = if region.writable { "writable" } else { "fixed" };
    add(text, format!(in alloc; " {} zeros {kind}\n", region.zeros)?)
}

/// `range START WORD ..`
fn add_range(alloc: Global, text: &mut Vec<u8>, range: &Range) -> io::Result<()> {
    add(text, format!(in alloc; "range {:08x}", range.start)?)?;
    for word in range.words.as_slice() {
        add(text, format!(in alloc; " {word:08x}")?)?;
    }
    add(text, format!(in alloc; "\n")?)
}

/// `name ADDRESS TEXT`
fn add_name(alloc: Global, text: &mut Vec<u8>, name: &Name) -> io::Result<()> {
    add(
        text,
        format!(in alloc;
            "name {:08x} {}\n",
            name.address,
            name.text.as_slice().escape_ascii()
        )?,
    )
}

/// `note ENTRY FIRST COUNT BUFFER USED`, and `mark FROM ORIGINAL` for each mark.
fn add_note(alloc: Global, text: &mut Vec<u8>, note: &Note) -> io::Result<()> {
    let Note {
        entry,
        first,
        count,
        buffer,
        used,
        map,
    } = note;
    add(
        text,
        format!(in alloc; "note {entry:08x} {first:08x} {count:08x} {buffer:08x} {used:08x}\n")?,
    )?;
    for mark in map.as_slice() {
        add(
            text,
            format!(in alloc; "mark {:08x} {:08x}\n", mark.from, mark.original)?,
        )?;
    }
    Ok(())
}
