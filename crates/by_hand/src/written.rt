//! Files that are written of tables and pieces, as no command does yet.
ghost use Rattle.std.specs.Prelude.{◌≡◌};

use crate::telling::{bytes, hex_text};
use ae_nums::Span64;
use elf_raw::{
    Piece, RawElf, RawHeader, RawRelocation, RawSection, RawSegment, RawSymbol, write_raw,
};
use row_form::not_understood;
use rv_code::ListOf;
use std::alloc::{AllocError, Global};
use std::io;

/// `three_words` or `tables`: that such a file is written with just these bytes, or else its bytes.
pub fn file_answer(alloc: Global, wanted: &[u8], name: &str) -> io::Result<Vec<u8>> {
    let written = match name {
        "three_words" => write_three_words(alloc)?,
        "tables" => write_tables(alloc)?,
        _ => return Err(not_understood()),
    };
    if written.as_slice() == wanted {
        Ok(bytes(alloc, "same")?)
    } else {
        Ok(hex_text(alloc, &written)?)
    }
}

/// The header of the file of three code words.
const HEADER: RawHeader = RawHeader {
    ident: [0x7f, 0x45, 0x4c, 0x46, 1, 1, 1, 0, 0, 0, 0, 0, 0, 0, 0, 0],
    kind: 2,
    machine: 243,
    version: 1,
    entry: 0x1_0074,
    phoff: 52,
    shoff: 128,
    flags: 0,
    ehsize: 52,
    phentsize: 32,
    phnum: 2,
    shentsize: 40,
    shnum: 2,
    shstrndx: 0,
};

/// Its segment of code.
const CODE: RawSegment = RawSegment {
    kind: 1,
    offset: 0,
    vaddr: 0x1_0000,
    paddr: 0x1_0000,
    filesz: 128,
    memsz: 128,
    flags: 5,
    align: 4096,
    span: Span64 { from: 0, to: 128 },
};

/// Its segment without bytes.
const EMPTY: RawSegment = RawSegment {
    kind: 1,
    offset: 128,
    vaddr: 0x1_1000,
    paddr: 0x1_1000,
    filesz: 0,
    memsz: 0,
    flags: 6,
    align: 4,
    span: Span64 { from: 128, to: 128 },
};

/// A section of which every field is zero.
const NULL: RawSection = RawSection {
    name: 0,
    kind: 0,
    flags: 0,
    addr: 0,
    offset: 0,
    size: 0,
    link: 0,
    info: 0,
    addralign: 0,
    entsize: 0,
    span: Span64 { from: 0, to: 0 },
};

/// The section of the code.
const TEXT: RawSection = RawSection {
    kind: 1,
    flags: 6,
    addr: 0x1_0074,
    offset: 116,
    size: 12,
    addralign: 4,
    span: Span64 { from: 116, to: 128 },
    ..NULL
};

/// Writes the file of three code words.
fn write_three_words(alloc: Global) -> Result<Vec<u8>, AllocError> {
    let raw = RawElf {
        header: HEADER,
        segments: ListOf::from_vec(vec![in alloc; CODE, EMPTY]?),
        sections: ListOf::from_vec(vec![in alloc; NULL, TEXT]?),
        symbols: ListOf::from_vec(Vec::new(alloc)),
        relocations: ListOf::from_vec(Vec::new(alloc)),
    };
    let code = vec![in alloc;
        0x93, 0x08, 0xd0, 0x05, 0x13, 0x05, 0x70, 0x00, 0x73, 0x00, 0x00, 0x00,
    ]?;
    let piece = Piece {
        offset: 116,
        bytes: ListOf::from_vec(code),
    };
    write_raw(alloc, &raw, &[piece])
}

/// The header of the file with tables.
const TABLES_HEADER: RawHeader = RawHeader {
    phoff: 0,
    shoff: 132,
    flags: 16,
    phentsize: 0,
    phnum: 0,
    shnum: 4,
    shstrndx: 2,
    ..HEADER
};

/// Its sections of symbols, of strings and of relocations.
const SYMBOLS: RawSection = RawSection {
    kind: 2,
    offset: 52,
    size: 48,
    link: 2,
    info: 1,
    addralign: 4,
    entsize: 16,
    span: Span64 { from: 52, to: 100 },
    ..NULL
};

const STRINGS: RawSection = RawSection {
    kind: 3,
    offset: 100,
    size: 8,
    addralign: 1,
    span: Span64 { from: 100, to: 108 },
    ..NULL
};

const RELOCATIONS: RawSection = RawSection {
    kind: 4,
    offset: 108,
    size: 24,
    link: 1,
    addralign: 4,
    entsize: 12,
    span: Span64 { from: 108, to: 132 },
    ..NULL
};

const FIRST: RawRelocation = RawRelocation {
    section: 3,
    offset: 0x1_1000,
    info: 0x101,
    addend: 4,
};

const SECOND: RawRelocation = RawRelocation {
    section: 3,
    offset: 0x1_1004,
    info: 0x212,
    addend: -8,
};

/// A symbol of its section of symbols; the tail is its last three fields.
fn symbol(name: u32, value: u32, size: u32, tail: (u8, u8, u16), text: Vec<u8>) -> RawSymbol
    ensures { result ≡ record { section = 1; name = name; value = value; size = size; info = tail.0; other = tail.1; shndx = tail.2; text = text.items } }
{
    RawSymbol {
        section: 1,
        name,
        value,
        size,
        info: tail.0,
        other: tail.1,
        shndx: tail.2,
        text: ListOf::from_vec(text),
    }
}

/// Writes the file with tables: a piece has the symbols and the strings, another the relocations.
fn write_tables(alloc: Global) -> Result<Vec<u8>, AllocError> {
    let none = symbol(0, 0, 0, (0, 0, 0), Vec::new(alloc));
    let arm = symbol(
        1,
        0x1_0080,
        12,
        (0x12, 2, 1),
        vec![in alloc; 0x61, 0x72, 0x6d]?,
    );
    let leg = symbol(5, 0x1_1000, 4, (0x11, 0, 0xfff1), Vec::new(alloc));
    let raw = RawElf {
        header: TABLES_HEADER,
        segments: ListOf::from_vec(Vec::new(alloc)),
        sections: ListOf::from_vec(vec![in alloc; NULL, SYMBOLS, STRINGS, RELOCATIONS]?),
        symbols: ListOf::from_vec(vec![in alloc; none, arm, leg]?),
        relocations: ListOf::from_vec(vec![in alloc; FIRST, SECOND]?),
    };
    let symbols = vec![in alloc;
        0, 0, 0, 0, 0, 0, 0, 0, 0, 0, 0, 0, 0, 0, 0, 0, 1, 0, 0, 0, 0x80, 0, 1, 0, 12, 0, 0, 0,
        0x12, 2, 1, 0, 5, 0, 0, 0, 0, 0x10, 1, 0, 4, 0, 0, 0, 0x11, 0, 0xf1, 0xff, 0, 0x61, 0x72,
        0x6d, 0, 0x6c, 0x65, 0x67,
    ]?;
    let relocations = vec![in alloc;
        0, 0x10, 1, 0, 1, 1, 0, 0, 4, 0, 0, 0, 4, 0x10, 1, 0, 0x12, 2, 0, 0, 0xf8, 0xff, 0xff, 0xff,
    ]?;
    let pieces = [
        Piece {
            offset: 52,
            bytes: ListOf::from_vec(symbols),
        },
        Piece {
            offset: 108,
            bytes: ListOf::from_vec(relocations),
        },
    ];
    write_raw(alloc, &raw, &pieces)
}
