//! What the line of a refusal says.
ghost use Rattle.std.specs.Prelude.{◌≡◌};
ghost use Rattle.ae_nums.specs.Decimal.{decimal_text};
ghost use Rattle.ae_nums.specs.Hex.{hex8_text};
ghost use Rattle.ae_top.specs.StatusLines.{refusal_text, refusal_detail, schema_refusal_text, schema_refusal_detail, events_refusal_text, events_refusal_detail};

use crate::{EventsRefusal, Refusal};
use ae_nums::{Text, decimal, hex8};
use elf_image::{ImageFault, Over};
use elf_raw::ElfFault;
use schema_form::SchemaFault;

/// The fixed part of the line.
pub fn refusal_text(refusal: Refusal) -> &'static [u8]
    ensures { result.now ≡ refusal_text refusal }
{
    match refusal {
        Refusal::Elf(ElfFault::NotElf) => b"ae: refused E1",
        Refusal::Elf(ElfFault::NotElf32Le) => b"ae: refused E2",
        Refusal::Elf(ElfFault::NotExec) => b"ae: refused E3",
        Refusal::Elf(ElfFault::NotRiscv) => b"ae: refused E4",
        Refusal::Elf(ElfFault::Compressed) => b"ae: refused E5",
        Refusal::Elf(ElfFault::OtherAbi) => b"ae: refused E6",
        Refusal::Elf(ElfFault::BadTable { .. }) => b"ae: refused E7 at ",
        Refusal::Image(ImageFault::Dynamic) => b"ae: refused E8",
        Refusal::Image(ImageFault::Segments { .. }) => b"ae: refused E9 segment ",
        Refusal::Image(ImageFault::NoCode) => b"ae: refused E10",
        Refusal::Image(ImageFault::EntryNotCode) => b"ae: refused E11",
        Refusal::Image(ImageFault::BadRelocation { .. }) => b"ae: refused E12 relocation ",
        Refusal::Image(ImageFault::TooLarge { what: Over::File }) => b"ae: refused E13 file",
        Refusal::Image(ImageFault::TooLarge { what: Over::Mapped }) => b"ae: refused E13 mapped",
        Refusal::Image(ImageFault::TooLarge { what: Over::Ranges }) => b"ae: refused E13 ranges",
        Refusal::Image(ImageFault::TooLarge { what: Over::Words }) => b"ae: refused E13 words",
        Refusal::Image(ImageFault::Traced) => b"ae: refused E14",
        Refusal::Elf(ElfFault::NoMemory) | Refusal::Image(ImageFault::NoMemory) => b"",
    }
}

/// A number in decimal.
pub fn digits_of(number: u64) -> Text
    ensures { result ≡ decimal_text number }
{
    let mut digits = Text::new();
    decimal(number, &mut digits);
    digits
}

/// The place that the line names: an offset, or the number of a program header or of a relocation.
pub fn refusal_detail(refusal: Refusal) -> Text
    ensures { result ≡ refusal_detail refusal }
{
    match refusal {
        Refusal::Elf(ElfFault::BadTable { offset }) => digits_of(u64::from(offset)),
        Refusal::Image(ImageFault::Segments { index }) => digits_of(u64::from(index)),
        Refusal::Image(ImageFault::BadRelocation { index }) => digits_of(u64::from(index)),
        _ => Text::new(),
    }
}

/// The fixed part of the line of a refused schema.
pub fn schema_refusal_text(fault: SchemaFault) -> &'static [u8]
    ensures { result.now ≡ schema_refusal_text fault }
{
    match fault {
        SchemaFault::NotSchema => b"ae: schema S1",
        SchemaFault::BadEntry { .. } => b"ae: schema S2 at ",
        SchemaFault::NotAForest { .. } => b"ae: schema S3 edge ",
        SchemaFault::TooLarge => b"ae: schema S4",
        SchemaFault::NoMemory => b"",
    }
}

/// The name of an edge: an address, and 1 more where it is taken.
fn name_of(edge: u32) -> Text
    ensures { result ≡ hex8_text edge }
{
    let mut name = Text::new();
    name.push(&hex8(edge));
    name
}

/// The place that the line of a refused schema names: an offset, or an edge.
pub fn schema_refusal_detail(fault: SchemaFault) -> Text
    ensures { result ≡ schema_refusal_detail fault }
{
    match fault {
        SchemaFault::BadEntry { offset } => digits_of(u64::from(offset)),
        SchemaFault::NotAForest { edge } => name_of(edge),
        SchemaFault::NotSchema | SchemaFault::TooLarge | SchemaFault::NoMemory => Text::new(),
    }
}

/// The fixed part of the line of a refused event file.
pub fn events_refusal_text(refusal: EventsRefusal) -> &'static [u8]
    ensures { result.now ≡ events_refusal_text refusal }
{
    match refusal {
        EventsRefusal::OtherProgram => b"ae: events other program",
        EventsRefusal::BadRecord { .. } => b"ae: events bad record at ",
        EventsRefusal::Astray { .. } => b"ae: events astray at ",
    }
}

/// The offset that the line of a refused event file names.
pub fn events_refusal_detail(refusal: EventsRefusal) -> Text
    ensures { result ≡ events_refusal_detail refusal }
{
    match refusal {
        EventsRefusal::OtherProgram => Text::new(),
        EventsRefusal::BadRecord { offset } | EventsRefusal::Astray { offset } => digits_of(offset),
    }
}
