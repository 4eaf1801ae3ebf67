use crate::{RawHeader, RawRelocation, RawSection, RawSegment, RawSymbol};
use rv_code::ListOf;

/// All that the tables of an ELF32 file say. Symbols and relocations stand table by table, in the order of the sections.
#[derive(Debug, Drop)]
pub struct RawElf {
    pub header: RawHeader,
    pub segments: ListOf<RawSegment>,
    pub sections: ListOf<RawSection>,
    pub symbols: ListOf<RawSymbol>,
    pub relocations: ListOf<RawRelocation>,
}
