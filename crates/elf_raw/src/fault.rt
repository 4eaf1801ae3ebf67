/// Why a file isn't taken, in the order in which they are asked.
#[derive(Clone, Copy, Debug, PartialEq, Eq)]
pub enum ElfFault {
    /// It has fewer than 52 bytes, or doesn't begin with the magic number.
    NotElf,
    /// It isn't of 32 bits, or not the lowest byte first.
    NotElf32Le,
    /// It is no executable.
    NotExec,
    /// It isn't for RISC-V.
    NotRiscv,
    /// It has compressed instructions.
    Compressed,
    /// Its calls pass floating point registers, or it is for RV32E.
    OtherAbi,
    /// A table has entries of another size, or reaches past the end of the file, or has an entry that does or that
    /// can't be read; the offset of the header's field that says so, or else of that entry.
    BadTable { offset: u32 },
    /// Memory was wanting.
    NoMemory,
}
