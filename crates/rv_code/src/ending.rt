/// How a run ends. This project's own: the machine has no traps, and a program ends where one would come.
///
/// Details are words; an address is that of a byte.
#[derive(Clone, Copy, Debug, PartialEq, Eq)]
pub enum Ending {
    /// The program made the call exit with this code.
    Exit(u32),
    /// This word, which is no instruction, was to be carried out.
    Illegal(u32),
    /// An `ebreak` was carried out.
    Breakpoint,
    /// The first byte of a load that isn't mapped.
    LoadFault(u32),
    /// The first byte of a store that isn't mapped writable.
    StoreFault(u32),
    /// The address of an instruction that is no code word.
    FetchFault(u32),
    /// The target of a jump or taken branch that is no multiple of 4.
    JumpMisaligned(u32),
}
