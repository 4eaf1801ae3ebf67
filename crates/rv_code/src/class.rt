/// What an instruction does to the course of a program and to memory. This project's own grouping; a class stands in a
/// schema by its number, `Plain` being 0 and `Stop` 7.
#[derive(Clone, Copy, Debug, PartialEq, Eq)]
pub enum Class {
    /// Computes from registers alone, and goes on to the next word.
    Plain,
    Load,
    Store,
    /// A conditional branch.
    Branch,
    /// A jump to a target that the word gives: `jal`.
    Jump,
    /// A jump to a target that a register gives: `jalr`.
    Indirect,
    /// A call of the system: `ecall`.
    Call,
    /// Ends the run: `ebreak` and each word that is no instruction.
    Stop,
}
