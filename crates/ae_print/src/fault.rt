//! Why a text wasn't printed.

/// Why a text wasn't printed whole.
#[derive(Clone, Copy, Debug, PartialEq, Eq)]
pub enum PrintFault {
    /// The sink failed.
    Failed,
    /// Memory is wanting.
    NoMemory,
}
