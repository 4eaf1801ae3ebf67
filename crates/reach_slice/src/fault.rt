use std::alloc::AllocError;

/// Why there is no slice.
#[derive(Clone, Copy, Debug, PartialEq, Eq)]
pub enum SliceFault {
    /// No load or store stands at the address.
    NotAccess,
    /// Memory is wanting.
    NoMemory,
}

impl From<AllocError> for SliceFault {
    ghost use Rattle.std.specs.Prelude.{◌≡◌};
    ghost use Rattle.reach_slice.specs.declared.fault.SliceFault.{SliceFault};

    ghost from_gives = { λ _ fault. fault ≡ SliceFault.NoMemory };

    fn from(_error: AllocError) -> SliceFault {
        SliceFault::NoMemory
    }
}
