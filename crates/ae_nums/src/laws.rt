//! Laws of numbers, each the contract of a function that does nothing.
ghost use Rattle.std.specs.Prelude.{◌≡◌, ℕ};
ghost use Rattle.rv_code.specs.Parts.{mask_of};
ghost use Rattle.ae_nums.specs.Registers.{registers_of, IsMask};

/// The registers of a mask make this mask again.
pub fn masks_have_their_registers()
    ensures { (mask : ℕ) → IsMask mask → mask_of (registers_of mask) ≡ mask }
{}
