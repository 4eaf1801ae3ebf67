//! How many bytes loads and stores touch (RISC-V unprivileged manual, section 2.6).
ghost use Rattle.std.specs.Prelude.{◌≡◌, ◌⊎◌};
ghost use Rattle.rv_machine.specs.Effect.{load_size, store_size};

use rv_code::{LoadOp, StoreOp};

/// How many bytes a load reads.
#[inline(always)]
pub fn load_size(op: LoadOp) -> u8
    ensures size { result ≡ load_size op }
    ensures small { (result ≡ 1) ⊎ ((result ≡ 2) ⊎ (result ≡ 4)) }
{
    match op {
        LoadOp::Lb | LoadOp::Lbu => 1,
        LoadOp::Lh | LoadOp::Lhu => 2,
        LoadOp::Lw => 4,
    }
}

/// How many bytes a store writes.
#[inline(always)]
pub fn store_size(op: StoreOp) -> u8
    ensures size { result ≡ store_size op }
    ensures small { (result ≡ 1) ⊎ ((result ≡ 2) ⊎ (result ≡ 4)) }
{
    match op {
        StoreOp::Sb => 1,
        StoreOp::Sh => 2,
        StoreOp::Sw => 4,
    }
}
