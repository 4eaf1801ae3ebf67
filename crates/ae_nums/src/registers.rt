//! The registers of a mask.
ghost use Rattle.std.specs.Prelude.{◌≡◌};
ghost use Rattle.ae_nums.specs.Registers.{registers_of};

use std::marker::Model;

/// The registers of a mask that are still to come, in order. Contracts see the list of their numbers.
#[derive(Drop)]
pub struct Registers {
    left: u32,
}

impl Model for Registers {
    ghost use Rattle.std.specs.Prelude.{◌≡◌, ◌%◌, ℕ, List};
    ghost use Rattle.ae_nums.specs.Registers.{registers_of};

    ghost Value = { List ℕ };

    ghost view = { λ registers. registers_of registers.left };

    ghost invariant = { λ registers. registers.left % 2 ≡ 0 };
}

/// The registers of a mask from x1 to x31, in order: x(k) is one where bit k is set.
pub fn registers_of(mask: u32) -> Registers
    ensures { result ≡ registers_of mask }
{
    Registers { left: mask & !1 }
}

impl Iterator for Registers {
    ghost use Rattle.std.specs.Iterator.{YieldsFirst, item_count};

    type Item = u8;

    ghost next_gives = { YieldsFirst (λ registers. registers) };

    ghost remaining = { item_count (λ registers. registers) };

    fn next(&mut self) -> Option<u8> {
        if self.left == 0 {
            return None;
        }
        let register = self.left.trailing_zeros();
        self.left &= !(1 << register);
        Some(register as u8)
    }
}
