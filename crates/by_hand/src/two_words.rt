ghost use Rattle.std.specs.Prelude.{◌==◌, true, false, not, Some, refl};
ghost use Rattle.std.proofs.Common.{ap};

use ev_format::{Shape, Slot};

/// Two words from 00000074 on: a call, and an indirect jump whose targets need x1 and x2.
pub struct TwoWords;

impl Shape for TwoWords {
    ghost shown = { λ _. record {
      entry = 116;
      first = 116;
      count = 2;
      slot = λ address. record {
        code = true;
        fall = address == 116;
        taken = false;
        value = address == 116;
        landing = not (address == 116);
      };
      needs = λ _. Some 6;
    } };

    fn entry(&self) -> u32 {
        116
    }

    fn first(&self) -> u32 {
        116
    }

    fn count(&self) -> u32 {
        2
    }

    fn slot(&self, address: u32) -> Slot {
        Slot {
            code: true,
            fall: address == 116,
            taken: false,
            value: address == 116,
            landing: address != 116,
        }
    }

    fn needs(&self, _: u32) -> Option<u32> {
        Some(6)
    }

    ghost well_formed = { λ _. record {
      apart = λ address is. ap not is;
      clear = λ _. refl;
    } };
}
