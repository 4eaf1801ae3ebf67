ghost use Rattle.std.specs.Prelude.{⊤};

use ae_nums::{Item, Taker};
use ae_ports::Failed;

/// A taker that drops each item. It never fails, and tells nothing.
#[derive(Drop)]
pub(crate) struct Untraced;

impl Taker for Untraced {
    ghost took = { λ _ _ _. ⊤ };

    ghost faults = { λ _. 0 };

    ghost same_rest = { λ _ _. ⊤ };

    #[inline(always)]
    fn take(&mut self, _item: Item) -> Result<(), Failed> {
        Ok(())
    }

    ghost took_nothing = { λ _. tt };

    ghost took_both = { λ _ _ _ _ _ _ _. tt };

    ghost rest_stays = { λ _. tt };

    ghost rest_joins = { λ _ _ _ _ _. tt };
}
