//! A taker that keeps the lines of the items that it takes.
use ae_nums::{Item, Taker, item_line};
use ae_ports::Failed;
use std::alloc::Global;

/// Keeps the lines of the items that it takes, and fails at one call.
#[derive(Drop)]
pub struct KeptItems {
    items: Vec<Item>,
    /// The lines of the items.
    lines: Vec<u8>,
    /// How many calls there were.
    calls: u64,
    /// The number of the call that is to fail, counted from 0.
    failing: u64,
    faults: u64,
}

impl KeptItems {
    /// A taker that has no items, and whose call with this number is to fail.
    pub fn new(alloc: Global, failing: u64) -> KeptItems {
        KeptItems {
            items: Vec::new(alloc),
            lines: Vec::new(alloc),
            calls: 0,
            failing,
            faults: 0,
        }
    }

    /// The lines of the items.
    pub fn lines(&self) -> &[u8] {
        &self.lines
    }

    /// The number of items.
    pub fn count(&self) -> u64 {
        self.items.len() as u64
    }

    /// How many calls there were.
    pub fn calls(&self) -> u64 {
        self.calls
    }
}

impl Taker for KeptItems {
    ghost use Rattle.std.specs.Prelude.{◌≡◌, ◌++◌, ⊤};
    ghost use Rattle.std.proofs.Common.{◌∙◌, ap, append_assoc, sym};
    ghost use Rattle.std.proofs.lemmas.List.{append-nil};

    ghost took = { λ one two items. two.items.items ≡ one.items.items ++ items };

    ghost faults = { λ taker. taker.faults };

    ghost same_rest = { λ _. λ _. ⊤ };

    fn take(&mut self, item: Item) -> Result<(), Failed> {
        let call = self.calls;
        self.calls = call.saturating_add(1);
        if call != self.failing && self.items.push(item).is_ok() {
            let line = item_line(&item);
            let _ = self.lines.extend_from_slice(line.bytes());
            return Ok(());
        }
        self.faults = self.faults.saturating_add(1);
        Err(Failed)
    }

    ghost took_nothing = { λ taker. sym (append-nil taker.items.items) };

    ghost took_both = { λ one two three first second before after.
        after ∙ (ap (λ items. items ++ second) before ∙ append_assoc one.items.items first second) };

    ghost rest_stays = { λ _. tt };

    ghost rest_joins = { λ _ _ _ _ _. tt };
}
