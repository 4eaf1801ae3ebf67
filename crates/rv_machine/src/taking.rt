//! Giving a taker the items of a step.
ghost use Rattle.std.specs.Prelude.{◌≡◌, ◌∷◌, IfErr, OnOk, OnErr};
ghost use Rattle.std.specs.Option.{option_map, option_to_list};
ghost use Rattle.ae_ports.specs.Fault.{HasCause};
ghost use Rattle.rv_machine.specs.Outcomes.{TookFront, items_in};
ghost use Rattle.rv_machine.specs.Ports.{Rises};

use crate::{MachineFault, Seen};
use ae_nums::{Item, Taker};
use ae_ports::Failed;

/// The item of a step's fetch.
#[inline(always)]
fn fetch_in(seen: Seen) -> Option<Item>
    ensures { result ≡ option_map Item.Fetch seen.fetch }
{
    match seen.fetch {
        Some(address) => Some(Item::Fetch(address)),
        None => None,
    }
}

/// Gives a taker an item, if there is one.
#[inline(always)]
fn take_some<K: Taker>(items: &mut K, item: Option<Item>) -> Result<(), Failed>
    ensures all { OnOk result (K.took items.old items.new (option_to_list item)) }
    ensures front { OnErr result (TookFront (K.took items.old items.new) (option_to_list item)) }
    ensures cause { HasCause (K.faults items.old) (K.faults items.new) result }
    ensures rest { K.same_rest items.old items.new }
{
    match item {
        Some(item) => items.take(item),
        None => Ok(()),
    }
}

/// Gives a taker the items of a step. After `Failed` it has taken a front of them.
#[inline(always)]
fn take_seen<K: Taker>(items: &mut K, seen: Seen) -> Result<(), Failed>
    ensures all { OnOk result (K.took items.old items.new (items_in seen)) }
    ensures front { OnErr result (TookFront (K.took items.old items.new) (items_in seen)) }
    ensures cause { HasCause (K.faults items.old) (K.faults items.new) result }
    ensures rest { K.same_rest items.old items.new }
{
    take_some(items, fetch_in(seen))?;
    take_some(items, seen.access)
}

/// The same, with a failure as the machine's fault.
#[inline(always)]
pub(crate) fn give_items<K: Taker>(items: &mut K, seen: Seen) -> Result<(), MachineFault>
    ensures all { OnOk result (K.took items.old items.new (items_in seen)) }
    ensures front { OnErr result (TookFront (K.took items.old items.new) (items_in seen)) }
    ensures same { OnOk result (K.faults items.new ≡ K.faults items.old) }
    ensures risen { OnErr result (Rises (K.faults items.old) (K.faults items.new)) }
    ensures fault { IfErr result (λ fault. fault ≡ MachineFault.EventFault) }
    ensures rest { K.same_rest items.old items.new }
{
    match take_seen(items, seen) {
        Ok(()) => Ok(()),
        Err(Failed) => Err(MachineFault::EventFault),
    }
}

/// Gives a taker the items of a step that fetched at this address.
#[inline(always)]
pub(crate) fn give<K: Taker>(
    items: &mut K,
    pc: u32,
    access: Option<Item>,
) -> Result<(), MachineFault>
    ensures all { OnOk result (K.took items.old items.new (Item.Fetch pc ∷ option_to_list access)) }
    ensures front { OnErr result (TookFront (K.took items.old items.new) (Item.Fetch pc ∷ option_to_list access)) }
    ensures same { OnOk result (K.faults items.new ≡ K.faults items.old) }
    ensures risen { OnErr result (Rises (K.faults items.old) (K.faults items.new)) }
    ensures fault { IfErr result (λ fault. fault ≡ MachineFault.EventFault) }
    ensures rest { K.same_rest items.old items.new }
{
    give_items(
        items,
        Seen {
            fetch: Some(pc),
            access,
        },
    )
}
