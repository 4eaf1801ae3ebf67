ghost use Rattle.std.specs.Prelude.{ℕ, List, [], ◌++◌};
ghost use Rattle.ae_ports.specs.Fault.{HasCause};
ghost use Rattle.ae_nums.specs.declared.item.Item.{Item};
ghost use Rattle.ae_nums.specs.Taken.{TakesItem};

use crate::Item;
use ae_ports::Failed;

/// Where the items of a trace go to, one by one and in order.
pub trait Taker {
    /// Between the first moment and the second, the taker took these items, in order, and no others. A taker that doesn't
    /// tell says so of every list.
    ghost took: { Self → Self → List Item → Type 0 };

    /// How many faults there were so far.
    ghost faults: { Self → ℕ };

    /// What the taker was made with and stands on is the same in both.
    ghost same_rest: { Self → Self → Type 0 };

    /// Takes an item. After `Failed` it has taken the item or not.
    fn take(&mut self, item: Item) -> Result<(), Failed>
        ensures content { TakesItem (took self.old self.new) item result }
        ensures cause { HasCause (faults self.old) (faults self.new) result }
        ensures rest { same_rest self.old self.new };

    /// Between a moment and itself nothing was taken.
    ghost took_nothing: { (taker : Self) → took taker taker [] };

    /// What was taken before a moment and what was taken after it were taken, in this order.
    ghost took_both: { (one two three : Self) (first second : List Item) → took one two first → took two three second → took one three (first ++ second) };

    /// A taker has the same rest as itself.
    ghost rest_stays: { (taker : Self) → same_rest taker taker };

    /// What each of two calls keeps, both keep.
    ghost rest_joins: { (one two three : Self) → same_rest one two → same_rest two three → same_rest one three };
}
