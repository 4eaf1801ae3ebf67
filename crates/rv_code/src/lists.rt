ghost use Rattle.std.specs.Prelude.{◌≡◌};

use std::marker::Model;

/// A vector whose contracts see a plain list. It is made from a vector and gives it back without taking memory.
#[derive(Debug, Drop)]
pub struct ListOf<T> {
    items: Vec<T>,
}

impl<T> Model for ListOf<T> {
    ghost use Rattle.std.specs.Prelude.{List};

    ghost Value = { List T };

    ghost view = { λ list. list.items.items };
}

impl<T> ListOf<T> {
    /// The list of these items.
    pub fn from_vec(items: Vec<T>) -> Self
        ensures { result ≡ items.items }
    {
        ListOf { items }
    }

    /// The items, in order.
    #[inline(always)]
    pub fn as_slice(&self) -> &[T]
        ensures { result.now ≡ self.now }
    {
        &self.items
    }

    /// The items as a vector.
    pub fn into_vec(self) -> Vec<T>
        ensures { result.items ≡ self }
    {
        let ListOf { items } = self;
        items
    }
}
