//! The list.

use std::marker::Model;

/// Items in order, which a contract sees as the list of them.
#[derive(Drop)]
pub struct Listed<T> {
    items: Vec<T>,
}

impl<T> Model for Listed<T> {
    ghost use Rattle.std.specs.Prelude.{List};

    ghost Value = { List T };

    ghost view = { λ l. l.items.items };
}

impl<T> Listed<T> {
    ghost use Rattle.std.specs.Prelude.{◌≡◌};

    /// These items, which stay as they are from here on: room for more of them is given back.
    pub fn from_vec(mut items: Vec<T>) -> Self
        ensures { result ≡ items.items }
    {
        items.shrink_to_fit();
        Listed { items }
    }

    /// The vector again; no memory is taken.
    pub fn into_vec(self) -> Vec<T>
        ensures { result.items ≡ self }
    {
        let Listed { items } = self;
        items
    }

    /// The items, to be read.
    pub fn as_slice(&self) -> &[T]
        ensures { result.now ≡ self.now }
    {
        self.items.as_slice()
    }
}
