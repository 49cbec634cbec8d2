//! Lists of records.

ghost use Rattle.std.specs.Prelude.{◌≡◌};

use std::marker::Model;

/// A list of records, which contracts see as the list of its items. Nothing here takes memory.
#[derive(Debug, Drop)]
pub struct Records<T: Drop> {
    items: Vec<T>,
}

impl<T: Drop> Model for Records<T> {
    ghost use Rattle.std.specs.Prelude.{List};

    ghost Value = { List T };

    ghost view = { λ list. list.items.items };
}

impl<T: Drop> Records<T> {
    /// The list of these records.
    pub fn from_vec(items: Vec<T>) -> Records<T>
        ensures { result ≡ items.items }
    {
        Records { items }
    }

    /// The records of the list.
    pub fn into_vec(self) -> Vec<T>
        ensures { result.items ≡ self }
    {
        let Records { items } = self;
        items
    }

    /// The records of the list.
    pub fn as_slice(&self) -> &[T]
        ensures { result.now ≡ self.now }
    {
        self.items.as_slice()
    }
}

/// A list of block numbers.
pub type Blocks = Records<u64>;
