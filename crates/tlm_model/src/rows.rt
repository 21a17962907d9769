// A list of rows.
ghost use Rattle.std.specs.Prelude.{List};

use std::marker::Model;

/// A list of rows, which contracts see as a list.
pub struct Rows<T> {
    items: Vec<T>,
}

// Written out, so that crates above call it and needn't prove again how each part is let go of.
impl<T: Drop> Drop for Rows<T> {
    fn drop(self) {
        let Rows { items: _items } = self;
    }
}

impl<T> Model for Rows<T> {
    ghost Value = { List T };

    ghost view = { λ r. r.items.items };
}

impl<T> Rows<T> {
    ghost use Rattle.std.specs.Prelude.{◌≡◌};

    /// The items of a vector, which are not copied.
    pub fn from_vec(items: Vec<T>) -> Rows<T>
        ensures { result ≡ items.items }
    {
        Rows { items }
    }

    pub fn as_slice(&self) -> &[T]
        ensures { result.now ≡ self.now }
    {
        self.items.as_slice()
    }
}
