//! Arrays of a font's tables.
ghost use Rattle.std.specs.Prelude.{◌≡◌, slice_get, length};
ghost use Rattle.std.specs.Option.{option_copied};

use std::marker::Model;

/// The items of an array of a table, in the order of their indices. They never change.
#[derive(Debug, Drop)]
pub struct Array<T> {
    items: Vec<T>,
}

impl<T> Model for Array<T> {
    ghost use Rattle.std.specs.Prelude.{List};

    ghost Value = { List T };

    ghost view = { λ a. a.items.items };
}

impl<T> Array<T> {
    /// Of items, in the order of their indices.
    pub fn new(items: Vec<T>) -> Array<T>
        ensures { result ≡ items.items }
    {
        Array { items }
    }

    /// The items themselves.
    pub fn as_slice(&self) -> &[T]
        ensures { result.now ≡ self.now }
    {
        &self.items
    }

    /// How many items there are.
    pub fn len(&self) -> usize
        ensures { result ≡ length self.now }
    {
        self.items.len()
    }

    /// The item at an index, none past the last one.
    pub fn get(&self, index: usize) -> Option<&T>
        ensures { option_copied result ≡ slice_get self.now index }
    {
        self.items.get(index)
    }

    /// The items as a vector.
    pub fn into_vec(self) -> Vec<T>
        ensures { result.items ≡ self }
    {
        self.items
    }
}
