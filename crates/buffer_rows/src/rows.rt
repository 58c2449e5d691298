//! A table of records in the strict order of their keys.
ghost use Rattle.std.specs.Prelude.{◌≡◌, None, OnErr, OnOk, is_some, true};
ghost use Rattle.std.specs.Option.{option_copied};
ghost use Rattle.buffer_rows.specs.Keys.{is_rising, row_with, with_inserted, with_row, without_key};

use crate::keyed::{Keyed, find_index, find_row, find_row_near, insert_row, remove_row};
use std::alloc::AllocError;
use std::marker::Model;

/// Records whose keys rise strictly, each found by its key.
#[derive(Debug, Drop)]
pub struct SortedRows<R: Keyed> {
    rows: Vec<R>,
}

impl<R: Keyed> Model for SortedRows<R> {
    ghost use Rattle.std.specs.Prelude.{◌≡◌, List, None, true};
    ghost use Rattle.buffer_rows.specs.Keys.{is_rising};

    ghost Value = { List R };

    ghost view = { λ s. s.rows.items };

    ghost invariant = { λ s. is_rising R.Key.cmp R.key_of None s.rows.items ≡ true };
}

impl<R: Keyed> SortedRows<R> {
    /// A table of records whose keys rise strictly.
    pub fn new(rows: Vec<R>) -> SortedRows<R>
        requires { is_rising R.Key.cmp R.key_of None rows.items ≡ true }
        ensures { result ≡ rows.items }
    {
        SortedRows { rows }
    }

    /// The record of a key, in logarithmic time.
    pub fn get(&self, key: R::Key) -> Option<&R>
        ensures { option_copied result ≡ row_with R.Key.cmp R.key_of key self.now }
    {
        find_row(&self.rows, key)
    }

    /// The record of a key: at once where it stands at the guessed index, else in logarithmic time.
    pub fn get_near(&self, key: R::Key, guess: usize) -> Option<&R>
        ensures { option_copied result ≡ row_with R.Key.cmp R.key_of key self.now }
    {
        find_row_near(&self.rows, key, guess)
    }

    /// The records, in the order of their keys.
    pub fn as_slice(&self) -> &[R]
        ensures { result.now ≡ self.now }
    {
        &self.rows
    }

    /// The records, whose keys rise strictly, for a search by one number of their key.
    pub fn rising_rows(&self) -> &[R]
        ensures same { result.now ≡ self.now }
        ensures rising { is_rising R.Key.cmp R.key_of None result.now ≡ true }
    {
        &self.rows
    }

    /// The records as a vector, whose keys rise strictly.
    pub fn into_vec(self) -> Vec<R>
        ensures same { result.items ≡ self }
        ensures rising { is_rising R.Key.cmp R.key_of None result.items ≡ true }
    {
        self.rows
    }
}

impl<R: Keyed + Copy> SortedRows<R> {
    /// Puts a record in the place of that of its key, in logarithmic time; whether there is one.
    pub fn replace(&mut self, row: R) -> bool
        ensures found { result ≡ is_some (row_with R.Key.cmp R.key_of (R.key_of row) self.old) }
        ensures replaced { self.new ≡ with_row R.Key.cmp R.key_of row self.old }
    {
        match find_index(&self.rows, row.key()) {
            Some(index) => {
                self.rows[index] = row;
                true
            }
            None => false,
        }
    }

    /// Inserts a record, in the place of that of its key if there is one, in linear time.
    pub fn insert(&mut self, row: R) -> Result<(), AllocError>
        ensures inserted { OnOk result (self.new ≡ with_inserted R.Key.cmp R.key_of row self.old) }
        ensures kept { OnErr result (self.new ≡ self.old) }
    {
        insert_row(&mut self.rows, row)
    }

    /// Removes the record of a key, if there is one, in linear time.
    pub fn remove(&mut self, key: R::Key)
        ensures { self.new ≡ without_key R.Key.cmp R.key_of key self.old }
    {
        remove_row(&mut self.rows, key);
    }
}
