//! Lists of records in the strict order of their keys.
ghost use Rattle.std.specs.Prelude.{◌≡◌, ◌<◌, MatchOption, MatchResult, None, OnErr, OnOk, get_or, length, true};
ghost use Rattle.std.specs.List.Sorted.{IsPartitionPoint, IsSearchInRange};
ghost use Rattle.std.specs.Option.{option_copied};
ghost use Rattle.std.specs.declared.cmp.Ordering.TheVariants.{Equal, Greater, Less};
ghost use Rattle.buffer_rows.specs.Keys.{is_above, is_rising, row_with, with_inserted, without_key};

use std::alloc::AllocError;

/// A record of a list that is ordered by a key: a number, or a pair whose first number is the more significant.
pub trait Keyed {
    type Key: Ord + Copy + Drop;

    ghost key_of: { Self → Self.Key };

    /// The key by which the list is ordered.
    fn key(&self) -> Self::Key
        ensures { result ≡ key_of self.now };
}

/// Whether each key is greater than the one before it.
pub fn is_rising<R: Keyed>(rows: &[R]) -> bool
    ensures { result ≡ is_rising R.Key.cmp R.key_of None rows.now }
{
    let mut before = None;
    for row in rows {
        let key = row.key();
        if !is_above(before, key) {
            return false;
        }
        before = Some(key);
    }
    true
}

/// Whether a key is greater than the one before it, if there is one.
pub fn is_above<K: Ord + Copy + Drop>(before: Option<K>, key: K) -> bool
    ensures { result ≡ is_above K.cmp before key }
{
    match before {
        Some(before) => before.cmp(&key).is_lt(),
        None => true,
    }
}

/// The record of a key, in logarithmic time.
pub fn find_row<R: Keyed>(rows: &[R], key: R::Key) -> Option<&R>
    requires { is_rising R.Key.cmp R.key_of None rows.now ≡ true }
    ensures { option_copied result ≡ row_with R.Key.cmp R.key_of key rows.now }
{
    match rows.binary_search_by_key(&key, |row| row.key()) {
        Ok(index) => Some(&rows[index]),
        Err(_) => None,
    }
}

/// The record of a key: at once where it stands at the guessed index, else in logarithmic time.
#[tactic(auto, using(crate::proofs::Searched::guessed))]
pub fn find_row_near<R: Keyed>(rows: &[R], key: R::Key, guess: usize) -> Option<&R>
    requires { is_rising R.Key.cmp R.key_of None rows.now ≡ true }
    ensures { option_copied result ≡ row_with R.Key.cmp R.key_of key rows.now }
{
    match rows.get(guess) {
        Some(row) if row.key().cmp(&key).is_eq() => Some(row),
        _ => find_row(rows, key),
    }
}

/// The index of the record of a key, in logarithmic time.
pub(crate) fn find_index<R: Keyed>(rows: &[R], key: R::Key) -> Option<usize>
    requires { is_rising R.Key.cmp R.key_of None rows.now ≡ true }
    ensures { MatchOption result (None ≡ row_with R.Key.cmp R.key_of key rows.now) (λ i. (i < length rows.now)
        × ((d : R) → R.Key.cmp (R.key_of (get_or rows.now i d)) key ≡ Equal)) }
{
    match rows.binary_search_by_key(&key, |row| row.key()) {
        Ok(index) => Some(index),
        Err(_) => None,
    }
}

/// The index of the record of a key, or where it has none, that before which it would stand, in logarithmic time.
fn index_for<R: Keyed>(rows: &[R], key: R::Key) -> Result<usize, usize>
    requires { is_rising R.Key.cmp R.key_of None rows.now ≡ true }
    ensures range { IsSearchInRange result (length rows.now) }
    ensures found { MatchResult result (λ i. (d : R) → R.Key.cmp (R.key_of (get_or rows.now i d)) key ≡ Equal)
        (λ i. IsPartitionPoint (λ r. R.Key.cmp (R.key_of r) key ≡ Less) (λ r. R.Key.cmp (R.key_of r) key ≡ Greater) rows.now i) }
{
    match rows.binary_search_by_key(&key, |row| row.key()) {
        Ok(index) => Ok(index),
        Err(index) => Err(index),
    }
}

/// Inserts a record between those of lesser and of greater keys, in the place of that of its key if there is one.
pub(crate) fn insert_row<R: Keyed + Copy>(rows: &mut Vec<R>, row: R) -> Result<(), AllocError>
    requires { is_rising R.Key.cmp R.key_of None rows.old.items ≡ true }
    ensures inserted { OnOk result (rows.new.items ≡ with_inserted R.Key.cmp R.key_of row rows.old.items) }
    ensures rising { is_rising R.Key.cmp R.key_of None rows.new.items ≡ true }
    ensures kept { OnErr result (rows.new.items ≡ rows.old.items) }
{
    match index_for(rows, row.key()) {
        Ok(index) => {
            rows[index] = row;
            Ok(())
        }
        Err(index) => Ok(rows.insert(index, row)?),
    }
}

/// Removes the record of a key, if there is one.
pub(crate) fn remove_row<R: Keyed + Copy>(rows: &mut Vec<R>, key: R::Key)
    requires { is_rising R.Key.cmp R.key_of None rows.old.items ≡ true }
    ensures rest { rows.new.items ≡ without_key R.Key.cmp R.key_of key rows.old.items }
    ensures rising { is_rising R.Key.cmp R.key_of None rows.new.items ≡ true }
{
    if let Ok(index) = index_for(rows, key) {
        rows.remove(index);
    }
}
