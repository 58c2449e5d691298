//! The search for records by number or by tags.
ghost use Rattle.std.specs.Prelude.{◌≡◌, find, ◌==◌, None, true};
ghost use Rattle.std.specs.Option.{option_copied};
ghost use Rattle.layout_tables.specs.Choice.{first_found};
ghost use Rattle.layout_tables.specs.Keyed.{is_rising};

use buffer_common::tag::Tag;
use buffer_rows::{Keyed, find_row};

/// The record of a number.
#[tactic(auto, using(buffer_rows::proofs::Searched::row_of_number))]
pub(crate) fn find_keyed<R: Keyed<Key = u32>>(records: &[R], key: u32) -> Option<&R>
    requires { is_rising R.key_of None records.now ≡ true }
    ensures { option_copied result ≡ find (λ r. R.key_of r == key) records.now }
{
    find_row(records, key)
}

/// The record of a number: at once where it stands at the guessed index, else in logarithmic time.
#[tactic(auto, using(buffer_rows::proofs::Searched::row_of_number))]
pub(crate) fn find_keyed_near<R: Keyed<Key = u32>>(
    records: &[R],
    key: u32,
    guess: usize,
) -> Option<&R>
    requires { is_rising R.key_of None records.now ≡ true }
    ensures { option_copied result ≡ find (λ r. R.key_of r == key) records.now }
{
    match records.get(guess) {
        Some(record) if record.key() == key => Some(record),
        _ => find_row(records, key),
    }
}

/// The record of the first tag that has one, in records whose key is their tag's number.
pub(crate) fn find_first<'a, R: Keyed<Key = u32>>(records: &'a [R], tags: &[Tag]) -> Option<&'a R>
    requires { is_rising R.key_of None records.now ≡ true }
    ensures { option_copied result ≡ first_found (λ tag. find (λ r. R.key_of r == tag.0) records.entry.now) tags.now }
{
    for tag in tags {
        if let Some(record) = find_keyed(records, tag.0) {
            return Some(record);
        }
    }
    None
}
