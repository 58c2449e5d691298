//! The search for a row by its key, from a guess of its index.
ghost use Rattle.std.specs.Prelude.{◌≡◌, None, true, find, slice_get};
ghost use Rattle.buffer_unicode.specs.Keys.{is_at, is_rising};
ghost use Rattle.script_categories.specs.Gaps.{stands_after, stands_before};

use buffer_unicode::{DoublyKeyed, find_by_key};

/// The row with a key: at once where it stands at the guessed index, or would stand there, else by a binary search.
#[tactic(auto, using(crate::proofs::Guesses::found_there))]
pub(crate) fn find_by_key_near<R: DoublyKeyed>(
    rows: &[R],
    high: u32,
    low: u32,
    guess: usize,
) -> Option<R>
    requires { is_rising R.high R.low rows.now ≡ true }
    ensures { result ≡ find (is_at R.high R.low high low) rows.now }
{
    if let Some(row) = rows.get(guess)
        && row.high() == high
        && row.low() == low
    {
        return Some(*row);
    }
    if is_gap(rows, high, low, guess) {
        return None;
    }
    find_by_key(rows, high, low)
}

/// Whether a key is between the row before an index and the row at it, so that no row has it.
#[tactic(auto, using(crate::proofs::Guesses::none_after, crate::proofs::Guesses::none_between))]
fn is_gap<R: DoublyKeyed>(rows: &[R], high: u32, low: u32, index: usize) -> bool
    requires { is_rising R.high R.low rows.now ≡ true }
    ensures { result ≡ true → find (is_at R.high R.low high low) rows.now ≡ None }
{
    if index == 0 {
        return stands_after(rows, high, low, 0);
    }
    stands_before(rows, high, low, index - 1) && stands_after(rows, high, low, index)
}

/// Whether the row at an index is after a key, or no row stands there.
fn stands_after<R: DoublyKeyed>(rows: &[R], high: u32, low: u32, index: usize) -> bool
    ensures { result ≡ stands_after R.high R.low high low (slice_get rows.now index) }
{
    match rows.get(index) {
        Some(row) => high < row.high() || (high == row.high() && low < row.low()),
        None => true,
    }
}

/// Whether the row at an index is before a key.
fn stands_before<R: DoublyKeyed>(rows: &[R], high: u32, low: u32, index: usize) -> bool
    ensures { result ≡ stands_before R.high R.low high low (slice_get rows.now index) }
{
    match rows.get(index) {
        Some(row) => row.high() < high || (row.high() == high && row.low() < low),
        None => false,
    }
}
