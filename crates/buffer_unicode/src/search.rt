//! The search for a row by its key.
ghost use Rattle.std.specs.Prelude.{◌≡◌, true, find};
ghost use Rattle.buffer_unicode.specs.Keys.{is_below, is_rising, is_at};

use crate::keyed::DoublyKeyed;

/// The row with a key, by a binary search.
pub fn find_by_key<R: DoublyKeyed>(rows: &[R], high: u32, low: u32) -> Option<R>
    requires { is_rising R.high R.low rows.now ≡ true }
    ensures { result ≡ find (is_at R.high R.low high low) rows.now }
{
    match rows.binary_search_by_key(&(high, low), |row| (row.high(), row.low())) {
        Ok(index) => Some(rows[index]),
        Err(_) => None,
    }
}

/// Whether one key is below another.
pub(crate) fn is_below(high: u32, low: u32, other_high: u32, other_low: u32) -> bool
    ensures { result ≡ is_below high low other_high other_low }
{
    high < other_high || (high == other_high && low < other_low)
}
