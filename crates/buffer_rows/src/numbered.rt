//! Records that are found by a number.
ghost use Rattle.std.specs.Prelude.{◌≡◌, ◌≢◌, ◌<◌, ℕ, false, get_or, length, true};
ghost use Rattle.buffer_rows.specs.Keys.{numbers_rise, row_of};
ghost use Rattle.buffer_rows.specs.Pages.{IsStart};

/// A record that is found by a number.
pub trait Numbered: Copy {
    ghost number_of: { Self → ℕ };

    /// The number by which the list is ordered.
    fn number(&self) -> u32
        ensures { result ≡ number_of self.now };
}

/// The index of the first record whose number is at least `first`.
pub fn first_from<R: Numbered>(rows: &[R], first: u32) -> usize
    requires { numbers_rise R.number_of rows.now ≡ true }
    ensures { IsStart R.number_of rows.now first result }
{
    rows.partition_point(|row| row.number() < first)
}

/// The record of a number, in logarithmic time.
pub(crate) fn find_number<R: Numbered>(rows: &[R], number: u32) -> Option<R>
    requires { numbers_rise R.number_of rows.now ≡ true }
    ensures { result ≡ row_of R.number_of number rows.now }
{
    match rows.binary_search_by_key(&number, |row| row.number()) {
        Ok(index) => Some(rows[index]),
        Err(_) => None,
    }
}

/// The record of a number: at once where it stands at the guessed index, else in logarithmic time.
#[tactic(auto, using(crate::proofs::DenseSlots::guessed_number))]
pub(crate) fn find_number_near<R: Numbered>(rows: &[R], number: u32, guess: usize) -> Option<R>
    requires { numbers_rise R.number_of rows.now ≡ true }
    ensures { result ≡ row_of R.number_of number rows.now }
{
    match rows.get(guess) {
        Some(row) if row.number() == number => Some(*row),
        _ => find_number(rows, number),
    }
}

/// Whether the record at an index has a number.
pub(crate) fn is_number_at<R: Numbered>(rows: &[R], index: usize, number: u32) -> bool
    ensures there { result ≡ true → index < length rows.now }
    ensures same { result ≡ true → (d : R) → R.number_of (get_or rows.now index d) ≡ number }
    ensures other { result ≡ false → index < length rows.now → (d : R) → R.number_of (get_or rows.now index d) ≢ number }
{
    match rows.get(index) {
        Some(row) => row.number() == number,
        None => false,
    }
}
