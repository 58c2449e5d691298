//! The traits of a row: a record that is made of numbers and found by its key.
ghost use Rattle.std.specs.Prelude.{◌≡◌, ℕ, Bool, List, Some, None, if◌then◌else◌};

use buffer_rows::Numbered;

/// A record with a key of one or two numbers, the second being the more significant.
pub trait DoublyKeyed: Copy {
    ghost high: { Self → ℕ };

    ghost low: { Self → ℕ };

    /// The more significant number of the key, 0 where the key is one number.
    fn high(&self) -> u32
        ensures { result ≡ high self.now };

    /// The less significant number of the key.
    fn low(&self) -> u32
        ensures { result ≡ low self.now };
}

/// A record that is found by one number has 0 and this number as its key.
impl<R: Numbered> DoublyKeyed for R {
    ghost high = { λ _. 0 };

    ghost low = { R.number_of };

    fn high(&self) -> u32 {
        0
    }

    fn low(&self) -> u32 {
        self.number()
    }
}

/// A record that is read from a row of N numbers.
pub trait Row<const N: usize>: DoublyKeyed {
    ghost of_numbers: { List ℕ → Self };

    ghost is_in_range: { Self → Bool };

    /// The record, or `None` where a number is outside its range.
    fn read(numbers: &[u32; N]) -> Option<Self>
        ensures { result ≡ (if is_in_range (of_numbers numbers.now) then Some (of_numbers numbers.now) else None) };
}
