//! Reads the numbers of a JSON text.
ghost use Rattle.std.specs.Prelude.{◌≡◌, ◌==◌, ◌<◌, length, slice_index, Some, IfSome, IsTrue, true, false};
ghost use Rattle.serde_json.specs.Read.{number_of, number_from};
ghost use Rattle.serde_json.specs.View.{number_view};

use fast_float::Numeral;
use serde_json::Number;

/// The number of a token, where it is an integer of 64 bits.
pub fn integer(text: &str) -> Option<Number>
    ensures { IfSome result (λ n. number_of text.now ≡ Some (number_view n)) }
{
    let bytes = text.as_bytes();
    if has_minus(bytes) {
        negative(&Numeral::scan(&bytes[1..]))
    } else {
        unsigned(&Numeral::scan(bytes))
    }
}

fn has_minus(bytes: &[u8]) -> bool
    ensures value { result ≡ (slice_index bytes.now 0 == 45) }
    ensures len { IsTrue result → 0 < length bytes.now }
{
    !bytes.is_empty() && bytes[0] == b'-'
}

fn unsigned(numeral: &Numeral<'_>) -> Option<Number>
    ensures { IfSome result (λ n. number_from false numeral.now ≡ Some (number_view n)) }
{
    Some(Number::from(numeral.to_u64()?))
}

fn negative(numeral: &Numeral<'_>) -> Option<Number>
    ensures { IfSome result (λ n. number_from true numeral.now ≡ Some (number_view n)) }
{
    match numeral.to_i64(true)? {
        n @ ..=-1 => Some(Number::from(n)),
        _ => None,
    }
}
