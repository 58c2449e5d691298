//! Sums of advances and offsets.
ghost use Rattle.std.specs.Prelude.{◌≡◌};
ghost use Rattle.layout_offsets.specs.Sums.{minus, plus};

/// A sum modulo 2^32.
pub fn plus(a: i32, b: i32) -> i32
    ensures { result ≡ plus a b }
{
    a.wrapping_add(b)
}

/// A difference modulo 2^32.
pub fn minus(a: i32, b: i32) -> i32
    ensures { result ≡ minus a b }
{
    a.wrapping_sub(b)
}
