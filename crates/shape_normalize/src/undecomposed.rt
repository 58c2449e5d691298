//! Characters that are known to have no decomposition, which are remembered during the first round.
ghost use Rattle.std.specs.Prelude.{◌≡◌, is_none};
ghost use Rattle.shape_normalize.specs.Fronts.{is_undecomposed};
ghost use Rattle.shape_normalize.specs.Undecomposed.{AreUndecomposed};

use crate::normalizing::Normalizing;
use buffer_properties::Reach;

/// How many characters are remembered at once: those of a script mostly have rows of their own.
pub(crate) const ROWS: usize = 64;

/// Whether a character has no decomposition. One that has none is remembered in the row of its number modulo `ROWS`, if
/// `known` has that row; it only saves time.
#[tactic(auto, using(crate::proofs::Remembered::row_known, crate::proofs::Remembered::row_made))]
fn has_no_pieces<N: Normalizing>(by: &N, known: &mut [Option<u32>], u: u32) -> bool
    requires { AreUndecomposed (N.normalizer by.now) known.old }
    ensures value { result ≡ is_none ((N.normalizer by.now).splits u) }
    ensures known { AreUndecomposed (N.normalizer by.now) known.new }
{
    let at = u as usize % ROWS;
    if known.len() <= at {
        return by.decompose(u).is_none();
    }
    if let Some(character) = known[at]
        && character == u
    {
        return true;
    }
    if by.decompose(u).is_some() {
        return false;
    }
    known[at] = Some(u);
    true
}

/// Whether a decomposition is not looked for, or there is none.
pub(crate) fn is_undecomposed<N: Normalizing>(
    by: &N,
    reach: Reach,
    known: &mut [Option<u32>],
    u: u32,
) -> bool
    requires { AreUndecomposed (N.normalizer by.now) known.old }
    ensures value { result ≡ is_undecomposed reach ((N.normalizer by.now).splits u) }
    ensures known { AreUndecomposed (N.normalizer by.now) known.new }
{
    match reach {
        Reach::Least => true,
        Reach::Greatest => has_no_pieces(by, known, u),
    }
}
