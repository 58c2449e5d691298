//! Laws of our own, which rustybuzz has not: which orders permute, so that no flag is lost.
ghost use Rattle.buffer_parts.specs.Breaks.OrderLaws.{MovesPermute, PermutationsPermute, ReversalsPermute};

/// An order that is a permutation of its indices permutes.
pub fn law_permutations_permute()
    ensures { PermutationsPermute }
{}

/// An order that reverses permutes.
pub fn law_reversals_permute()
    ensures { ReversalsPermute }
{}

/// An order that moves some elements before others permutes.
pub fn law_moves_permute()
    ensures { MovesPermute }
{}
