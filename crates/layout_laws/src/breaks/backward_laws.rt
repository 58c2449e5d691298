//! Lookups that are tried from the right do to a text what they do to its fragments.
ghost use Rattle.layout_laws.specs.Breaks.Backward.{BackwardPassesReadBeside, ReversesActOneForOne, ReversesAreDivisible, ReversesAreLocal};

/// Reverse chaining substitution is local.
pub fn law_reverses_are_local()
    ensures { ReversesAreLocal }
{}

/// It acts one for one.
pub fn law_reverses_act_one_for_one()
    ensures { ReversesActOneForOne }
{}

/// A local rule that acts one for one, tried from the right, reads a text as its fragments, one beside the other, or makes it
/// unsafe to break there.
pub fn law_backward_passes_read_beside()
    ensures { BackwardPassesReadBeside }
{}

/// Reverse chaining substitution over a text is divisible.
pub fn law_reverses_are_divisible()
    ensures { ReversesAreDivisible }
{}
