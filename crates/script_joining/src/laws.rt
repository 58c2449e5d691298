//! Laws of joining.
ghost use Rattle.script_joining.specs.Laws.{JoiningIsSteady};

/// Joining adds and deletes no glyph, and permutes none without a merge.
pub fn law_joining_is_steady()
    ensures { JoiningIsSteady }
{}
