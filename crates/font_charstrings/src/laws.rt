//! What the box of a pen has.
ghost use Rattle.font_charstrings.specs.Boxes.{LinesAreWithin, PathsAreWithin};

/// Where a line ends is within the box, and so is all that was.
#[tactic(auto, using(crate::proofs::Boxes::lines_are_within))]
pub fn law_lines_are_within()
    ensures { LinesAreWithin }
{}

/// Where a path begins is within the box, and so is all that was.
#[tactic(auto, using(crate::proofs::Boxes::paths_are_within))]
pub fn law_paths_are_within()
    ensures { PathsAreWithin }
{}
