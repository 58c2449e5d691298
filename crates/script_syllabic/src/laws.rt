//! Laws of dotted circles.
ghost use Rattle.script_syllabic.specs.Circles.{ErasingCircles, NoCircleChangesNothing};

/// Inserting circles changes nothing else: the list without the circles is the list before the insertion.
#[tactic(auto, using(crate::proofs::Erased::erasing_circles))]
pub fn law_erasing_circles()
    ensures { ErasingCircles }
{}

/// Where the stage answers false, which is where no syllable gets a circle, the text stays as it was.
#[tactic(auto, using(crate::proofs::Erased::is_told))]
pub fn law_no_circle_changes_nothing()
    ensures { NoCircleChangesNothing }
{}
