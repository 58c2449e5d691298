//! Laws of the order of Hebrew marks.
ghost use Rattle.script_hebrew.specs.MarkOrder.{HebrewOrderIsSteady, HebrewOrderKeepsCount};

/// The order of a run has as many marks as the run.
#[tactic(auto, using(crate::proofs::MarkCounts::hebrew_length))]
pub fn law_order_keeps_count()
    ensures { HebrewOrderKeepsCount }
{}

/// No mark of a run is added or deleted, and none is moved without a merge.
#[tactic(auto, using(crate::proofs::MarkCounts::hebrew_steady))]
pub fn law_order_is_steady()
    ensures { HebrewOrderIsSteady }
{}
