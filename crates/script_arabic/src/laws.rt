//! Laws of the order of Arabic marks.
ghost use Rattle.script_arabic.specs.MarkOrder.{ArabicOrderIsSteady, ArabicOrderKeepsCount, MarksAreSteady};

/// The order of a run has as many marks as the run.
#[tactic(auto, using(crate::proofs::MarkCounts::arabic_length))]
pub fn law_order_keeps_count()
    ensures { ArabicOrderKeepsCount }
{}

/// No mark of a run is added or deleted, and none is moved without a merge.
#[tactic(auto, using(crate::proofs::MarkCounts::arabic_steady))]
pub fn law_order_is_steady()
    ensures { ArabicOrderIsSteady }
{}

/// The order of a text's marks adds and deletes no glyph, and permutes none without a merge.
#[tactic(auto, using(crate::proofs::MarkCounts::marks_are_steady))]
pub fn law_marks_are_steady()
    ensures { MarksAreSteady }
{}
