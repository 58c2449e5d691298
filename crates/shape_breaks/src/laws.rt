//! What holds of texts that are broken where the tests allow it. All are laws of our own, which rustybuzz has not.
ghost use Rattle.shape_breaks.specs.Laws.{BrokenTextsShowBoth, BrokenTextsShowBothByPlans, TablesKeepMarks, TablesKeepTypes};
ghost use Rattle.shape_breaks.specs.ManyCuts.{AlikePiecesHaveLikeMarks, TextsShowAllPieces};

use shape_laws::breaks::break_laws::{law_planned_safe_breaks, law_safe_breaks};
use shape_laws::breaks::chain_laws::{law_nearest_contexts_show, law_tones_are_marks};
use shape_pipeline::laws::law_texts_keep_numbers;

/// What stands for a character by a shaper keeps marks, where tables and font do.
pub fn law_tables_keep_marks()
    ensures { TablesKeepMarks }
{}

/// What stands for a character by a shaper keeps joining types, where lawful tables do.
pub fn law_tables_keep_types()
    ensures { TablesKeepTypes }
{}

/// Safe breaks of `shape_with_plan`, where `may_be_broken` answers true.
pub fn law_broken_texts_show_both_by_plans()
    ensures { BrokenTextsShowBothByPlans }
{
    law_planned_safe_breaks();
    law_tables_keep_marks();
    law_tables_keep_types();
    law_nearest_contexts_show();
    law_tones_are_marks();
}

/// Safe breaks of `shape`, where `may_be_broken` answers true.
pub fn law_broken_texts_show_both()
    ensures { BrokenTextsShowBoth }
{
    law_safe_breaks();
    law_tables_keep_marks();
    law_tables_keep_types();
    law_nearest_contexts_show();
    law_tones_are_marks();
}

/// A text that is cut before many clusters at once shows all its pieces.
pub fn law_texts_show_all_pieces()
    ensures { TextsShowAllPieces }
{
    law_safe_breaks();
    law_texts_keep_numbers();
}

/// Pieces that all have a mark after their first character, or of which none has a mark, are cut alike, each from what is
/// left.
pub fn law_alike_pieces_have_like_marks()
    ensures { AlikePiecesHaveLikeMarks }
{}
