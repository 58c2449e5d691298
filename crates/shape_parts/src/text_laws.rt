//! The clusters of a text that was pushed once, and of the glyphs that `shape` makes of it.
ghost use Rattle.shape_parts.specs.TextLaws.{GuessingKeepsClusters, PushedTextsArePushedOnce, ShapedClustersAreParts, ShapedClustersStandInLine, ShapedRunsHaveOneFlagSet, ShapedSlicesAreNoCoarser, ShapedTextsFit, ShapedTextsKeepLeast, ShapersCountItems, ShapersKeepDirection, ShapersKeepParts, StartsRise, TextRangesReadNumbers};

use shape_pipeline::laws::law_texts_are_even;

/// The bytes at which characters begin rise from 0.
pub fn law_starts_rise()
    ensures { StartsRise }
{}

/// A text that `push_str` appends to a buffer without characters has the starts of its characters as clusters.
pub fn law_pushed_texts_are_pushed_once()
    ensures { PushedTextsArePushedOnce }
{}

/// Guessing the direction and the script changes no cluster.
pub fn law_guessing_keeps_clusters()
    ensures { GuessingKeepsClusters }
{}

/// Each glyph that a text is shaped to has the cluster of its part.
pub fn law_shaped_clusters_are_parts()
    ensures { ShapedClustersAreParts }
{}

/// The clusters of a shaped text never fall along a forward line, and never rise along a backward one.
pub fn law_shaped_clusters_stand_in_line()
    ensures { ShapedClustersStandInLine }
{}

/// The least cluster of a text stays while a glyph is left.
pub fn law_shaped_texts_keep_least()
    ensures { ShapedTextsKeepLeast }
{}

/// The glyphs of a text that was pushed once fit it, while one is left: `slices_fit` is true.
pub fn law_shaped_texts_fit()
    ensures { ShapedTextsFit }
{}

/// Two characters share a slice of a shaped text only where a join or a deletion united their parts.
pub fn law_shaped_slices_are_no_coarser()
    ensures { ShapedSlicesAreNoCoarser }
{}

/// Each run of glyphs of a shaped text has one set of glyph flags.
pub fn law_shaped_runs_have_one_flag_set()
    ensures { ShapedRunsHaveOneFlagSet }
{
    law_texts_are_even();
}

/// The shapers of this stack keep the parts of the texts that they shape, by lawful tables, where they keep the order of clusters.
pub fn law_shapers_keep_parts()
    ensures { ShapersKeepParts }
{}

/// No shaper of this stack changes the direction of a text before its glyphs are put in visual order.
pub fn law_shapers_keep_direction()
    ensures { ShapersKeepDirection }
{}

/// The rules of every shaper of this stack, before the masks of ranges, leave a glyph for each item.
pub fn law_shapers_count_items()
    ensures { ShapersCountItems }
{}

/// At every level and for every shaper the masks of ranges of a text read a cluster of the text for each item.
pub fn law_text_ranges_read_numbers()
    ensures { TextRangesReadNumbers }
{}
