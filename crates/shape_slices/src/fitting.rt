//! Whether a result can be traced to its text (of this project).
ghost use Rattle.std.specs.Prelude.{◌≡◌, ◌↔◌, IsTrue, nat_lt};
ghost use Rattle.std.specs.List.{list_all};
ghost use Rattle.buffer_glyphs.specs.Items.{clusters};
ghost use Rattle.buffer_glyphs.specs.Order.{has_number};
ghost use Rattle.buffer_parts.specs.Slices.{first_or};
ghost use Rattle.shape_slices.specs.Deciding.{are_fitting, are_fitting_units, are_ordered, fall_from, rise_from};
ghost use Rattle.shape_slices.specs.Fitting.{SlicesFit, UnitsFit, character_starts};

use buffer_glyphs::info::hb_glyph_info_t;
use buffer_wrappers::glyphs::GlyphBuffer;

/// Whether the clusters of a result never fall or never rise, each is a byte at which a character of the text begins, and 0 is among
/// them. Takes no memory.
#[tactic(auto, using(crate::proofs::Fits::fits_exactly))]
pub fn slices_fit(glyphs: &GlyphBuffer, text: &str) -> bool
    ensures { IsTrue result ↔ SlicesFit glyphs.now text.now }
{
    are_fitting(glyphs.glyph_infos(), text)
}

/// Whether the clusters of a result never fall or never rise, each is the index of one of `end` units, as of UTF-16, and 0 is among
/// them. Takes no memory.
#[tactic(auto, using(crate::proofs::Fits::units_exactly))]
pub fn units_fit(glyphs: &GlyphBuffer, end: usize) -> bool
    ensures { IsTrue result ↔ UnitsFit glyphs.now end }
{
    are_fitting_units(glyphs.glyph_infos(), end)
}

/// Whether the clusters of some glyphs fit a text of `end` units.
fn are_fitting_units(glyphs: &[hb_glyph_info_t], end: usize) -> bool
    ensures { result ≡ are_fitting_units end (clusters glyphs.now) }
{
    are_in_order(glyphs) && are_all_below(glyphs, end) && has_first(glyphs)
}

/// Whether each cluster is below `end`.
fn are_all_below(glyphs: &[hb_glyph_info_t], end: usize) -> bool
    ensures { result ≡ list_all (λ n. nat_lt n end) (clusters glyphs.now) }
{
    for glyph in glyphs {
        if glyph.cluster as usize >= end {
            return false;
        }
    }
    true
}

/// Whether the clusters of some glyphs fit a text.
fn are_fitting(glyphs: &[hb_glyph_info_t], text: &str) -> bool
    ensures { result ≡ are_fitting (character_starts text.now) (clusters glyphs.now) }
{
    if !are_in_order(glyphs) {
        return false;
    }
    if !are_all_starts(glyphs, text) {
        return false;
    }
    has_first(glyphs)
}

/// Whether the clusters of some glyphs never fall, or never rise.
fn are_in_order(glyphs: &[hb_glyph_info_t]) -> bool
    ensures { result ≡ are_ordered (clusters glyphs.now) }
{
    are_rising(glyphs) || are_falling(glyphs)
}

/// Whether clusters never fall.
fn are_rising(glyphs: &[hb_glyph_info_t]) -> bool
    ensures { result ≡ rise_from 0 (clusters glyphs.now) }
{
    let mut last = 0;
    for glyph in glyphs {
        if glyph.cluster < last {
            return false;
        }
        last = glyph.cluster;
    }
    true
}

/// Whether clusters never rise.
fn are_falling(glyphs: &[hb_glyph_info_t]) -> bool
    ensures { result ≡ fall_from (first_or 0 (clusters glyphs.now)) (clusters glyphs.now) }
{
    let mut last = first_cluster(glyphs);
    for glyph in glyphs {
        if glyph.cluster > last {
            return false;
        }
        last = glyph.cluster;
    }
    true
}

/// The cluster of the first glyph, 0 where there is none.
fn first_cluster(glyphs: &[hb_glyph_info_t]) -> u32
    ensures { result ≡ first_or 0 (clusters glyphs.now) }
{
    match glyphs {
        [] => 0,
        [first, ..] => first.cluster,
    }
}

/// Whether each cluster is a byte at which a character begins.
fn are_all_starts(glyphs: &[hb_glyph_info_t], text: &str) -> bool
    ensures { result ≡ list_all (λ n. has_number (character_starts text.now) n) (clusters glyphs.now) }
{
    for glyph in glyphs {
        if !is_start(text, glyph.cluster as usize) {
            return false;
        }
    }
    true
}

/// Whether a character of the text begins at a byte.
#[tactic(auto, using(crate::proofs::Starts::starts_are_boundaries, crate::proofs::Starts::no_start_past))]
fn is_start(text: &str, at: usize) -> bool
    ensures { result ≡ has_number (character_starts text.now) at }
{
    at < text.len() && text.is_char_boundary(at)
}

/// Whether a glyph is of cluster 0.
fn has_first(glyphs: &[hb_glyph_info_t]) -> bool
    ensures { result ≡ has_number (clusters glyphs.now) 0 }
{
    for glyph in glyphs {
        if glyph.cluster == 0 {
            return true;
        }
    }
    false
}
