//! Tests of one answer.
ghost use Rattle.std.specs.Prelude.{◌≡◌, ◌↔◌, IfOk, IsTrue, map, nat_lt};
ghost use Rattle.std.specs.List.{list_all};
ghost use Rattle.buffer_glyphs.specs.EventParts.{AreEvenRuns};
ghost use Rattle.buffer_glyphs.specs.Items.{clusters};
ghost use Rattle.buffer_glyphs.specs.Order.{has_number};
ghost use Rattle.buffer_glyphs.specs.Origins.{origin_of, origins};
ghost use Rattle.shape_slices.specs.Runs.{byte_range};
ghost use Rattle.shape_trials.specs.Answers.{SlicesJoin, are_even_runs, are_joined_from, in_text_order, is_even_from};

use buffer_glyphs::info::{DEFINED, hb_glyph_info_t};
use buffer_wrappers::glyphs::GlyphBuffer;
use shape_slices::fitting::slices_fit;
use shape_slices::slices::{SourceSlice, source_slices};
use std::alloc::{AllocError, Global};

/// Whether each glyph number is below the font's number of glyphs.
pub(crate) fn numbers_are_below(glyphs: &[hb_glyph_info_t], count: u32) -> bool
    ensures { result ≡ list_all (λ g. nat_lt g.glyph_id count) glyphs.now }
{
    glyphs.iter().all(|glyph| glyph.glyph_id < count)
}

/// Whether each cluster is one of the text's.
pub(crate) fn clusters_are_among(glyphs: &[hb_glyph_info_t], starts: &[u32]) -> bool
    ensures { result ≡ list_all (λ n. has_number starts.now n) (clusters glyphs.now) }
{
    for glyph in glyphs {
        if !starts.contains(&glyph.cluster) {
            return false;
        }
    }
    true
}

/// Whether neighbours of one cluster have the same glyph flags.
#[tactic(auto, using(crate::proofs::Decides::even_decides))]
pub(crate) fn flags_are_even(glyphs: &[hb_glyph_info_t]) -> bool
    ensures { IsTrue result ↔ AreEvenRuns (origins glyphs.now) }
{
    are_even_runs(glyphs)
}

fn are_even_runs(glyphs: &[hb_glyph_info_t]) -> bool
    ensures { result ≡ are_even_runs (origins glyphs.now) }
{
    match glyphs {
        [] => true,
        [first, rest @ ..] => are_even_after(first, rest),
    }
}

fn are_even_after(first: &hb_glyph_info_t, rest: &[hb_glyph_info_t]) -> bool
    ensures { result ≡ is_even_from (origin_of first.now) (origins rest.now) }
{
    let mut before = *first;
    for glyph in rest {
        if before.cluster == glyph.cluster && before.mask & DEFINED != glyph.mask & DEFINED {
            return false;
        }
        before = *glyph;
    }
    true
}

/// Whether the slices of the runs, in the order of the text, join to the whole text.
#[tactic(auto, using(crate::proofs::Decides::joined_slices))]
pub(crate) fn slices_join(
    alloc: Global,
    glyphs: &GlyphBuffer,
    text: &str,
    is_backward: bool,
) -> Result<bool, AllocError>
    ensures { IfOk result (λ b. IsTrue b → SlicesJoin is_backward glyphs.now text.now) }
{
    if !slices_fit(glyphs, text) {
        return Ok(false);
    }
    let mut slices = source_slices(alloc, glyphs, text)?;
    put_in_text_order(&mut slices, is_backward);
    Ok(are_joined(&slices, text.len()))
}

fn put_in_text_order(slices: &mut Vec<SourceSlice>, is_backward: bool)
    ensures { slices.new.items ≡ in_text_order is_backward slices.old.items }
{
    if is_backward {
        slices.as_mut_slice().reverse();
    }
}

fn are_joined(slices: &[SourceSlice], end: usize) -> bool
    ensures { result ≡ are_joined_from 0 end (map byte_range slices.now) }
{
    let mut at = 0;
    for slice in slices {
        if slice.start != at || slice.end <= slice.start {
            return false;
        }
        at = slice.end;
    }
    at == end
}
