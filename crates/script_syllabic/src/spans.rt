//! The universal shaper's syllables, which the machine finds in a text without some of its glyphs
//! (rustybuzz: hb/ot_shaper_use.rs).
ghost use Rattle.std.specs.Prelude.{◌≡◌, ◌++◌, length, not, unwrap_or, IfErr, IfOk, OnOk};
ghost use Rattle.buffer_glyphs.specs.Items.{item_of, strip};
ghost use Rattle.buffer_stages.specs.Ready.{IsReady};
ghost use Rattle.buffer_stages.specs.Stages.{DoesStage};
ghost use Rattle.script_syllabic.specs.Spans.{are_all_counted, categories_counted, if_counted, is_counted, is_grapheme_joiner, counted_indices_from, indices_or_all, precedes_mark, universal_set};

use crate::syllables::{SyllableIndices, categories_of, set_bytes};
use buffer_core::buffer::hb_buffer_t;
use buffer_glyphs::cause::ShapeCause;
use buffer_glyphs::info::hb_glyph_info_t;
use buffer_properties::categories::is_mark;
use script_categories::SyllableSpans;
use script_categories::category::{CGJ, ZWNJ};
use script_categories::hb_ot_script_shaper_t::UNIVERSAL_SHAPER;
use std::alloc::Global;

/// The categories of the glyphs that count for syllables, and their indices.
#[derive(Drop)]
pub(crate) struct Counted {
    categories: Vec<u8>,
    buffer_indices: CountedIndices,
}

/// The indices of the counted glyphs, listed only where a glyph is skipped: in most texts each index is itself.
#[derive(Drop)]
pub(crate) struct CountedIndices {
    indices: Option<Vec<usize>>,
    end: usize,
}

impl SyllableIndices for CountedIndices {
    ghost use Rattle.script_syllabic.specs.Spans.{index_or_end, indices_or_all};

    ghost index_of = { λ p. index_or_end (indices_or_all p.indices p.end) p.end };

    #[tactic(auto, using(crate::proofs::AllCounted::index_itself))]
    fn buffer_index(&self, index: usize) -> usize {
        match &self.indices {
            None => index.min(self.end),
            Some(indices) => indices.get(index).copied().unwrap_or(self.end),
        }
    }
}

/// Sets the syllable byte of each glyph, and flags each syllable as unsafe to break. The machine skips grapheme
/// joiners, and each zero-width non-joiner before a mark; a skipped glyph gets the byte of the syllable before it, and
/// keeps its own where there is none. It takes the time of the spans, and memory for the categories of the counted
/// glyphs, and for their indices where a glyph is skipped.
///
/// # Errors
///
/// `UnknownSyllableKind` where the spans name a kind that the shaper does not have, or lack of memory.
pub fn find_syllables<S: SyllableSpans>(
    alloc: Global,
    spans: &S,
    buffer: &mut hb_buffer_t,
) -> Result<(), ShapeCause>
    requires ready { IsReady buffer.old }
    ensures { DoesStage (universal_set (S.span_of spans.now)) result buffer.old buffer.new }
{
    let counted = count_glyphs(alloc, buffer.info_slice())?;
    set_bytes(
        spans,
        UNIVERSAL_SHAPER,
        &counted.categories,
        &counted.buffer_indices,
        buffer,
    )
}

#[tactic(auto, using(crate::proofs::AllCounted::all_categories, crate::proofs::AllCounted::all_indices))]
fn count_glyphs(alloc: Global, glyphs: &[hb_glyph_info_t]) -> Result<Counted, ShapeCause>
    ensures categories { IfOk result (λ c. c.categories.items ≡ categories_counted (strip glyphs.now)) }
    ensures indices { IfOk result (λ c. indices_or_all c.buffer_indices.indices c.buffer_indices.end
        ≡ counted_indices_from 0 (strip glyphs.now)) }
    ensures end { IfOk result (λ c. c.buffer_indices.end ≡ length glyphs.now) }
    ensures err { IfErr result (λ e. e ≡ ShapeCause.OutOfMemory) }
{
    if !are_all_counted(glyphs) {
        return list_counted(alloc, glyphs);
    }
    let categories = categories_of(alloc, glyphs)?;
    let buffer_indices = CountedIndices {
        indices: None,
        end: glyphs.len(),
    };
    Ok(Counted {
        categories,
        buffer_indices,
    })
}

#[tactic(auto, using(crate::proofs::AllCounted::is_passed, crate::proofs::AllCounted::is_skipped, crate::proofs::AllCounted::none_skipped))]
fn are_all_counted(glyphs: &[hb_glyph_info_t]) -> bool
    ensures { result ≡ are_all_counted (strip glyphs.now) }
{
    for at in 0..glyphs.len() {
        if !is_counted(&glyphs[at], &glyphs[at + 1..]) {
            return false;
        }
    }
    true
}

/// Lists the categories and the indices of the counted glyphs.
fn list_counted(alloc: Global, glyphs: &[hb_glyph_info_t]) -> Result<Counted, ShapeCause>
    ensures categories { IfOk result (λ c. c.categories.items ≡ categories_counted (strip glyphs.now)) }
    ensures indices { IfOk result (λ c. indices_or_all c.buffer_indices.indices c.buffer_indices.end
        ≡ counted_indices_from 0 (strip glyphs.now)) }
    ensures end { IfOk result (λ c. c.buffer_indices.end ≡ length glyphs.now) }
    ensures err { IfErr result (λ e. e ≡ ShapeCause.OutOfMemory) }
{
    let mut categories = Vec::new(alloc);
    let mut indices = Vec::new(alloc);
    for at in 0..glyphs.len() {
        count_glyph(
            &glyphs[at],
            &glyphs[at + 1..],
            at,
            &mut categories,
            &mut indices,
        )?;
    }
    let buffer_indices = CountedIndices {
        indices: Some(indices),
        end: glyphs.len(),
    };
    Ok(Counted {
        categories,
        buffer_indices,
    })
}

/// Adds the glyph at an index to the counted ones, if it counts.
fn count_glyph(
    glyph: &hb_glyph_info_t,
    behind: &[hb_glyph_info_t],
    at: usize,
    categories: &mut Vec<u8>,
    indices: &mut Vec<usize>,
) -> Result<(), ShapeCause>
    ensures categories { OnOk result (categories.new.items
        ≡ categories.old.items ++ if_counted (item_of glyph.now) (strip behind.now) glyph.now.category) }
    ensures indices { OnOk result
        (indices.new.items ≡ indices.old.items ++ if_counted (item_of glyph.now) (strip behind.now) at) }
    ensures err { IfErr result (λ e. e ≡ ShapeCause.OutOfMemory) }
{
    if !is_counted(glyph, behind) {
        return Ok(());
    }
    categories.push(glyph.category)?;
    indices.push(at)?;
    Ok(())
}

/// Whether a glyph counts for syllables, by the glyphs after it.
fn is_counted(glyph: &hb_glyph_info_t, behind: &[hb_glyph_info_t]) -> bool
    ensures { result ≡ is_counted (item_of glyph.now) (strip behind.now) }
{
    match glyph.category {
        CGJ => false,
        ZWNJ => !stands_before_mark(behind),
        _ => true,
    }
}

#[tactic(auto, using(crate::proofs::Marks::next_met, crate::proofs::Marks::joiner_passed, crate::proofs::Marks::none_left))]
fn stands_before_mark(behind: &[hb_glyph_info_t]) -> bool
    ensures { result ≡ precedes_mark (strip behind.now) }
{
    for next in behind {
        if !is_grapheme_joiner(next) {
            return is_mark(next);
        }
    }
    false
}

fn is_grapheme_joiner(glyph: &hb_glyph_info_t) -> bool
    ensures { result ≡ is_grapheme_joiner (item_of glyph.now) }
{
    glyph.category == CGJ
}
