//! Myanmar: the glyphs of a syllable get positions around its base and are sorted by them
//! (rustybuzz: hb/ot_shaper_myanmar.rs).
//!
//! A rule on syllables is a type with the trait `SyllableRule`; all its impls have this form. Functions repeat clauses:
//! each requires what the one that it calls requires, down to `sort_by_auxiliary` (`buffer_stages`).
ghost use Rattle.std.specs.Prelude.{◌≡◌, ◌≤◌, ◌++◌, length, map, take, drop, slice_range, OnOk};
ghost use Rattle.buffer_glyphs.specs.Items.{item_of, strip};
ghost use Rattle.buffer_core.specs.Readings.{always};
ghost use Rattle.buffer_core.specs.Sides.{all_glyphs, items_of};
ghost use Rattle.buffer_stages.specs.Ready.{IsReady};
ghost use Rattle.buffer_stages.specs.Stages.{IsFollowed};
ghost use Rattle.buffer_stages.specs.Rewriting.{by_syllable};
ghost use Rattle.buffer_stages.specs.SyllableBuffers.{IsRewritten, with_rule};
ghost use Rattle.script_myanmar.specs.Myanmar.{items_with_positions, has_two_matras, is_pre_base_vowel, matras_of, matras_reversed, myanmar_positions, myanmar_reordered, myanmar_syllable};
ghost use Rattle.script_myanmar.specs.Turned.{glyphs_at};

use crate::myanmar_positions::set_positions;
use buffer_core::buffer::hb_buffer_t;
use buffer_glyphs::info::hb_glyph_info_t;
use buffer_stages::groups::{GroupRule, reverse_groups};
use buffer_stages::sorting::sort_by_auxiliary;
use buffer_stages::walk::{SyllableRule, each_syllable};
use script_categories::hb_ot_script_shaper_t::MYANMAR_SHAPER;
use script_categories::ot_category_t::OT_VPre;
use script_categories::ot_position_t::POS_PRE_M;
use script_categories::syllable_kinds::SYLLABLE_KIND;
use script_syllabic::syllable_glyphs::glyph_in;
use std::alloc::{AllocError, Global};

/// Reorders each Myanmar syllable of a kind that is reordered (`initial_reordering_consonant_syllable`): its glyphs get
/// their positions around its base, as their `auxiliary`, and are sorted stably by them; each smallest range that the
/// sort permutes is merged. Two or more left matras, each with its variation selectors, are then reversed and merged.
///
/// # Errors
///
/// Lack of memory for the order of a syllable.
pub fn reorder_myanmar(alloc: Global, buffer: &mut hb_buffer_t) -> Result<(), AllocError>
    requires ready { IsReady buffer.old }
    ensures { OnOk result (IsFollowed (always (with_rule (by_syllable myanmar_syllable))) buffer.old buffer.new) }
{
    let order = MyanmarOrder { alloc };
    each_syllable(&order, buffer)
}

#[derive(Clone, Copy)]
struct MyanmarOrder {
    alloc: Global,
}

impl SyllableRule for MyanmarOrder {
    ghost use Rattle.script_myanmar.specs.Myanmar.{myanmar_syllable};
    ghost use Rattle.script_myanmar.specs.Lemmas.MyanmarSize.{myanmar_keeps};

    ghost rewritten = { λ _. myanmar_syllable };

    fn rewrite(
        &self,
        buffer: &mut hb_buffer_t,
        start: usize,
        end: usize,
    ) -> Result<(), AllocError> {
        let Some(first) = glyph_in(buffer, start, end, 0) else {
            return Ok(());
        };
        if !MYANMAR_SHAPER.is_reordered(first.syllable & SYLLABLE_KIND) {
            return Ok(());
        }
        reorder_syllable(self.alloc, buffer, start, end)
    }

    ghost keeps_length = { λ _. myanmar_keeps };
}

#[tactic(auto, using(crate::proofs::MyanmarSteps::placed_count, crate::proofs::MyanmarSteps::sorted_count))]
fn reorder_syllable(
    alloc: Global,
    buffer: &mut hb_buffer_t,
    start: usize,
    end: usize,
) -> Result<(), AllocError>
    requires ready { IsReady buffer.old }
    requires ordered { start ≤ end }
    requires within { end ≤ length (all_glyphs buffer.old) }
    ensures { OnOk result (IsRewritten (myanmar_reordered (slice_range (items_of buffer.old) start end)) start end
        buffer.old buffer.new) }
{
    position_syllable(buffer, start, end);
    sort_by_auxiliary(alloc, buffer, start, end)?;
    reverse_matras(buffer, start, end);
    Ok(())
}

fn position_syllable(buffer: &mut hb_buffer_t, start: usize, end: usize)
    requires ready { IsReady buffer.old }
    requires ordered { start ≤ end }
    requires within { end ≤ length (all_glyphs buffer.old) }
    ensures { IsRewritten (items_with_positions (slice_range (items_of buffer.old) start end)) start end buffer.old buffer.new }
{
    let known = buffer.known_order();
    set_positions_within(buffer.info_slice_mut(), start, end);
    buffer.keep_order(known);
}

fn set_positions_within(glyphs: &mut [hb_glyph_info_t], start: usize, end: usize)
    requires ordered { start ≤ end }
    requires within { end ≤ length glyphs.old }
    ensures { glyphs.new ≡ take start glyphs.old ++ glyphs_at (myanmar_positions (map (λ g. g.category)
        (slice_range glyphs.old start end))) (slice_range glyphs.old start end) ++ drop end glyphs.old }
{
    set_positions(&mut glyphs[start..end]);
}

fn reverse_matras(buffer: &mut hb_buffer_t, start: usize, end: usize)
    requires ready { IsReady buffer.old }
    requires ordered { start ≤ end }
    requires within { end ≤ length (all_glyphs buffer.old) }
    ensures { IsRewritten (matras_reversed (slice_range (items_of buffer.old) start end)) start end buffer.old
        buffer.new }
{
    let matras = matras_of(&buffer.info_slice()[start..end]);
    if !has_two_matras(&buffer.info_slice()[start..start + matras]) {
        return;
    }
    reverse_groups(&LeftMatras, buffer, start, start + matras);
}

/// The number of glyphs at the start that are left matras with their variation selectors.
#[tactic(auto, using(crate::proofs::MyanmarSteps::matra_next, crate::proofs::MyanmarSteps::matra_last, crate::proofs::MyanmarSteps::all_matras))]
fn matras_of(glyphs: &[hb_glyph_info_t]) -> usize
    ensures count { result ≡ matras_of (strip glyphs.now) }
    ensures within { result ≤ length glyphs.now }
{
    for (i, glyph) in glyphs.iter().enumerate() {
        if glyph.auxiliary != POS_PRE_M {
            return i;
        }
    }
    glyphs.len()
}

#[tactic(auto, using(crate::proofs::MyanmarSteps::first_left, crate::proofs::MyanmarSteps::second_left, crate::proofs::MyanmarSteps::none_left, crate::proofs::MyanmarSteps::no_second))]
fn has_two_matras(glyphs: &[hb_glyph_info_t]) -> bool
    ensures { result ≡ has_two_matras (strip glyphs.now) }
{
    let mut is_second = false;
    for glyph in glyphs {
        if is_pre_base_vowel(glyph) {
            if is_second {
                return true;
            }
            is_second = true;
        }
    }
    false
}

fn is_pre_base_vowel(glyph: &hb_glyph_info_t) -> bool
    ensures { result ≡ is_pre_base_vowel (item_of glyph.now) }
{
    glyph.category == OT_VPre
}

/// A left matra begins a group.
struct LeftMatras;

impl GroupRule for LeftMatras {
    ghost use Rattle.script_myanmar.specs.Myanmar.{is_pre_base_vowel};

    ghost begins = { λ _. is_pre_base_vowel };

    fn begins_group(&self, glyph: &hb_glyph_info_t) -> bool {
        is_pre_base_vowel(glyph)
    }
}
