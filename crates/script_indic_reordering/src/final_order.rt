//! The final reordering of Indic syllables (rustybuzz: hb/ot_shaper_indic.rs, `final_reordering`).
ghost use Rattle.std.specs.Prelude.{◌≡◌, ◌≤◌, ◌+◌, length, slice_range, OnOk};
ghost use Rattle.buffer_core.specs.Readings.{always};
ghost use Rattle.buffer_core.specs.Sides.{all_glyphs, items_of};
ghost use Rattle.buffer_stages.specs.Ready.{IsReady};
ghost use Rattle.buffer_stages.specs.Stages.{IsFollowed};
ghost use Rattle.buffer_stages.specs.SyllableBuffers.{IsRewritten, with_rule};
ghost use Rattle.script_indic_reordering.specs.Final.{base_passed, pref_moved, reph_moved};
ghost use Rattle.script_indic_reordering.specs.Orders.{final_order};

use crate::formed::{begins_with_reph, formed_base, passed_by_reph, pref_form, pref_target};
use crate::initial::first_glyph;
use crate::left::move_lefts;
use crate::script::IndicMasks;
use crate::words::mask_words;
use buffer_core::buffer::hb_buffer_t;
use buffer_glyphs::info::hb_mask_t;
use buffer_stages::moves::move_back;
use buffer_stages::walk::{SyllableRule, each_syllable};
use script_categories::hb_ot_script_shaper_t::INDIC_SHAPER;
use script_categories::ot_position_t::Position;
use script_categories::syllable_kinds::SYLLABLE_KIND;
use std::alloc::AllocError;

/// Reorders each Indic syllable of a kind that is reordered, once its forms are made. Left matras move after the last
/// halant before the base and its joiner, a reph moves to the position of its script, and the first form of the feature
/// pref moves before the base; what moves merges with what it passes. Then left matras that begin words get the feature
/// init. It takes n log n time in the length of a syllable.
pub fn reorder_final(
    reph_pos: Position,
    masks: &IndicMasks,
    buffer: &mut hb_buffer_t,
) -> Result<(), AllocError>
    requires ready { IsReady buffer.old }
    ensures { OnOk result (IsFollowed (always (with_rule (final_order reph_pos masks.now))) buffer.old buffer.new) }
{
    let order = FinalOrder {
        reph_pos,
        masks: *masks,
    };
    each_syllable(&order, buffer)?;
    mask_words(masks.init, buffer);
    Ok(())
}

#[derive(Clone, Copy)]
struct FinalOrder {
    reph_pos: Position,
    masks: IndicMasks,
}

impl SyllableRule for FinalOrder {
    ghost use Rattle.script_indic_reordering.specs.Orders.{final_syllable};
    ghost use Rattle.script_indic_reordering.specs.Lemmas.FinalSize.{final_keeps};

    ghost rewritten = { λ o. final_syllable o.reph_pos o.masks };

    #[tactic(auto, using(crate::proofs::Lemmas::FinalSteps::lefts_even, crate::proofs::Lemmas::FinalSteps::reph_even, crate::proofs::Lemmas::FinalSteps::base_within))]
    fn rewrite(
        &self,
        buffer: &mut hb_buffer_t,
        start: usize,
        end: usize,
    ) -> Result<(), AllocError> {
        let first = first_glyph(buffer, start, end);
        if !INDIC_SHAPER.is_reordered(first.syllable & SYLLABLE_KIND) {
            return Ok(());
        }
        let base = formed_base(&buffer.info_slice()[start..end]);
        move_lefts(buffer, start, end, base);
        let base = move_reph(self.reph_pos, buffer, start, end, base);
        move_pref(self.masks.pref, buffer, start, end, base);
        Ok(())
    }

    ghost keeps_length = { λ o. final_keeps o.reph_pos o.masks };
}

/// Moves a reph to the position of its script, and returns the index of the base in the new order.
fn move_reph(
    reph_pos: Position,
    buffer: &mut hb_buffer_t,
    start: usize,
    end: usize,
    base: usize,
) -> usize
    requires ready { IsReady buffer.old }
    requires ordered { start + base ≤ end }
    requires within { end ≤ length (all_glyphs buffer.old) }
    ensures rewritten { IsRewritten (reph_moved reph_pos base (slice_range (items_of buffer.old) start end)).rewritten start end
        buffer.old buffer.new }
    ensures base { result ≡ (reph_moved reph_pos base (slice_range (items_of buffer.old) start end)).base }
    ensures inside { start + result ≤ end }
{
    let glyphs = &buffer.info_slice()[start..end];
    if !begins_with_reph(glyphs) {
        return base;
    }
    let passed = passed_by_reph(glyphs, reph_pos, base);
    move_back(buffer, start, start + 1, start + passed);
    base_passed(passed, base)
}

/// The index of the base in the new order, where the reph moved after a number of glyphs.
fn base_passed(passed: usize, base: usize) -> usize
    ensures index { result ≡ base_passed passed base }
    ensures few { result ≤ base }
{
    if base < passed {
        return base.saturating_sub(1);
    }
    base
}

/// Moves the first form of the feature pref before the base.
fn move_pref(mask: hb_mask_t, buffer: &mut hb_buffer_t, start: usize, end: usize, base: usize)
    requires ready { IsReady buffer.old }
    requires ordered { start + base ≤ end }
    requires within { end ≤ length (all_glyphs buffer.old) }
    ensures { IsRewritten (pref_moved mask base (slice_range (items_of buffer.old) start end)) start end buffer.old
        buffer.new }
{
    let glyphs = &buffer.info_slice()[start..end];
    let Some(i) = pref_form(glyphs, mask, base) else {
        return;
    };
    let to = pref_target(glyphs, base);
    move_back(buffer, start + to, start + i, start + (i + 1));
}
