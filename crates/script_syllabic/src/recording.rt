//! Records which glyphs the features rphf and pref formed, record_rphf and record_pref (rustybuzz:
//! hb/ot_shaper_use.rs).
//!
//! A rule on syllables is a type with the trait `SyllableRule`; all its impls have this form.
ghost use Rattle.std.specs.Prelude.{◌≡◌, ◌≤◌, ◌++◌, length, take, drop, slice_range, OnOk};
ghost use Rattle.buffer_glyphs.specs.Items.{item_of};
ghost use Rattle.buffer_core.specs.Readings.{always};
ghost use Rattle.buffer_stages.specs.Ready.{IsReady};
ghost use Rattle.buffer_stages.specs.Stages.{IsFollowed};
ghost use Rattle.buffer_stages.specs.Rewriting.{by_syllable};
ghost use Rattle.buffer_stages.specs.SyllableBuffers.{with_rule};
ghost use Rattle.script_syllabic.specs.Features.{has_feature, pref_recorded, rphf_recorded};
ghost use Rattle.script_syllabic.specs.Recorded.{glyphs_recorded};

use buffer_core::buffer::hb_buffer_t;
use buffer_glyphs::info::{DEFINED, hb_glyph_info_t, hb_mask_t};
use buffer_glyphs::ligature_words::_hb_glyph_info_substituted;
use buffer_stages::walk::{SyllableRule, each_syllable};
use script_categories::category::{Category, R, VPre};
use std::alloc::AllocError;

/// Sets category R on the first substituted glyph of each syllable, if it and all glyphs before it have the mask of
/// rphf (`record_rphf`). It takes linear time.
pub fn record_rphf(mask: hb_mask_t, buffer: &mut hb_buffer_t) -> Result<(), AllocError>
    requires ready { IsReady buffer.old }
    ensures { OnOk result (IsFollowed (always (with_rule (by_syllable (rphf_recorded mask)))) buffer.old buffer.new) }
{
    each_syllable(&Rphf { mask }, buffer)
}

/// Sets category VPre on the first substituted glyph of each syllable (`record_pref`). It takes linear time.
pub fn record_pref(buffer: &mut hb_buffer_t) -> Result<(), AllocError>
    requires ready { IsReady buffer.old }
    ensures { OnOk result (IsFollowed (always (with_rule (by_syllable pref_recorded))) buffer.old buffer.new) }
{
    each_syllable(&Pref, buffer)
}

#[derive(Clone, Copy)]
struct Rphf {
    mask: hb_mask_t,
}

impl SyllableRule for Rphf {
    ghost use Rattle.script_syllabic.specs.Features.{rphf_recorded};
    ghost use Rattle.script_syllabic.specs.Lemmas.Sizes.{rphf_recorded_size};

    ghost rewritten = { λ r. rphf_recorded r.mask };

    fn rewrite(
        &self,
        buffer: &mut hb_buffer_t,
        start: usize,
        end: usize,
    ) -> Result<(), AllocError> {
        record_within(buffer.info_slice_mut(), start, end, Some(self.mask), R);
        Ok(())
    }

    ghost keeps_length = { λ r. rphf_recorded_size r.mask };
}

#[derive(Clone, Copy)]
struct Pref;

impl SyllableRule for Pref {
    ghost use Rattle.script_syllabic.specs.Features.{pref_recorded};
    ghost use Rattle.script_syllabic.specs.Lemmas.Sizes.{pref_recorded_size};

    ghost rewritten = { λ _. pref_recorded };

    fn rewrite(
        &self,
        buffer: &mut hb_buffer_t,
        start: usize,
        end: usize,
    ) -> Result<(), AllocError> {
        record_within(buffer.info_slice_mut(), start, end, None, VPre);
        Ok(())
    }

    ghost keeps_length = { λ _. pref_recorded_size };
}

fn record_within(
    glyphs: &mut [hb_glyph_info_t],
    start: usize,
    end: usize,
    mask: Option<hb_mask_t>,
    category: Category,
)
    requires ordered { start ≤ end }
    requires within { end ≤ length glyphs.old }
    ensures { glyphs.new ≡ take start glyphs.old
        ++ glyphs_recorded (has_feature mask) category (slice_range glyphs.old start end) ++ drop end glyphs.old }
{
    record_first(&mut glyphs[start..end], mask, category);
}

/// Sets a category on the first substituted glyph among the first ones that have the feature; with no mask, every glyph
/// has it.
#[tactic(auto, using(crate::proofs::Recorded::none_passed, crate::proofs::Recorded::goes_on, crate::proofs::Recorded::is_found, crate::proofs::Recorded::is_over, crate::proofs::Recorded::all_passed))]
fn record_first(glyphs: &mut [hb_glyph_info_t], mask: Option<hb_mask_t>, category: Category)
    ensures { glyphs.new ≡ glyphs_recorded (has_feature mask) category glyphs.old }
{
    for at in 0..glyphs.len() {
        let glyph = glyphs[at];
        if !has_feature(mask, &glyph) {
            return;
        }
        if _hb_glyph_info_substituted(&glyph) {
            glyphs[at] = hb_glyph_info_t { category, ..glyph };
            return;
        }
    }
}

fn has_feature(mask: Option<hb_mask_t>, glyph: &hb_glyph_info_t) -> bool
    ensures { result ≡ has_feature mask (item_of glyph.now) }
{
    match mask {
        Some(mask) => (glyph.mask - (glyph.mask & DEFINED)) & mask != 0,
        None => true,
    }
}
