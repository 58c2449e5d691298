//! The rphf mask of a syllable's first glyphs, setup_rphf_mask (rustybuzz: hb/ot_shaper_use.rs).
//!
//! A rule on syllables is a type with the trait `SyllableRule`; all its impls have this form.
ghost use Rattle.std.specs.Prelude.{◌≡◌, ◌≤◌, length, OnOk};
ghost use Rattle.buffer_glyphs.specs.Items.{strip};
ghost use Rattle.buffer_core.specs.Readings.{always};
ghost use Rattle.buffer_stages.specs.Ready.{IsReady};
ghost use Rattle.buffer_stages.specs.Stages.{IsFollowed};
ghost use Rattle.buffer_stages.specs.Rewriting.{by_syllable};
ghost use Rattle.buffer_stages.specs.SyllableBuffers.{with_rule};
ghost use Rattle.script_syllabic.specs.Features.{reph_size, rphf_masked};

use buffer_core::buffer::hb_buffer_t;
use buffer_glyphs::info::{hb_glyph_info_t, hb_mask_t};
use buffer_stages::parts::add_mask;
use buffer_stages::walk::{SyllableRule, each_syllable};
use script_categories::category::R;
use std::alloc::AllocError;

/// Gives the first glyph of each syllable the mask of rphf where it is of category R, else the first three
/// (`setup_rphf_mask`); glyph flags of the mask are left out. It takes linear time.
pub fn setup_rphf_mask(mask: hb_mask_t, buffer: &mut hb_buffer_t) -> Result<(), AllocError>
    requires ready { IsReady buffer.old }
    ensures { OnOk result (IsFollowed (always (with_rule (by_syllable (rphf_masked mask)))) buffer.old buffer.new) }
{
    each_syllable(&RphfMask { mask }, buffer)
}

#[derive(Clone, Copy)]
struct RphfMask {
    mask: hb_mask_t,
}

impl SyllableRule for RphfMask {
    ghost use Rattle.script_syllabic.specs.Features.{rphf_masked};
    ghost use Rattle.script_syllabic.specs.Lemmas.Sizes.{rphf_keeps};

    ghost rewritten = { λ r. rphf_masked r.mask };

    fn rewrite(
        &self,
        buffer: &mut hb_buffer_t,
        start: usize,
        end: usize,
    ) -> Result<(), AllocError> {
        let size = reph_size(&buffer.info_slice()[start..end]);
        add_mask(buffer, start, start + size, self.mask);
        Ok(())
    }

    ghost keeps_length = { λ r. rphf_keeps r.mask };
}

fn reph_size(glyphs: &[hb_glyph_info_t]) -> usize
    ensures size { result ≡ reph_size (strip glyphs.now) }
    ensures within { result ≤ length glyphs.now }
{
    match glyphs.first() {
        Some(first) if first.category == R => 1,
        _ => glyphs.len().min(3),
    }
}
