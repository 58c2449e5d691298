//! What the rules of syllables do to ranges of a buffer.
ghost use Rattle.std.specs.Prelude.{◌≡◌, ◌≤◌, ◌-◌, ◌++◌, length, map, take, drop, slice_range};
ghost use Rattle.buffer_core.specs.Sides.{all_glyphs, items_of};
ghost use Rattle.buffer_stages.specs.Ready.{IsReady};
ghost use Rattle.buffer_stages.specs.SyllableBuffers.{IsRewritten};
ghost use Rattle.buffer_stages.specs.Parts.{first_to_back, glyph_masked, items_with_features};

use crate::moves::move_back;
use buffer_core::buffer::hb_buffer_t;
use buffer_glyphs::info::{DEFINED, hb_glyph_info_t, hb_mask_t};

/// Moves the first `count` glyphs from `start` up to before `end` after the others, and merges all of them: `move_back`
/// as a rewriting of a range (`IsRewritten`), which the goals of rules for syllables need. It takes no memory.
pub fn first_to_back(buffer: &mut hb_buffer_t, start: usize, end: usize, count: usize)
    requires ready { IsReady buffer.old }
    requires ordered { start ≤ end }
    requires within { end ≤ length (all_glyphs buffer.old) }
    requires few { count ≤ end - start }
    ensures { IsRewritten (first_to_back count (slice_range (items_of buffer.old) start end)) start end buffer.old
        buffer.new }
{
    move_back(buffer, start, start + count, end);
}

/// Sets the feature bits of a mask on the glyphs from `start` up to before `end`; its glyph flags are left out.
pub fn add_mask(buffer: &mut hb_buffer_t, start: usize, end: usize, mask: hb_mask_t)
    requires ready { IsReady buffer.old }
    requires ordered { start ≤ end }
    requires within { end ≤ length (all_glyphs buffer.old) }
    ensures { IsRewritten (items_with_features mask (slice_range (items_of buffer.old) start end)) start end buffer.old
        buffer.new }
{
    let known = buffer.known_order();
    mask_within(buffer.info_slice_mut(), start, end, mask);
    buffer.keep_order(known);
}

/// Sets the feature bits of a mask on the glyphs from `start` up to before `end` of a slice; its glyph flags are left
/// out.
pub fn mask_within(glyphs: &mut [hb_glyph_info_t], start: usize, end: usize, mask: hb_mask_t)
    requires ordered { start ≤ end }
    requires within { end ≤ length glyphs.old }
    ensures { glyphs.new ≡ take start glyphs.old ++ map (glyph_masked mask) (slice_range glyphs.old start end)
        ++ drop end glyphs.old }
{
    mask_each(&mut glyphs[start..end], mask);
}

#[tactic(auto, using(buffer_glyphs::proofs::Lists::map_step))]
fn mask_each(glyphs: &mut [hb_glyph_info_t], mask: hb_mask_t)
    ensures { glyphs.new ≡ map (glyph_masked mask) glyphs.old }
{
    for glyph in glyphs.iter_mut() {
        *glyph = with_mask(*glyph, mask);
    }
}

/// A glyph with the features of a mask; its glyph flags are left out.
pub fn with_mask(glyph: hb_glyph_info_t, mask: hb_mask_t) -> hb_glyph_info_t
    ensures { result ≡ glyph_masked mask glyph }
{
    let features = mask - (mask & DEFINED);
    hb_glyph_info_t {
        mask: glyph.mask | features,
        ..glyph
    }
}
