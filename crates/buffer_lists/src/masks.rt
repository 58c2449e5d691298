//! Masks of glyphs on both lists (rustybuzz: hb/buffer.rs, `set_masks`, `reset_masks`).
ghost use Rattle.std.specs.Prelude.{◌≡◌, map};
ghost use Rattle.buffer_lists.specs.Masks.{glyph_masked, glyph_set, is_within};

use buffer_glyphs::info::{hb_glyph_info_t, hb_mask_t};

/// Sets the bits under `mask` to those of the value, on each glyph whose cluster is from `start` up to before `end`, or
/// on every glyph where these are 0 and `u32::MAX`.
#[tactic(auto, using(buffer_glyphs::proofs::Lists::map_step))]
pub fn set_masks(
    glyphs: &mut [hb_glyph_info_t],
    value: hb_mask_t,
    mask: hb_mask_t,
    start: u32,
    end: u32,
)
    ensures { glyphs.new ≡ map (glyph_set value mask start end) glyphs.old }
{
    for glyph in glyphs.iter_mut() {
        *glyph = glyph_set(*glyph, value, mask, start, end);
    }
}

#[tactic(auto, using(std::proofs::lemmas::Nat::and_le_l))]
fn glyph_set(
    glyph: hb_glyph_info_t,
    value: hb_mask_t,
    mask: hb_mask_t,
    start: u32,
    end: u32,
) -> hb_glyph_info_t
    ensures { result ≡ glyph_set value mask start end glyph }
{
    if is_within(glyph.cluster, start, end) {
        hb_glyph_info_t {
            mask: (glyph.mask - (glyph.mask & mask)) | (value & mask),
            ..glyph
        }
    } else {
        glyph
    }
}

fn is_within(cluster: u32, start: u32, end: u32) -> bool
    ensures { result ≡ is_within start end cluster }
{
    (start <= cluster && cluster < end) || (start == 0 && end == u32::MAX)
}

/// Sets each glyph's mask.
#[tactic(auto, using(buffer_glyphs::proofs::Lists::map_step))]
pub fn reset_masks(glyphs: &mut [hb_glyph_info_t], mask: hb_mask_t)
    ensures { glyphs.new ≡ map (glyph_masked mask) glyphs.old }
{
    for glyph in glyphs.iter_mut() {
        *glyph = hb_glyph_info_t { mask, ..*glyph };
    }
}
