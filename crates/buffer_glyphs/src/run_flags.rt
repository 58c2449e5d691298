//! The glyph flags of a cluster's glyphs.
ghost use Rattle.std.specs.Prelude.{◌≡◌, ◌==◌, ◌&&◌, if◌then◌else◌};
ghost use Rattle.buffer_glyphs.specs.Items.{glyph_flags};
ghost use Rattle.buffer_glyphs.specs.Origins.{is_unsafe, origins, run_flags, unsafe_flags};

use crate::info::{DEFINED, SAFE_TO_INSERT_TATWEEL, UNSAFE_TO_BREAK, hb_glyph_info_t, hb_mask_t};

/// The glyph flags of the first cluster's glyphs.
pub fn flags_of_run(glyphs: &[hb_glyph_info_t], cluster: u32) -> hb_mask_t
    ensures { result ≡ run_flags cluster (origins glyphs.now) }
{
    glyphs
        .iter()
        .take_while(|glyph| glyph.cluster == cluster)
        .map(|glyph| glyph.mask & DEFINED)
        .fold(0, |flags, own| flags | own)
}

/// The glyph flags of those glyphs of the cluster that are unsafe to break.
pub fn unsafe_flags(glyphs: &[hb_glyph_info_t], cluster: u32) -> hb_mask_t
    ensures { result ≡ unsafe_flags cluster (origins glyphs.now) }
{
    let mut flags = 0;
    for glyph in glyphs {
        flags |= flags_if_unsafe(glyph, cluster);
    }
    flags
}

fn flags_if_unsafe(glyph: &hb_glyph_info_t, cluster: u32) -> hb_mask_t
    ensures { result ≡ if glyph.now.cluster == cluster && is_unsafe glyph.now.mask then glyph_flags glyph.now else 0 }
{
    if glyph.cluster == cluster && is_unsafe(glyph) {
        return glyph.mask & DEFINED;
    }
    0
}

/// Whether the glyph is unsafe to break: SAFE_TO_INSERT_TATWEEL brings UNSAFE_TO_BREAK in the end.
fn is_unsafe(glyph: &hb_glyph_info_t) -> bool
    ensures { result ≡ is_unsafe glyph.now.mask }
{
    glyph.mask & (UNSAFE_TO_BREAK | SAFE_TO_INSERT_TATWEEL) != 0
}
