//! The feature bits of a glyph's mask.
ghost use Rattle.std.specs.Prelude.{◌≡◌};
ghost use Rattle.buffer_glyphs.specs.Items.{item_of};
ghost use Rattle.buffer_stages.specs.Masks.{shares_mask};

use buffer_glyphs::info::{DEFINED, hb_glyph_info_t};

/// Whether a glyph has one of the bits of a lookup's mask; the three glyph flags do not count.
pub fn shares_mask(mask: u32, info: &hb_glyph_info_t) -> bool
    ensures { result ≡ shares_mask mask (item_of info.now).mask }
{
    // A mask of features has none of the glyph flags.
    let features = info.mask - (info.mask & DEFINED);
    features & mask != 0
}
