//! The property word of a glyph record (rustybuzz: hb/ot_layout.rs).
ghost use Rattle.std.specs.Prelude.{◌≡◌};
ghost use Rattle.buffer_glyphs.specs.Items.{item_of};
ghost use Rattle.buffer_glyphs.specs.PropertyWords.{is_default_ignorable};

use crate::flags::{GlyphPropsFlags, UnicodeProps};
use crate::info::hb_glyph_info_t;

/// Whether the glyph is deleted or hidden in the output: a default ignorable that no substitution made into a glyph.
pub fn _hb_glyph_info_is_default_ignorable(info: &hb_glyph_info_t) -> bool
    ensures { result ≡ is_default_ignorable (item_of info.now) }
{
    info.unicode_props.0 & UnicodeProps::IGNORABLE.0 != 0
        && info.glyph_props.0 & GlyphPropsFlags::SUBSTITUTED.0 == 0
}
