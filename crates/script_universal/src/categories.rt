//! What the reordering of a syllable tests of its glyphs (rustybuzz: hb/ot_shaper_use.rs).
ghost use Rattle.std.specs.Prelude.{◌≡◌};
ghost use Rattle.buffer_glyphs.specs.Items.{item_of};
ghost use Rattle.script_universal.specs.Reordering.{halant_categories, is_among, is_halant, is_left, left_categories, post_base_categories, stops_reph};

use buffer_glyphs::info::hb_glyph_info_t;
use buffer_glyphs::ligature_words::{_hb_glyph_info_get_lig_comp, _hb_glyph_info_ligated};
use script_categories::category::{
    FAbv, FBlw, FMAbv, FMBlw, FMPst, FPst, H, HVM, IS, MAbv, MBlw, MPre, MPst, VAbv, VBlw, VMAbv,
    VMBlw, VMPre, VMPst, VPre, VPst,
};

/// Whether a glyph is a halant that is no ligature.
pub(crate) fn is_halant(glyph: &hb_glyph_info_t) -> bool
    ensures { result ≡ is_halant (item_of glyph.now) }
{
    is_halant_category(glyph) && !_hb_glyph_info_ligated(glyph)
}

fn is_halant_category(glyph: &hb_glyph_info_t) -> bool
    ensures { result ≡ is_among halant_categories (item_of glyph.now) }
{
    matches!(glyph.category, H | HVM | IS)
}

/// Whether a reph moves no further than before this glyph.
pub(crate) fn stops_reph(glyph: &hb_glyph_info_t) -> bool
    ensures { result ≡ stops_reph (item_of glyph.now) }
{
    is_post_base(glyph) || is_halant(glyph)
}

fn is_post_base(glyph: &hb_glyph_info_t) -> bool
    ensures { result ≡ is_among post_base_categories (item_of glyph.now) }
{
    matches!(
        glyph.category,
        FAbv | FBlw
            | FPst
            | MAbv
            | MBlw
            | MPst
            | MPre
            | VAbv
            | VBlw
            | VPst
            | VPre
            | VMAbv
            | VMBlw
            | VMPst
            | VMPre
            | FMAbv
            | FMBlw
            | FMPst
    )
}

/// Whether a glyph is a left vowel or modifier; of the components of a multiple substitution only the first is.
pub(crate) fn is_left(glyph: &hb_glyph_info_t) -> bool
    ensures { result ≡ is_left (item_of glyph.now) }
{
    is_left_category(glyph) && _hb_glyph_info_get_lig_comp(glyph) == 0
}

fn is_left_category(glyph: &hb_glyph_info_t) -> bool
    ensures { result ≡ is_among left_categories (item_of glyph.now) }
{
    matches!(glyph.category, VPre | VMPre)
}
