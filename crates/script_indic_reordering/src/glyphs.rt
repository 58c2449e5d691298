//! Tests of a glyph by its category and its syllabic position (rustybuzz: hb/ot_shaper_indic.rs).
ghost use Rattle.std.specs.Prelude.{◌≡◌};
ghost use Rattle.buffer_glyphs.specs.Items.{item_of};
ghost use Rattle.buffer_glyphs.specs.Origins.{origin_of};
ghost use Rattle.script_indic_reordering.specs.Glyphs.{is_attached, is_below, is_consonant, is_free_halant, is_halant, is_joiner, is_left, is_left_matra, is_matra, is_nukta_or_halant, is_post, is_ra, is_zwj, is_zwnj, stands_at, with_position};

use buffer_glyphs::info::hb_glyph_info_t;
use buffer_glyphs::ligature_words::_hb_glyph_info_ligated;
use script_categories::ot_category_t::{
    OT_C, OT_CM, OT_CS, OT_DOTTEDCIRCLE, OT_H, OT_M, OT_MPst, OT_N, OT_PLACEHOLDER, OT_RS, OT_Ra,
    OT_V, OT_ZWJ, OT_ZWNJ,
};
use script_categories::ot_position_t::{POS_BELOW_C, POS_POST_C, POS_PRE_M, Position};

/// A consonant, or what stands for one.
pub(crate) fn is_consonant(glyph: &hb_glyph_info_t) -> bool
    ensures { result ≡ is_consonant (item_of glyph.now) }
{
    matches!(
        glyph.category,
        OT_C | OT_CS | OT_Ra | OT_CM | OT_V | OT_PLACEHOLDER | OT_DOTTEDCIRCLE
    )
}

pub(crate) fn is_joiner(glyph: &hb_glyph_info_t) -> bool
    ensures { result ≡ is_joiner (item_of glyph.now) }
{
    matches!(glyph.category, OT_ZWNJ | OT_ZWJ)
}

pub(crate) fn is_matra(glyph: &hb_glyph_info_t) -> bool
    ensures { result ≡ is_matra (item_of glyph.now) }
{
    matches!(glyph.category, OT_M | OT_MPst)
}

pub(crate) fn is_halant(glyph: &hb_glyph_info_t) -> bool
    ensures { result ≡ is_halant (item_of glyph.now) }
{
    glyph.category == OT_H
}

pub(crate) fn is_ra(glyph: &hb_glyph_info_t) -> bool
    ensures { result ≡ is_ra (item_of glyph.now) }
{
    glyph.category == OT_Ra
}

pub(crate) fn is_zwj(glyph: &hb_glyph_info_t) -> bool
    ensures { result ≡ is_zwj (item_of glyph.now) }
{
    glyph.category == OT_ZWJ
}

pub(crate) fn is_zwnj(glyph: &hb_glyph_info_t) -> bool
    ensures { result ≡ is_zwnj (item_of glyph.now) }
{
    glyph.category == OT_ZWNJ
}

/// Whether a glyph has the position of the one before it.
pub(crate) fn is_attached(glyph: &hb_glyph_info_t) -> bool
    ensures { result ≡ is_attached (item_of glyph.now) }
{
    matches!(
        glyph.category,
        OT_ZWNJ | OT_ZWJ | OT_N | OT_RS | OT_CM | OT_H
    )
}

pub(crate) fn is_nukta_or_halant(glyph: &hb_glyph_info_t) -> bool
    ensures { result ≡ is_nukta_or_halant (item_of glyph.now) }
{
    matches!(glyph.category, OT_N | OT_H)
}

/// A halant that no ligature took.
pub(crate) fn is_free_halant(glyph: &hb_glyph_info_t) -> bool
    ensures { result ≡ is_free_halant (item_of glyph.now) }
{
    is_halant(glyph) && !_hb_glyph_info_ligated(glyph)
}

/// Whether a glyph has a syllabic position.
pub(crate) fn stands_at(pos: Position, glyph: &hb_glyph_info_t) -> bool
    ensures { result ≡ stands_at pos (item_of glyph.now) }
{
    glyph.auxiliary == pos
}

/// A glyph with a syllabic position.
pub(crate) fn with_position(pos: Position, glyph: hb_glyph_info_t) -> hb_glyph_info_t
    ensures item { item_of result ≡ with_position pos (item_of glyph) }
    ensures origin { origin_of result ≡ origin_of glyph }
{
    hb_glyph_info_t {
        auxiliary: pos,
        ..glyph
    }
}

/// A consonant with a form below the base.
pub(crate) fn is_below(glyph: &hb_glyph_info_t) -> bool
    ensures { result ≡ is_below (item_of glyph.now) }
{
    stands_at(POS_BELOW_C, glyph)
}

/// A consonant with a form after the base.
pub(crate) fn is_post(glyph: &hb_glyph_info_t) -> bool
    ensures { result ≡ is_post (item_of glyph.now) }
{
    stands_at(POS_POST_C, glyph)
}

/// A left matra, or what is attached to one.
pub(crate) fn is_left(glyph: &hb_glyph_info_t) -> bool
    ensures { result ≡ is_left (item_of glyph.now) }
{
    stands_at(POS_PRE_M, glyph)
}

pub(crate) fn is_left_matra(glyph: &hb_glyph_info_t) -> bool
    ensures { result ≡ is_left_matra (item_of glyph.now) }
{
    is_left(glyph) && is_matra(glyph)
}
