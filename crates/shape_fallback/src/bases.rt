//! Bases with the marks after them, and the ligature components among them (rustybuzz: hb/ot_shape_fallback.rs).
ghost use Rattle.std.specs.Prelude.{◌≡◌, ◌<◌, ◌≤◌, pos};
ghost use Rattle.std.specs.Int.RustNames.{int_div};
ghost use Rattle.buffer_glyphs.specs.Items.{item_of};
ghost use Rattle.shape_fallback.specs.Bases.{base_box, base_of, component_box, component_of, component_index, times};
ghost use Rattle.buffer_glyphs.specs.LigatureWords.{component_bound};

use buffer_glyphs::info::hb_glyph_info_t;
use buffer_glyphs::ligature_words::{
    _hb_glyph_info_get_lig_comp, _hb_glyph_info_get_lig_id, _hb_glyph_info_get_lig_num_comps,
};
use buffer_glyphs::names::hb_glyph_extents_t;
use buffer_glyphs::position::GlyphPosition;
use layout_face::Face;
use layout_offsets::sums::plus;

/// A base with marks.
#[derive(Clone, Copy)]
pub(crate) struct Base {
    /// Its box: from the pen on, as wide as its advance.
    pub extents: hb_glyph_extents_t,
    pub lig_id: u8,
    pub components: u32,
}

pub(crate) fn base_of(
    face: &Face,
    glyph: &hb_glyph_info_t,
    position: GlyphPosition,
    extents: hb_glyph_extents_t,
) -> Base
    requires { glyph.now.glyph_id ≤ 65535 }
    ensures value { result ≡ base_of face.now (item_of glyph.now) position extents }
    ensures bound { result.components ≤ component_bound }
{
    Base {
        extents: hb_glyph_extents_t {
            x_bearing: 0,
            y_bearing: plus(extents.y_bearing, position.y_offset),
            width: face.glyph_h_advance(glyph.as_glyph().0),
            ..extents
        },
        lig_id: _hb_glyph_info_get_lig_id(glyph),
        components: _hb_glyph_info_get_lig_num_comps(glyph),
    }
}

/// The ligature component of a base that a mark belongs to, counted from 1.
pub(crate) fn component_of(base: &Base, glyph: &hb_glyph_info_t) -> u32
    requires { base.now.components ≤ component_bound }
    ensures value { result ≡ component_of base.now (item_of glyph.now) }
    ensures bound { result ≤ component_bound }
{
    let component = _hb_glyph_info_get_lig_comp(glyph);
    if base.lig_id == 0
        || _hb_glyph_info_get_lig_id(glyph) != base.lig_id
        || base.components < component
    {
        base.components
    } else {
        component
    }
}

fn component_index(left_to_right: bool, base: &Base, component: u32) -> i32
    requires base { base.now.components ≤ component_bound }
    requires component { component ≤ component_bound }
    ensures { result ≡ component_index left_to_right base.now component }
{
    if left_to_right {
        component as i32 - 1
    } else {
        base.components as i32 - component as i32
    }
}

/// A product modulo 2^32.
fn times(a: i32, b: i32) -> i32
    ensures { result ≡ times a b }
{
    a.wrapping_mul(b)
}

/// A width divided by a count.
fn part_of(width: i32, count: u32) -> i32
    requires some { 1 < count }
    requires bound { count ≤ component_bound }
    ensures { result ≡ int_div width (pos count) }
{
    width / count as i32
}

/// The box of a ligature component.
pub(crate) fn component_box(left_to_right: bool, base: &Base, component: u32) -> hb_glyph_extents_t
    requires base { base.now.components ≤ component_bound }
    requires some { 1 < base.now.components }
    requires component { component ≤ component_bound }
    ensures { result ≡ component_box left_to_right base.now component }
{
    let index = component_index(left_to_right, base, component);
    hb_glyph_extents_t {
        x_bearing: plus(
            base.extents.x_bearing,
            part_of(times(index, base.extents.width), base.components),
        ),
        width: part_of(base.extents.width, base.components),
        ..base.extents
    }
}
