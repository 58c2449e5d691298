//! Positions the marks of one base, one after another, position_around_base (rustybuzz: hb/ot_shape_fallback.rs).
ghost use Rattle.std.specs.Prelude.{◌≡◌, ◌≤◌};
ghost use Rattle.buffer_glyphs.specs.Items.{item_of};
ghost use Rattle.layout_common.specs.Rows.{value_of};
ghost use Rattle.buffer_glyphs.specs.LigatureWords.{component_bound};
ghost use Rattle.shape_fallback.specs.Around.{along, at_class, at_component, initial_around, gap, is_class, mark_around, base_step, pen_back, mark_at_base, mark_step, position_at_base};

use crate::bases::{Base, component_box, component_of};
use crate::boxes::{Marked, position_mark};
use buffer_common::direction::Direction;
use buffer_glyphs::info::hb_glyph_info_t;
use buffer_glyphs::names::hb_glyph_extents_t;
use buffer_glyphs::position::GlyphPosition;
use layout_face::Face;
use layout_offsets::sums::{minus, plus};
use layout_offsets::zeroing::without_advances;

/// The parameters of positioning a text's marks, beside the font.
#[derive(Clone, Copy)]
pub(crate) struct Placing {
    pub direction: Direction,
    /// Whether the components of a ligature run from left to right.
    pub left_to_right: bool,
    /// Whether a mark whose advance is zeroed is shifted back by it.
    pub adjust_offsets: bool,
}

/// The state of positioning the marks of one base.
#[derive(Clone, Copy)]
pub(crate) struct Around {
    pub base: Base,
    /// The box of the ligature component that the last mark belongs to.
    pub component: hb_glyph_extents_t,
    /// The component's box, extended by the marks so far.
    pub extents: hb_glyph_extents_t,
    pub last_component: u32,
    pub last_class: Option<u8>,
    /// The pen's horizontal distance from the base.
    pub x_offset: i32,
    pub y_offset: i32,
}

/// A mark's position, and the state after it.
#[derive(Clone, Copy)]
pub(crate) struct Placed {
    pub position: GlyphPosition,
    pub around: Around,
}

fn pen_back(direction: Direction, advance: i32) -> i32
    ensures { result ≡ pen_back direction advance }
{
    if direction.is_forward() {
        minus(0, advance)
    } else {
        0
    }
}

/// The state of a base without marks.
pub(crate) fn begun(direction: Direction, position: GlyphPosition, base: Base) -> Around
    ensures { result ≡ initial_around direction position base }
{
    Around {
        base,
        component: base.extents,
        extents: base.extents,
        last_component: 0,
        last_class: None,
        x_offset: pen_back(direction, position.x_advance),
        y_offset: pen_back(direction, position.y_advance),
    }
}

fn at_component(left_to_right: bool, glyph: &hb_glyph_info_t, around: Around) -> Around
    requires { around.base.components ≤ component_bound }
    ensures value { result ≡ at_component left_to_right (item_of glyph.now) around }
    ensures base { result.base ≡ around.base }
{
    let component = component_of(&around.base, glyph);
    if around.base.components > 1 && component != around.last_component {
        Around {
            component: component_box(left_to_right, &around.base, component),
            last_component: component,
            last_class: None,
            ..around
        }
    } else {
        around
    }
}

fn is_class(class: u8, last: Option<u8>) -> bool
    ensures { result ≡ is_class class last }
{
    match last {
        Some(last) => last == class,
        None => false,
    }
}

fn at_class(class: u8, around: Around) -> Around
    ensures value { result ≡ at_class class around }
    ensures base { result.base ≡ around.base }
{
    if is_class(class, around.last_class) {
        around
    } else {
        Around {
            extents: around.component,
            last_class: Some(class),
            ..around
        }
    }
}

fn gap(face: &Face) -> i32
    ensures { result ≡ gap face.now }
{
    face.units_per_em() / 16
}

fn stood_back(around: Around, position: GlyphPosition) -> GlyphPosition
    ensures { result ≡ position_at_base around position }
{
    GlyphPosition {
        x_offset: plus(position.x_offset, around.x_offset),
        y_offset: plus(position.y_offset, around.y_offset),
        ..without_advances(position)
    }
}

fn set_around(around: Around, marked: Marked) -> Placed
    ensures value { result ≡ mark_at_base around marked }
    ensures base { result.around.base ≡ around.base }
{
    Placed {
        position: stood_back(around, marked.position),
        around: Around {
            extents: marked.extents,
            ..around
        },
    }
}

/// The glyph extents of the font, if there are any.
pub(crate) fn extents_of(face: &Face, glyph: &hb_glyph_info_t) -> Option<hb_glyph_extents_t>
    requires { glyph.now.glyph_id ≤ 65535 }
    ensures { result ≡ value_of glyph.now.glyph_id face.now.extents }
{
    face.glyph_extents(glyph.as_glyph().0)
}

fn stood(
    face: &Face,
    direction: Direction,
    glyph: &hb_glyph_info_t,
    position: GlyphPosition,
    around: Around,
) -> Placed
    requires { glyph.now.glyph_id ≤ 65535 }
    ensures value { result ≡ mark_step face.now direction (item_of glyph.now) position around }
    ensures base { result.around.base ≡ around.base }
{
    let marked = position_mark(
        gap(face),
        direction,
        glyph.modified_combining_class,
        extents_of(face, glyph),
        around.extents,
        position,
    );
    set_around(around, marked)
}

fn along(direction: Direction, offset: i32, advance: i32) -> i32
    ensures { result ≡ along direction offset advance }
{
    if direction.is_forward() {
        minus(offset, advance)
    } else {
        plus(offset, advance)
    }
}

fn passed(direction: Direction, position: GlyphPosition, around: Around) -> Placed
    ensures value { result ≡ base_step direction position around }
    ensures base { result.around.base ≡ around.base }
{
    Placed {
        position,
        around: Around {
            x_offset: along(direction, around.x_offset, position.x_advance),
            y_offset: along(direction, around.y_offset, position.y_advance),
            ..around
        },
    }
}

/// Positions a mark around its base.
pub(crate) fn mark_around(
    face: &Face,
    by: Placing,
    glyph: &hb_glyph_info_t,
    position: GlyphPosition,
    around: Around,
) -> Placed
    requires number { glyph.now.glyph_id ≤ 65535 }
    requires base { around.base.components ≤ component_bound }
    ensures value { result ≡ mark_around face.now by (item_of glyph.now) position around }
    ensures base { result.around.base ≡ around.base }
{
    let class = glyph.modified_combining_class;
    if class == 0 {
        return passed(by.direction, position, around);
    }
    let around = at_class(class, at_component(by.left_to_right, glyph, around));
    stood(face, by.direction, glyph, position, around)
}
