//! The position of a mark at its base's box, by its combining class, position_mark (rustybuzz:
//! hb/ot_shape_fallback.rs).
ghost use Rattle.std.specs.Prelude.{◌≡◌};
ghost use Rattle.shape_fallback.specs.Boxes.{above, below, double_x, half_up, stacked_above, stacked_below, is_above, is_at_left, is_at_right, is_attached, is_below, is_double, is_same_side, left_x, lower, mark_x, mark_at_box, middle_x, next_at, raised_box, right_x, stacked_mark, stacked_mark_by, with_above, with_below};

use buffer_common::direction::Direction;
use buffer_glyphs::names::hb_glyph_extents_t;
use buffer_glyphs::position::GlyphPosition;
use layout_offsets::sums::{minus, plus};

/// The vertical offset of a mark in font units, and the box for the next mark.
#[derive(Clone, Copy)]
pub struct Stacked {
    pub y: i32,
    pub extents: hb_glyph_extents_t,
}

/// A mark's position, and the box for the next mark.
#[derive(Clone, Copy)]
pub struct Marked {
    pub position: GlyphPosition,
    pub extents: hb_glyph_extents_t,
}

/// Positions a mark of a combining class at a box, at a distance of `gap` font units unless the class is an attached
/// one; a mark without extents is unchanged.
pub fn position_mark(
    gap: i32,
    direction: Direction,
    class: u8,
    mark: Option<hb_glyph_extents_t>,
    base: hb_glyph_extents_t,
    position: GlyphPosition,
) -> Marked
    ensures { result ≡ mark_at_box gap direction class mark base position }
{
    match mark {
        Some(mark) => {
            let stack = stack_mark(gap, class, base, mark);
            Marked {
                position: GlyphPosition {
                    x_offset: mark_x(direction, class, base, mark),
                    y_offset: stack.y,
                    ..position
                },
                extents: stack.extents,
            }
        }
        None => Marked {
            position,
            extents: base,
        },
    }
}

fn is_below(class: u8) -> bool
    ensures { result ≡ is_below class }
{
    matches!(class, 200 | 202 | 218 | 220 | 222 | 233)
}

fn is_above(class: u8) -> bool
    ensures { result ≡ is_above class }
{
    matches!(class, 214 | 216 | 228 | 230 | 232 | 234)
}

fn is_attached(class: u8) -> bool
    ensures { result ≡ is_attached class }
{
    matches!(class, 200 | 202 | 214 | 216)
}

fn is_at_left(class: u8) -> bool
    ensures { result ≡ is_at_left class }
{
    matches!(class, 200 | 218 | 228)
}

fn is_at_right(class: u8) -> bool
    ensures { result ≡ is_at_right class }
{
    matches!(class, 216 | 222 | 232)
}

fn is_double(class: u8) -> bool
    ensures { result ≡ is_double class }
{
    matches!(class, 233 | 234)
}

fn mark_x(
    direction: Direction,
    class: u8,
    base: hb_glyph_extents_t,
    mark: hb_glyph_extents_t,
) -> i32
    ensures { result ≡ mark_x direction class base mark }
{
    if is_double(class) && direction.is_horizontal() {
        double_x(direction.is_forward(), base, mark)
    } else if is_at_left(class) {
        left_x(base, mark)
    } else if is_at_right(class) {
        right_x(base, mark)
    } else {
        middle_x(base, mark)
    }
}

fn double_x(forward: bool, base: hb_glyph_extents_t, mark: hb_glyph_extents_t) -> i32
    ensures { result ≡ double_x forward base mark }
{
    minus(
        minus(plus(base.x_bearing, next_at(forward, base)), mark.width / 2),
        mark.x_bearing,
    )
}

/// The x coordinate where the next letter begins, relative to the left edge of a box.
fn next_at(forward: bool, base: hb_glyph_extents_t) -> i32
    ensures { result ≡ next_at forward base }
{
    if forward { base.width } else { 0 }
}

fn left_x(base: hb_glyph_extents_t, mark: hb_glyph_extents_t) -> i32
    ensures { result ≡ left_x base mark }
{
    minus(base.x_bearing, mark.x_bearing)
}

fn right_x(base: hb_glyph_extents_t, mark: hb_glyph_extents_t) -> i32
    ensures { result ≡ right_x base mark }
{
    minus(
        minus(plus(base.x_bearing, base.width), mark.width),
        mark.x_bearing,
    )
}

fn middle_x(base: hb_glyph_extents_t, mark: hb_glyph_extents_t) -> i32
    ensures { result ≡ middle_x base mark }
{
    minus(
        plus(base.x_bearing, minus(base.width, mark.width) / 2),
        mark.x_bearing,
    )
}

fn lower(by: i32, extents: hb_glyph_extents_t) -> hb_glyph_extents_t
    ensures { result ≡ lower by extents }
{
    hb_glyph_extents_t {
        height: minus(extents.height, by),
        ..extents
    }
}

fn raised(by: i32, extents: hb_glyph_extents_t) -> hb_glyph_extents_t
    ensures { result ≡ raised_box by extents }
{
    hb_glyph_extents_t {
        y_bearing: plus(extents.y_bearing, by),
        height: minus(extents.height, by),
        ..extents
    }
}

fn with_below(mark: hb_glyph_extents_t, extents: hb_glyph_extents_t) -> hb_glyph_extents_t
    ensures { result ≡ with_below mark extents }
{
    hb_glyph_extents_t {
        height: plus(extents.height, mark.height),
        ..extents
    }
}

fn with_above(mark: hb_glyph_extents_t, extents: hb_glyph_extents_t) -> hb_glyph_extents_t
    ensures { result ≡ with_above mark extents }
{
    hb_glyph_extents_t {
        y_bearing: minus(extents.y_bearing, mark.height),
        height: plus(extents.height, mark.height),
        ..extents
    }
}

fn is_same_side(a: i32, b: i32) -> bool
    ensures { result ≡ is_same_side a b }
{
    if a > 0 { b > 0 } else { b <= 0 }
}

fn held_below(gap: i32, mark: hb_glyph_extents_t, y: i32, extents: hb_glyph_extents_t) -> Stacked
    ensures { result ≡ stacked_below gap mark y extents }
{
    if is_same_side(gap, y) {
        Stacked {
            y: 0,
            extents: with_below(mark, lower(y, extents)),
        }
    } else {
        Stacked {
            y,
            extents: with_below(mark, extents),
        }
    }
}

fn below(gap: i32, attached: bool, base: hb_glyph_extents_t, mark: hb_glyph_extents_t) -> Stacked
    ensures { result ≡ below gap attached base mark }
{
    let base = if attached { base } else { lower(gap, base) };
    let y = minus(plus(base.y_bearing, base.height), mark.y_bearing);
    held_below(gap, mark, y, base)
}

fn half_up(y: i32) -> i32
    ensures { result ≡ half_up y }
{
    minus(0, y) / 2
}

fn held_above(gap: i32, mark: hb_glyph_extents_t, y: i32, extents: hb_glyph_extents_t) -> Stacked
    ensures { result ≡ stacked_above gap mark y extents }
{
    if is_same_side(gap, y) {
        Stacked {
            y,
            extents: with_above(mark, extents),
        }
    } else {
        let up = half_up(y);
        Stacked {
            y: plus(y, up),
            extents: with_above(mark, raised(up, extents)),
        }
    }
}

fn above(gap: i32, attached: bool, base: hb_glyph_extents_t, mark: hb_glyph_extents_t) -> Stacked
    ensures { result ≡ above gap attached base mark }
{
    let base = if attached { base } else { raised(gap, base) };
    let y = minus(base.y_bearing, plus(mark.y_bearing, mark.height));
    held_above(gap, mark, y, base)
}

fn stack_by(
    stands_below: bool,
    stands_above: bool,
    attached: bool,
    gap: i32,
    base: hb_glyph_extents_t,
    mark: hb_glyph_extents_t,
) -> Stacked
    ensures { result ≡ stacked_mark_by stands_below stands_above attached gap base mark }
{
    if stands_below {
        below(gap, attached, base, mark)
    } else if stands_above {
        above(gap, attached, base, mark)
    } else {
        Stacked {
            y: 0,
            extents: base,
        }
    }
}

fn stack_mark(gap: i32, class: u8, base: hb_glyph_extents_t, mark: hb_glyph_extents_t) -> Stacked
    ensures { result ≡ stacked_mark gap class base mark }
{
    stack_by(
        is_below(class),
        is_above(class),
        is_attached(class),
        gap,
        base,
        mark,
    )
}
