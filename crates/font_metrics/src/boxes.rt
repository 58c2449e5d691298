//! The boxes of outlines of TrueType (tables loca and glyf).
ghost use Rattle.std.specs.Prelude.{◌≡◌, ◌≢◌, ◌≤◌, ◌<◌, ◌+◌, ◌*◌, ◌+ℤ◌, ◌-ℤ◌, length, IfSome, IfOk, IfErr, OnOk, Ok, Err};
ghost use Rattle.font_metrics.specs.Boxes.{glyph_offset, outline_at, least, greatest, sides, header_box, outline_box, moved_box, placed_box, glyf_boxes};

use crate::advances::bearing_at;
use font_bytes::fault::TableFault;
use font_bytes::words::{long_at, signed_word, word, word_at};
use std::alloc::Global;

/// The box of a glyph's outline in font units; y grows upwards. One without an outline has zeros.
#[derive(Clone, Copy, PartialEq, Eq, Debug)]
pub struct GlyphBox {
    pub left: i32,
    pub bottom: i32,
    pub right: i32,
    pub top: i32,
}

/// The box that a glyph header names, by rising sides.
#[derive(Clone, Copy, PartialEq, Eq, Debug)]
pub struct HeaderBox {
    pub left: i16,
    pub bottom: i16,
    pub right: i16,
    pub top: i16,
}

/// The offset in glyf with an index, none past the end of loca.
fn glyph_offset(loca: &[u8], is_long: bool, index: usize) -> Option<usize>
    requires { index ≤ 65536 }
    ensures { result ≡ glyph_offset loca.now is_long index }
{
    if is_long {
        match long_at(loca, 4 * index) {
            Some(offset) => Some(offset as usize),
            None => None,
        }
    } else {
        match word_at(loca, 2 * index) {
            Some(offset) => Some(2 * usize::from(offset)),
            None => None,
        }
    }
}

/// The offset of the outline of a glyph: none where loca has no bytes for it, or where its header isn't within glyf.
fn outline_at(loca: &[u8], is_long: bool, glyf: &[u8], glyph: u16) -> Option<usize>
    ensures value { result ≡ outline_at loca.now is_long glyf.now glyph }
    ensures within { IfSome result (λ at. at + 10 ≤ length glyf.now) }
{
    let start = glyph_offset(loca, is_long, usize::from(glyph))?;
    let end = glyph_offset(loca, is_long, usize::from(glyph) + 1)?;
    if end > glyf.len() || start > end || end - start < 10 {
        return None;
    }
    Some(start)
}

fn least(one: i16, other: i16) -> i16
    ensures { result ≡ least one other }
{
    if one <= other { one } else { other }
}

fn greatest(one: i16, other: i16) -> i16
    ensures { result ≡ greatest one other }
{
    if one <= other { other } else { one }
}

/// The sides of a header, the lesser one first.
#[tactic(auto, unfolding(crate::specs::Boxes::sides))]
fn sides(x_min: i16, y_min: i16, x_max: i16, y_max: i16) -> HeaderBox
    ensures { result ≡ sides x_min y_min x_max y_max }
{
    HeaderBox {
        left: least(x_min, x_max),
        bottom: least(y_min, y_max),
        right: greatest(x_min, x_max),
        top: greatest(y_min, y_max),
    }
}

/// The box of a glyph header at an offset, none where it has no contours.
#[tactic(auto, unfolding(crate::specs::Boxes::header_box))]
fn header_box(glyf: &[u8], at: usize) -> Option<HeaderBox>
    requires { at + 10 ≤ length glyf.now }
    ensures { result ≡ header_box glyf.now at }
{
    if word(glyf, at) == 0 {
        return None;
    }
    let x_min = signed_word(glyf, at + 2);
    let y_min = signed_word(glyf, at + 4);
    let x_max = signed_word(glyf, at + 6);
    let y_max = signed_word(glyf, at + 8);
    Some(sides(x_min, y_min, x_max, y_max))
}

/// The box that the header of a glyph's outline names, none without an outline.
#[tactic(auto, unfolding(crate::specs::Boxes::outline_box))]
fn outline_box(loca: &[u8], is_long: bool, glyf: &[u8], glyph: u16) -> Option<HeaderBox>
    ensures { result ≡ outline_box loca.now is_long glyf.now glyph }
{
    match outline_at(loca, is_long, glyf, glyph) {
        Some(at) => header_box(glyf, at),
        None => None,
    }
}

/// A right side that is as far from a left one as another is from its own.
fn moved_side(left: i16, from: i16, to: i16) -> i32
    ensures { result ≡ left +ℤ (to -ℤ from) }
{
    i32::from(left) + (i32::from(to) - i32::from(from))
}

/// A box whose left side is at a bearing.
fn moved_box(outline: HeaderBox, left: i16) -> GlyphBox
    ensures { result ≡ moved_box outline left }
{
    GlyphBox {
        left: i32::from(left),
        bottom: i32::from(outline.bottom),
        right: moved_side(left, outline.left, outline.right),
        top: i32::from(outline.top),
    }
}

/// The box of a glyph: that of its header, moved to the left side bearing, where glyphs are drawn; zeros without an outline.
fn placed_box(outline: Option<HeaderBox>, bearing: Option<i16>) -> GlyphBox
    ensures { result ≡ placed_box outline bearing }
{
    match outline {
        None => GlyphBox {
            left: 0,
            bottom: 0,
            right: 0,
            top: 0,
        },
        Some(outline) => match bearing {
            None => moved_box(outline, outline.left),
            Some(left) => moved_box(outline, left),
        },
    }
}

/// The box of each glyph, by the tables loca (with offsets of 32 or 16 bits) and glyf, moved to the left side bearing of
/// hmtx, which has n long metrics.
#[tactic(auto, using(crate::proofs::Boxed::boxes_more))]
pub fn glyf_boxes(
    alloc: Global,
    loca: &[u8],
    is_long: bool,
    glyf: &[u8],
    hmtx: &[u8],
    long: usize,
    count: u16,
) -> Result<Vec<GlyphBox>, TableFault>
    requires { 4 * long ≤ length hmtx.now }
    ensures ok { IfOk result (λ v. v.items ≡ glyf_boxes loca.now is_long glyf.now hmtx.now long 0 count) }
    ensures refused { IfErr result (λ e. e ≡ TableFault.OutOfMemory) }
{
    let mut boxes = Vec::with_capacity(alloc, usize::from(count))?;
    for glyph in 0..count {
        let outline = outline_box(loca, is_long, glyf, glyph);
        boxes.push(placed_box(outline, bearing_at(hmtx, long, glyph)))?;
    }
    Ok(boxes)
}
