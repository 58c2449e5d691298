//! The extents of glyphs by their boxes.
ghost use Rattle.std.specs.Prelude.{◌≡◌, ◌≤◌, pos, negsuc, ◌-ℤ◌, ◌≤ℤ◌, length, slice_get, IfOk, IfErr};
ghost use Rattle.font_metrics.specs.Extents.{narrow, extents_of, extents_at, extent_rows};

use crate::boxes::GlyphBox;
use crate::values::push_value;
use buffer_glyphs::names::hb_glyph_extents_t;
use buffer_rows::SortedRows;
use font_bytes::fault::TableFault;
use layout_common::glyph_row::GlyphRow;
use std::alloc::Global;

/// A number where 16 bits hold it.
#[tactic(auto, unfolding(crate::specs::Extents::narrow))]
pub(crate) fn narrow(number: i64) -> Option<i16>
    ensures { result ≡ narrow number }
{
    if -32768 <= number && number <= 32767 {
        Some(number as i16)
    } else {
        None
    }
}

/// How far one number is from another.
pub(crate) fn difference(to: i32, from: i32) -> i64
    ensures value { result ≡ to -ℤ from }
    ensures low { negsuc 4294967295 ≤ℤ result }
    ensures high { result ≤ℤ pos 4294967295 }
{
    i64::from(to) - i64::from(from)
}

/// The extents of a box: left and upper side, width, and the height, which runs downwards; none where one of these is
/// past 16 bits.
#[tactic(auto, unfolding(crate::specs::Extents::extents_of))]
fn extents_of(outline: GlyphBox) -> Option<hb_glyph_extents_t>
    ensures { result ≡ extents_of outline }
{
    let x_bearing = narrow(i64::from(outline.left))?;
    let y_bearing = narrow(i64::from(outline.top))?;
    let width = narrow(difference(outline.right, outline.left))?;
    let height = narrow(difference(outline.bottom, outline.top))?;
    Some(hb_glyph_extents_t {
        x_bearing: i32::from(x_bearing),
        y_bearing: i32::from(y_bearing),
        width: i32::from(width),
        height: i32::from(height),
    })
}

/// The extents of a glyph, none without a box or past 16 bits.
fn extents_at(boxes: &[GlyphBox], glyph: u16) -> Option<hb_glyph_extents_t>
    ensures { result ≡ extents_at boxes.now glyph }
{
    match boxes.get(usize::from(glyph)).copied() {
        Some(outline) => extents_of(outline),
        None => None,
    }
}

/// The rows of extents of n glyphs, each with a box at its number.
#[tactic(auto, using(crate::proofs::Rows::value_pushed, crate::proofs::Rows::value_rows_rise))]
pub fn extent_rows(
    alloc: Global,
    boxes: &[GlyphBox],
    count: u16,
) -> Result<SortedRows<GlyphRow<hb_glyph_extents_t>>, TableFault>
    ensures ok { IfOk result (λ v. v ≡ extent_rows boxes.now count) }
    ensures refused { IfErr result (λ e. e ≡ TableFault.OutOfMemory) }
{
    let mut rows = Vec::with_capacity(alloc, usize::from(count))?;
    for glyph in 0..count {
        push_value(&mut rows, glyph, extents_at(boxes, glyph))?;
    }
    Ok(SortedRows::new(rows))
}
