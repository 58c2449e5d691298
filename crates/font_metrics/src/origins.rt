//! The y coordinates of vertical origins (table VORG; else by boxes, as HarfBuzz).
ghost use Rattle.std.specs.Prelude.{◌≡◌, ◌≢◌, ◌≤◌, ◌+◌, ◌*◌, pos, negsuc, ◌+ℤ◌, ◌-ℤ◌, ◌≤ℤ◌, length, slice_get, true, IfOk, IfErr, Ok, Err};
ghost use Rattle.font_bytes.specs.Records.{records};
ghost use Rattle.font_metrics.specs.Origins.{unusual, half, bearing_origin, box_origin_at, box_origins, centred_origin, origin_record, origin_records, vorg_origin, recorded_origins, vorg_origins};

use crate::advances::bearing_at;
use crate::boxes::GlyphBox;
use crate::extents::{difference, narrow};
use crate::line::LineMetrics;
use crate::values::push_value;
use buffer_rows::{SortedRows, is_rising};
use font_bytes::fault::TableFault;
use font_bytes::words::{need, signed_word, word};
use layout_common::glyph_row::{GlyphRow, find_value};
use std::alloc::Global;

/// A height of an origin that has a row: 16 bits hold it, and it isn't the ascender, which a missing row means.
#[tactic(auto, unfolding(crate::specs::Origins::unusual))]
fn unusual(height: i64, ascender: i16) -> Option<i16>
    ensures { result ≡ unusual height ascender }
{
    let height = narrow(height)?;
    if height == ascender {
        None
    } else {
        Some(height)
    }
}

/// A top and what is added to it.
fn raised(top: i32, by: i64) -> i64
    requires low { negsuc 1099511627775 ≤ℤ by }
    requires high { by ≤ℤ pos 1099511627775 }
    ensures { result ≡ top +ℤ by }
{
    i64::from(top) + by
}

/// The origin of a glyph by its box and its top side bearing: so far above the box.
fn bearing_origin(outline: GlyphBox, bearing: i16, ascender: i16) -> Option<i16>
    ensures { result ≡ bearing_origin outline bearing ascender }
{
    unusual(raised(outline.top, i64::from(bearing)), ascender)
}

/// Half of what one number is more than another, rounded down.
fn half_difference(to: i64, from: i64) -> i64
    requires to_low { negsuc 4294967295 ≤ℤ to }
    requires to_high { to ≤ℤ pos 4294967295 }
    requires from_low { negsuc 4294967295 ≤ℤ from }
    requires from_high { from ≤ℤ pos 4294967295 }
    ensures value { result ≡ half (to -ℤ from) }
    ensures low { negsuc 1099511627775 ≤ℤ result }
    ensures high { result ≤ℤ pos 1099511627775 }
{
    (to - from).div_euclid(2)
}

/// The origin of a glyph by its box alone: the box is in the middle of the line's height.
#[tactic(auto, unfolding(crate::specs::Origins::centred_origin))]
fn centred_origin(outline: GlyphBox, line: LineMetrics) -> Option<i16>
    ensures { result ≡ centred_origin outline line }
{
    let height = difference(i32::from(line.ascender), i32::from(line.descender));
    let size = difference(outline.top, outline.bottom);
    let above = half_difference(height, size);
    unusual(raised(outline.top, above), line.ascender)
}

/// The box of a glyph.
fn box_at(boxes: &[GlyphBox], glyph: u16) -> Option<GlyphBox>
    ensures { result ≡ slice_get boxes.now glyph }
{
    boxes.get(usize::from(glyph)).copied()
}

/// The origin of a glyph by its top side bearing, or by its box alone where it has none; none without a box.
fn box_origin_at(
    boxes: &[GlyphBox],
    vmtx: &[u8],
    long: usize,
    line: LineMetrics,
    glyph: u16,
) -> Option<i16>
    requires { 4 * long ≤ length vmtx.now }
    ensures { result ≡ box_origin_at boxes.now vmtx.now long line glyph }
{
    let outline = box_at(boxes, glyph)?;
    match bearing_at(vmtx, long, glyph) {
        Some(bearing) => bearing_origin(outline, bearing, line.ascender),
        None => centred_origin(outline, line),
    }
}

/// The rows of vertical origins of a font without VORG, by the boxes of its glyphs and the top side bearings of vmtx, which
/// has n long metrics (0 without it). A glyph whose origin is the ascender has no row.
#[tactic(auto, using(crate::proofs::Rows::value_pushed, crate::proofs::Rows::value_rows_rise))]
pub fn box_origins(
    alloc: Global,
    boxes: &[GlyphBox],
    vmtx: &[u8],
    long: usize,
    line: LineMetrics,
    count: u16,
) -> Result<SortedRows<GlyphRow<i16>>, TableFault>
    requires { 4 * long ≤ length vmtx.now }
    ensures ok { IfOk result (λ v. v ≡ box_origins boxes.now vmtx.now long line count) }
    ensures refused { IfErr result (λ e. e ≡ TableFault.OutOfMemory) }
{
    let mut rows = Vec::with_capacity(alloc, usize::from(count))?;
    for glyph in 0..count {
        push_value(
            &mut rows,
            glyph,
            box_origin_at(boxes, vmtx, long, line, glyph),
        )?;
    }
    Ok(SortedRows::new(rows))
}

/// A record of VORG: a glyph and the y coordinate of its vertical origin.
fn origin_record(table: &[u8], at: usize) -> GlyphRow<i16>
    requires { at + 4 ≤ length table.now }
    ensures { result ≡ origin_record table.now at }
{
    GlyphRow {
        glyph: word(table, at),
        value: signed_word(table, at + 2),
    }
}

/// The records of VORG, whose glyphs rise.
#[tactic(auto, using(font_bytes::proofs::Recorded::records_more, font_bytes::proofs::Recorded::records_end), unfolding(crate::specs::Origins::origin_records))]
fn origin_records(alloc: Global, table: &[u8]) -> Result<SortedRows<GlyphRow<i16>>, TableFault>
    ensures ok { IfOk result (λ v. origin_records table.now ≡ Ok v) }
    ensures refused { IfErr result (λ e. e ≢ TableFault.OutOfMemory
        → origin_records table.now ≡ Err e) }
{
    need(table, 0, 8)?;
    let count = usize::from(word(table, 6));
    need(table, 8, 4 * count)?;
    let rows = all_records(alloc, table, count)?;
    if !is_rising(&rows) {
        return Err(TableFault::Order(0));
    }
    Ok(SortedRows::new(rows))
}

/// The records of VORG in turn.
#[tactic(auto, using(font_bytes::proofs::Recorded::records_more, font_bytes::proofs::Recorded::records_end))]
fn all_records(alloc: Global, table: &[u8], count: usize) -> Result<Vec<GlyphRow<i16>>, TableFault>
    requires { 8 + 4 * count ≤ length table.now }
    ensures ok { IfOk result (λ v. v.items ≡ records (origin_record table.now) 4 8 count) }
    ensures refused { IfErr result (λ e. e ≡ TableFault.OutOfMemory) }
{
    let mut rows = Vec::with_capacity(alloc, count)?;
    for index in 0..count {
        rows.push(origin_record(table, 8 + 4 * index))?;
    }
    Ok(rows)
}

/// The usual height of origins, and the ascender, whose glyphs have no rows.
#[derive(Clone, Copy, PartialEq, Eq, Debug)]
pub struct Heights {
    pub usual: i16,
    pub ascender: i16,
}

/// The origin of a glyph by the records of VORG, else the default one.
fn vorg_origin(records: &SortedRows<GlyphRow<i16>>, heights: Heights, glyph: u16) -> Option<i16>
    ensures { result ≡ vorg_origin records.now heights glyph }
{
    match find_value(records, glyph) {
        Some(height) => unusual(i64::from(height), heights.ascender),
        None => unusual(i64::from(heights.usual), heights.ascender),
    }
}

/// The rows of vertical origins by the records of VORG and its default.
#[tactic(auto, using(crate::proofs::Rows::value_pushed, crate::proofs::Rows::value_rows_rise))]
fn recorded_origins(
    alloc: Global,
    records: &SortedRows<GlyphRow<i16>>,
    heights: Heights,
    count: u16,
) -> Result<SortedRows<GlyphRow<i16>>, TableFault>
    ensures ok { IfOk result (λ v. v ≡ recorded_origins heights count records.now) }
    ensures refused { IfErr result (λ e. e ≡ TableFault.OutOfMemory) }
{
    let mut rows = Vec::with_capacity(alloc, usize::from(count))?;
    for glyph in 0..count {
        push_value(&mut rows, glyph, vorg_origin(records, heights, glyph))?;
    }
    Ok(SortedRows::new(rows))
}

/// The rows of vertical origins by the table VORG. A glyph whose origin is the ascender has no row.
#[tactic(auto, unfolding(crate::specs::Origins::vorg_origins, crate::specs::Origins::origin_records))]
pub fn vorg_origins(
    alloc: Global,
    table: &[u8],
    ascender: i16,
    count: u16,
) -> Result<SortedRows<GlyphRow<i16>>, TableFault>
    ensures ok { IfOk result (λ v. vorg_origins table.now ascender count ≡ Ok v) }
    ensures refused { IfErr result (λ e. e ≢ TableFault.OutOfMemory
        → vorg_origins table.now ascender count ≡ Err e) }
{
    let records = origin_records(alloc, table)?;
    let usual = signed_word(table, 4);
    recorded_origins(alloc, &records, Heights { usual, ascender }, count)
}
