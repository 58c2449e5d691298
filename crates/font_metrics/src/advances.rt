//! Advances and side bearings (tables hhea and hmtx, vhea and vmtx).
ghost use Rattle.std.specs.Prelude.{◌≡◌, ◌≢◌, ◌≤◌, ◌<◌, ◌+◌, ◌*◌, length, IfOk, IfErr, OnOk, Ok, Err};
ghost use Rattle.std.specs.Option.{option_copied};
ghost use Rattle.font_metrics.specs.Values.{value_rows};
ghost use Rattle.font_metrics.specs.Advances.{long_metrics, advance_at, bearing_at, advance_rows, line_height, height_rows};

use crate::line::LineMetrics;
use crate::values::push_value;
use buffer_rows::SortedRows;
use font_bytes::fault::TableFault;
use font_bytes::words::{fits, need, signed_word, word};
use layout_common::glyph_row::GlyphRow;
use std::alloc::Global;

/// How many glyphs have an advance and a side bearing of their own, by the table hhea (vhea) and as far as hmtx (vmtx)
/// has them; 0 without one of the tables.
pub fn long_metrics(header: Option<&[u8]>, table: Option<&[u8]>) -> Result<usize, TableFault>
    ensures { result ≡ long_metrics (option_copied header.entry) (option_copied table.entry) }
{
    let (Some(header), Some(table)) = (header, table) else {
        return Ok(0);
    };
    need(header, 0, 36)?;
    Ok(usize::from(word(header, 34)).min(table.len() / 4))
}

/// The advance of a glyph: that of the last long metric for the glyphs after it.
fn advance_at(table: &[u8], long: usize, glyph: u16) -> u16
    requires some { 0 < long }
    requires within { 4 * long ≤ length table.now }
    ensures { result ≡ advance_at table.now long glyph }
{
    word(table, 4 * usize::from(glyph).min(long - 1))
}

/// The side bearing of a glyph, none past the table's end. Glyphs after the long metrics have one alone.
pub fn bearing_at(table: &[u8], long: usize, glyph: u16) -> Option<i16>
    requires { 4 * long ≤ length table.now }
    ensures { result ≡ bearing_at table.now long glyph }
{
    let glyph = usize::from(glyph);
    if glyph < long {
        return Some(signed_word(table, 4 * glyph + 2));
    }
    if long == 0 || !fits(table, 4 * long + 2 * (glyph - long), 2) {
        return None;
    }
    Some(signed_word(table, 4 * long + 2 * (glyph - long)))
}

/// The rows of advances: one for each glyph, none without a long metric.
#[tactic(auto, using(crate::proofs::Rows::value_pushed, crate::proofs::Rows::value_rows_rise), unfolding(crate::specs::Advances::advance_rows))]
pub fn advance_rows(
    alloc: Global,
    table: &[u8],
    long: usize,
    count: u16,
) -> Result<SortedRows<GlyphRow<u16>>, TableFault>
    requires { 4 * long ≤ length table.now }
    ensures ok { IfOk result (λ v. v ≡ advance_rows table.now long count) }
    ensures refused { IfErr result (λ e. e ≡ TableFault.OutOfMemory) }
{
    if long == 0 {
        return Ok(SortedRows::new(Vec::new(alloc)));
    }
    let mut rows = Vec::with_capacity(alloc, usize::from(count))?;
    for glyph in 0..count {
        push_value(&mut rows, glyph, Some(advance_at(table, long, glyph)))?;
    }
    Ok(SortedRows::new(rows))
}

/// The height of a line, where 16 bits hold it.
fn line_height(line: LineMetrics) -> Option<u16>
    ensures { result ≡ line_height line }
{
    let height = i32::from(line.ascender) - i32::from(line.descender);
    if height < 0 || height > 65535 {
        return None;
    }
    Some(height as u16)
}

/// The rows of advances downwards of a font without vmtx: each glyph has the height of the line. There are none where
/// that is an em, which a missing row means, or past 16 bits.
#[tactic(auto, using(crate::proofs::Rows::value_pushed, crate::proofs::Rows::value_rows_rise), unfolding(crate::specs::Advances::height_rows))]
pub fn height_rows(
    alloc: Global,
    line: LineMetrics,
    upem: u16,
    count: u16,
) -> Result<SortedRows<GlyphRow<u16>>, TableFault>
    ensures ok { IfOk result (λ v. v ≡ height_rows line upem count) }
    ensures refused { IfErr result (λ e. e ≡ TableFault.OutOfMemory) }
{
    let Some(height) = line_height(line) else {
        return Ok(SortedRows::new(Vec::new(alloc)));
    };
    if height == upem {
        return Ok(SortedRows::new(Vec::new(alloc)));
    }
    let mut rows = Vec::with_capacity(alloc, usize::from(count))?;
    for glyph in 0..count {
        push_value(&mut rows, glyph, Some(height))?;
    }
    Ok(SortedRows::new(rows))
}
