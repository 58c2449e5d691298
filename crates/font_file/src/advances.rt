//! The advances of a font's glyphs.
ghost use Rattle.std.specs.Prelude.{◌≡◌, ◌≤◌, ◌*◌, IfOk, IfErr, Ok, Err, length};
ghost use Rattle.std.specs.Option.{option_copied};
ghost use Rattle.font_bytes.specs.declared.fault.TableFault.{TableFault};
ghost use Rattle.font_file.specs.Advances.{bytes_or_none, metrics_in, vertical_rows};

use crate::found::table_in;
use crate::headers::Headers;
use buffer_rows::SortedRows;
use font_bytes::fault::TableFault;
use font_bytes::font_fault::in_table;
use font_bytes::{FontFault, FontTable};
use font_metrics::{advance_rows, height_rows, long_metrics};
use layout_common::glyph_row::GlyphRow;
use std::alloc::Global;

/// A table of metrics, and how many long metrics it has.
#[derive(Clone, Copy)]
pub(crate) struct Metrics<'a> {
    pub(crate) table: Option<&'a [u8]>,
    pub(crate) long: usize,
}

/// The bytes of a table, none without it.
pub(crate) fn bytes_or_none<'a>(table: Option<&'a [u8]>) -> &'a [u8]
    ensures { result.now ≡ bytes_or_none (option_copied table.entry) }
{
    match table {
        Some(bytes) => bytes,
        None => &[],
    }
}

/// A table of metrics by its header.
#[tactic(auto, using(crate::proofs::Long::long_fits))]
pub(crate) fn metrics_in(
    bytes: &[u8],
    index: usize,
    header: FontTable,
    table: FontTable,
) -> Result<Metrics<'_>, FontFault>
    ensures ok { IfOk result (λ m. metrics_in bytes.entry.now index header table ≡ Ok (option_copied m.table, m.long)) }
    ensures refused { IfErr result (λ e. metrics_in bytes.entry.now index header table ≡ Err e) }
    ensures within { IfOk result (λ m. 4 * m.long ≤ length (bytes_or_none (option_copied m.table))) }
{
    let found = table_in(bytes, index, header)?;
    let table = table_in(bytes, index, table)?;
    let long = in_table(Some(header), long_metrics(found, table))?;
    Ok(Metrics { table, long })
}

/// The advances of a line downwards.
pub(crate) fn vertical_rows(
    alloc: Global,
    headers: Headers,
    metrics: Metrics<'_>,
) -> Result<SortedRows<GlyphRow<u16>>, TableFault>
    requires { 4 * metrics.long ≤ length (bytes_or_none (option_copied metrics.table)) }
    ensures ok { IfOk result (λ v. v ≡ vertical_rows headers (option_copied metrics.entry.table) metrics.entry.long) }
    ensures refused { IfErr result (λ e. e ≡ TableFault.OutOfMemory) }
{
    match metrics.table {
        Some(table) => advance_rows(alloc, table, metrics.long, headers.count),
        None => height_rows(alloc, headers.line, headers.upem, headers.count),
    }
}
