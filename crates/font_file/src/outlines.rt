//! The boxes of glyphs, by their outlines, and their names.
ghost use Rattle.std.specs.Prelude.{◌≡◌, ◌≢◌, ◌≤◌, ◌*◌, IfOk, IfErr, Ok, Err, [], length};
ghost use Rattle.std.specs.Option.{option_copied};
ghost use Rattle.font_bytes.specs.declared.fault.TableFault.{TableFault};
ghost use Rattle.font_file.specs.Advances.{bytes_or_none};
ghost use Rattle.font_file.specs.Outlines.{cff_parts, outlines_by, outlines_of_cff, outlines_of_cff2, outlines_of_glyf, outlines_in, outlines_without_glyf, names_beside, names_in, names_of_post, post_names, rising_names};
ghost use Rattle.font_bytes.specs.Results.{and_then};
ghost use Rattle.font_bytes.specs.declared.table_names.FontTable.{FontTable};
ghost use Rattle.font_file.specs.Found.{table_in};

use crate::advances::{Metrics, bytes_or_none};
use crate::found::{required_table, table_in};
use crate::headers::Headers;
use crate::parts::FontParts;
use crate::rooms::outline_room;
use buffer_rows::{SortedRows, is_rising};
use font_bytes::fault::TableFault;
use font_bytes::{FontFault, FontTable};
use font_cff::{CffParts, read_cff};
use font_metrics::{GlyphBox, glyf_boxes};
use font_names::read_names;
use layout_face::parts::NameRow;
use std::alloc::Global;

/// A font of a font file: the file's bytes, and the font's index.
#[derive(Clone, Copy)]
pub(crate) struct FontFile<'a> {
    pub(crate) bytes: &'a [u8],
    pub(crate) index: usize,
}

/// The boxes of glyphs, and the names that the table of their outlines has, each where it was wanted.
#[derive(Drop)]
pub(crate) struct Outlines {
    pub(crate) boxes: Vec<GlyphBox>,
    pub(crate) names: Vec<NameRow>,
}

fn no_outlines(alloc: Global) -> Outlines
    ensures { (result.boxes.items ≡ []) × (result.names.items ≡ []) }
{
    Outlines {
        boxes: Vec::new(alloc),
        names: Vec::new(alloc),
    }
}

/// What is wanted of the table of CFF with a name; without a wish it isn't read.
fn outlines_of_cff(
    alloc: Global,
    parts: FontParts,
    name: FontTable,
    is_cff2: bool,
    table: &[u8],
) -> Result<Outlines, FontFault>
    ensures ok { IfOk result (λ d. outlines_of_cff parts name is_cff2 table.now ≡ Ok (d.boxes.items, d.names.items)) }
    ensures refused { IfErr result (λ e. e.cause ≢ TableFault.OutOfMemory
        → outlines_of_cff parts name is_cff2 table.now ≡ Err e) }
{
    if !parts.extents && !parts.names {
        return Ok(no_outlines(alloc));
    }
    let mut room = outline_room(table);
    let wanted = CffParts {
        boxes: parts.extents,
        names: parts.names,
    };
    match read_cff(alloc, table, is_cff2, wanted, &mut room) {
        Ok(glyphs) => Ok(Outlines {
            boxes: glyphs.boxes,
            names: glyphs.names,
        }),
        Err(cause) => Err(FontFault {
            table: Some(name),
            cause,
        }),
    }
}

/// The boxes of outlines of glyf, where they are wanted.
fn outlines_of_glyf(
    alloc: Global,
    parts: FontParts,
    file: FontFile<'_>,
    headers: Headers,
    metrics: Metrics<'_>,
    glyf: &[u8],
) -> Result<Outlines, FontFault>
    requires { 4 * metrics.long ≤ length (bytes_or_none (option_copied metrics.table)) }
    ensures ok { IfOk result (λ d. outlines_of_glyf parts file.entry.bytes.now file.entry.index headers
        (option_copied metrics.entry.table, metrics.entry.long) glyf.now ≡ Ok (d.boxes.items, d.names.items)) }
    ensures refused { IfErr result (λ e. e.cause ≢ TableFault.OutOfMemory → outlines_of_glyf parts file.entry.bytes.now
        file.entry.index headers (option_copied metrics.entry.table, metrics.entry.long) glyf.now ≡ Err e) }
{
    if !parts.extents {
        return Ok(no_outlines(alloc));
    }
    let loca = required_table(file.bytes, file.index, FontTable::Loca)?;
    let hmtx = bytes_or_none(metrics.table);
    match glyf_boxes(
        alloc,
        loca,
        headers.is_long,
        glyf,
        hmtx,
        metrics.long,
        headers.count,
    ) {
        Ok(boxes) => Ok(Outlines {
            boxes,
            names: Vec::new(alloc),
        }),
        Err(cause) => Err(FontFault {
            table: Some(FontTable::Glyf),
            cause,
        }),
    }
}

/// The boxes and names of a font without glyf.
fn outlines_without_glyf(
    alloc: Global,
    parts: FontParts,
    file: FontFile<'_>,
) -> Result<Outlines, FontFault>
    ensures ok { IfOk result (λ d. and_then (table_in file.entry.bytes.now file.entry.index FontTable.Cff)
        (outlines_without_glyf parts file.entry.bytes.now file.entry.index) ≡ Ok (d.boxes.items, d.names.items)) }
    ensures refused { IfErr result (λ e. e.cause ≢ TableFault.OutOfMemory
        → and_then (table_in file.entry.bytes.now file.entry.index FontTable.Cff)
        (outlines_without_glyf parts file.entry.bytes.now file.entry.index) ≡ Err e) }
{
    if let Some(table) = table_in(file.bytes, file.index, FontTable::Cff)? {
        return outlines_of_cff(alloc, parts, FontTable::Cff, false, table);
    }
    match table_in(file.bytes, file.index, FontTable::Cff2)? {
        Some(table) => outlines_of_cff(alloc, parts, FontTable::Cff2, true, table),
        None => Ok(no_outlines(alloc)),
    }
}

/// The boxes and names by a font's outlines.
pub(crate) fn outlines_in(
    alloc: Global,
    parts: FontParts,
    file: FontFile<'_>,
    headers: Headers,
    metrics: Metrics<'_>,
) -> Result<Outlines, FontFault>
    requires { 4 * metrics.long ≤ length (bytes_or_none (option_copied metrics.table)) }
    ensures ok { IfOk result (λ d. outlines_in parts file.entry.bytes.now file.entry.index headers
        (option_copied metrics.entry.table, metrics.entry.long) ≡ Ok (d.boxes.items, d.names.items)) }
    ensures refused { IfErr result (λ e. e.cause ≢ TableFault.OutOfMemory → outlines_in parts file.entry.bytes.now
        file.entry.index headers (option_copied metrics.entry.table, metrics.entry.long) ≡ Err e) }
{
    match table_in(file.bytes, file.index, FontTable::Glyf)? {
        Some(glyf) => outlines_of_glyf(alloc, parts, file, headers, metrics, glyf),
        None => outlines_without_glyf(alloc, parts, file),
    }
}

/// Names of glyphs that rise.
fn rising(names: Vec<NameRow>) -> Result<SortedRows<NameRow>, FontFault>
    ensures ok { IfOk result (λ v. rising_names names.items ≡ Ok v) }
    ensures refused { IfErr result (λ e. rising_names names.items ≡ Err e) }
{
    if is_rising(&names) {
        Ok(SortedRows::new(names))
    } else {
        Err(FontFault {
            table: Some(FontTable::Cff),
            cause: TableFault::Order(0),
        })
    }
}

/// The names of a table post.
#[tactic(auto, unfolding(crate::specs::Outlines::names_of_post))]
fn names_of_post(alloc: Global, table: &[u8], count: u16) -> Result<SortedRows<NameRow>, FontFault>
    ensures ok { IfOk result (λ v. names_of_post count table.now ≡ Ok v) }
    ensures refused { IfErr result (λ e. e.cause ≢ TableFault.OutOfMemory → names_of_post count table.now ≡ Err e) }
{
    match read_names(alloc, table, count) {
        Ok(names) => Ok(names),
        Err(cause) => Err(FontFault {
            table: Some(FontTable::Post),
            cause,
        }),
    }
}

/// The names of the table post.
fn post_names(
    alloc: Global,
    file: FontFile<'_>,
    count: u16,
) -> Result<SortedRows<NameRow>, FontFault>
    ensures ok { IfOk result (λ v. and_then (table_in file.entry.bytes.now file.entry.index FontTable.Post) (post_names count) ≡ Ok v) }
    ensures refused { IfErr result (λ e. e.cause ≢ TableFault.OutOfMemory
        → and_then (table_in file.entry.bytes.now file.entry.index FontTable.Post) (post_names count) ≡ Err e) }
{
    match table_in(file.bytes, file.index, FontTable::Post)? {
        Some(table) => names_of_post(alloc, table, count),
        None => Ok(SortedRows::new(Vec::new(alloc))),
    }
}

/// The names of glyphs, where they are wanted: those of the outlines' table, else those of post.
pub(crate) fn names_in(
    alloc: Global,
    parts: FontParts,
    file: FontFile<'_>,
    count: u16,
    outlines: Vec<NameRow>,
) -> Result<SortedRows<NameRow>, FontFault>
    ensures ok { IfOk result (λ v. names_in parts file.entry.bytes.now file.entry.index count outlines.items ≡ Ok v) }
    ensures refused { IfErr result (λ e. e.cause ≢ TableFault.OutOfMemory
        → names_in parts file.entry.bytes.now file.entry.index count outlines.items ≡ Err e) }
{
    if !parts.names {
        drop(outlines);
        return Ok(SortedRows::new(Vec::new(alloc)));
    }
    if outlines.is_empty() {
        drop(outlines);
        return post_names(alloc, file, count);
    }
    rising(outlines)
}
