//! Reads a font of a font file.
ghost use Rattle.std.specs.Prelude.{◌≡◌, ◌≢◌, ◌≤◌, ◌*◌, IfOk, IfErr, Ok, Err, length};
ghost use Rattle.std.specs.Option.{option_copied};
ghost use Rattle.font_bytes.specs.declared.fault.TableFault.{TableFault};
ghost use Rattle.font_bytes.specs.declared.table_names.FontTable.{FontTable};
ghost use Rattle.font_bytes.specs.Results.{and_then};
ghost use Rattle.font_file.specs.Advances.{bytes_or_none, vertical_rows};
ghost use Rattle.font_file.specs.Characters.{characters_in};
ghost use Rattle.font_file.specs.Layouts.{layouts_in};
ghost use Rattle.font_metrics.specs.Advances.{advance_rows};
ghost use Rattle.font_file.specs.Face.{characters_and_layouts, drawing_in, face_in, fitting, metrics_of, origins_by, parts_in, origins_and_extents};
ghost use Rattle.font_file.specs.Found.{table_in};

use crate::advances::{Metrics, bytes_or_none, metrics_in, vertical_rows};
use crate::characters::{Characters, characters_in};
use crate::found::table_in;
use crate::headers::{Headers, headers_in};
use crate::layouts::{Layouts, layouts_in};
use crate::outlines::{FontFile, Outlines, names_in, outlines_in};
use crate::parts::FontParts;
use buffer_glyphs::names::hb_glyph_extents_t;
use buffer_rows::SortedRows;
use font_bytes::fault::TableFault;
use font_bytes::{FontFault, FontTable};
use font_metrics::{GlyphBox, advance_rows, box_origins, extent_rows, vorg_origins};
use layout_common::glyph_row::GlyphRow;
use layout_face::Face;
use layout_face::parts::{FaceParts, NameRow};
use std::alloc::Global;

type Rows<V> = SortedRows<GlyphRow<V>>;

/// The vertical origins of glyphs: those of VORG, else by boxes.
fn origins_in(
    alloc: Global,
    file: FontFile<'_>,
    headers: Headers,
    boxes: &[GlyphBox],
    metrics: Metrics<'_>,
) -> Result<Rows<i16>, FontFault>
    requires { 4 * metrics.long ≤ length (bytes_or_none (option_copied metrics.table)) }
    ensures ok { IfOk result (λ v. and_then (table_in file.entry.bytes.now file.entry.index FontTable.Vorg)
        (origins_by headers boxes.now (option_copied metrics.entry.table, metrics.entry.long)) ≡ Ok v) }
    ensures refused { IfErr result (λ e. e.cause ≢ TableFault.OutOfMemory
        → and_then (table_in file.entry.bytes.now file.entry.index FontTable.Vorg)
        (origins_by headers boxes.now (option_copied metrics.entry.table, metrics.entry.long)) ≡ Err e) }
{
    let (line, count) = (headers.line, headers.count);
    let read = match table_in(file.bytes, file.index, FontTable::Vorg)? {
        Some(table) => vorg_origins(alloc, table, line.ascender, count),
        None => {
            let vmtx = bytes_or_none(metrics.table);
            box_origins(alloc, boxes, vmtx, metrics.long, line, count)
        }
    };
    match read {
        Ok(rows) => Ok(rows),
        Err(cause) => Err(FontFault {
            table: Some(FontTable::Vorg),
            cause,
        }),
    }
}

/// Vertical origins, boxes and names of glyphs.
#[derive(Drop)]
struct Drawing {
    origins: Rows<i16>,
    extents: Rows<hb_glyph_extents_t>,
    names: SortedRows<NameRow>,
}

/// Vertical origins and boxes of glyphs, by the boxes of their outlines.
fn origins_and_extents(
    alloc: Global,
    file: FontFile<'_>,
    headers: Headers,
    boxes: &[GlyphBox],
    vertical: Metrics<'_>,
) -> Result<(Rows<i16>, Rows<hb_glyph_extents_t>), FontFault>
    requires { 4 * vertical.long ≤ length (bytes_or_none (option_copied vertical.table)) }
    ensures ok { IfOk result (λ p. origins_and_extents file.entry.bytes.now file.entry.index headers boxes.now
        (option_copied vertical.entry.table, vertical.entry.long) ≡ Ok (p.0, p.1)) }
    ensures refused { IfErr result (λ e. e.cause ≢ TableFault.OutOfMemory → origins_and_extents file.entry.bytes.now file.entry.index
        headers boxes.now (option_copied vertical.entry.table, vertical.entry.long) ≡ Err e) }
{
    let origins = origins_in(alloc, file, headers, boxes, vertical)?;
    match extent_rows(alloc, boxes, headers.count) {
        Ok(extents) => Ok((origins, extents)),
        Err(cause) => {
            drop(origins);
            Err(FontFault { table: None, cause })
        }
    }
}

/// Vertical origins, boxes and names of glyphs.
fn drawing_in(
    alloc: Global,
    parts: FontParts,
    file: FontFile<'_>,
    headers: Headers,
    horizontal: Metrics<'_>,
    vertical: Metrics<'_>,
) -> Result<Drawing, FontFault>
    requires widths { 4 * horizontal.long ≤ length (bytes_or_none (option_copied horizontal.table)) }
    requires heights { 4 * vertical.long ≤ length (bytes_or_none (option_copied vertical.table)) }
    ensures ok { IfOk result (λ d. drawing_in parts file.entry.bytes.now file.entry.index headers
        (option_copied horizontal.entry.table, horizontal.entry.long) (option_copied vertical.entry.table, vertical.entry.long)
        ≡ Ok ((d.origins, d.extents), d.names)) }
    ensures refused { IfErr result (λ e. e.cause ≢ TableFault.OutOfMemory → drawing_in parts file.entry.bytes.now
        file.entry.index headers (option_copied horizontal.entry.table, horizontal.entry.long)
        (option_copied vertical.entry.table, vertical.entry.long) ≡ Err e) }
{
    let outlines = outlines_in(alloc, parts, file, headers, horizontal)?;
    let Outlines { boxes, names } = outlines;
    let (origins, extents) = match origins_and_extents(alloc, file, headers, &boxes, vertical) {
        Ok(origins_and_extents) => origins_and_extents,
        Err(fault) => {
            drop(names);
            return Err(fault);
        }
    };
    match names_in(alloc, parts, file, headers.count, names) {
        Ok(names) => Ok(Drawing {
            origins,
            extents,
            names,
        }),
        Err(fault) => {
            drop((origins, extents));
            Err(fault)
        }
    }
}

/// Advances of both directions, vertical origins, boxes and names of glyphs.
#[derive(Drop)]
struct GlyphMetrics {
    h: Rows<u16>,
    v: Rows<u16>,
    drawing: Drawing,
}

/// The advances of both directions.
fn advances_of(
    alloc: Global,
    headers: Headers,
    horizontal: Metrics<'_>,
    vertical: Metrics<'_>,
) -> Result<(Rows<u16>, Rows<u16>), TableFault>
    requires widths { 4 * horizontal.long ≤ length (bytes_or_none (option_copied horizontal.table)) }
    requires heights { 4 * vertical.long ≤ length (bytes_or_none (option_copied vertical.table)) }
    ensures h { IfOk result (λ a. a.0
        ≡ advance_rows (bytes_or_none (option_copied horizontal.entry.table)) horizontal.entry.long headers.count) }
    ensures v { IfOk result (λ a. a.1 ≡ vertical_rows headers (option_copied vertical.entry.table) vertical.entry.long) }
    ensures refused { IfErr result (λ e. e ≡ TableFault.OutOfMemory) }
{
    let hmtx = bytes_or_none(horizontal.table);
    let h = advance_rows(alloc, hmtx, horizontal.long, headers.count)?;
    match vertical_rows(alloc, headers, vertical) {
        Ok(v) => Ok((h, v)),
        Err(fault) => {
            drop(h);
            Err(fault)
        }
    }
}

/// The metrics of a font's glyphs.
fn metrics_of(
    alloc: Global,
    parts: FontParts,
    file: FontFile<'_>,
    headers: Headers,
) -> Result<GlyphMetrics, FontFault>
    ensures ok { IfOk result (λ m. metrics_of parts file.entry.bytes.now file.entry.index headers
        ≡ Ok (record { h = m.h; v = m.v; drawing = ((m.drawing.origins, m.drawing.extents), m.drawing.names) })) }
    ensures refused { IfErr result (λ e. e.cause ≢ TableFault.OutOfMemory
        → metrics_of parts file.entry.bytes.now file.entry.index headers ≡ Err e) }
{
    let horizontal = metrics_in(file.bytes, file.index, FontTable::Hhea, FontTable::Hmtx)?;
    let vertical = metrics_in(file.bytes, file.index, FontTable::Vhea, FontTable::Vmtx)?;
    let drawing = drawing_in(alloc, parts, file, headers, horizontal, vertical)?;
    match advances_of(alloc, headers, horizontal, vertical) {
        Ok((h, v)) => Ok(GlyphMetrics { h, v, drawing }),
        Err(cause) => {
            drop(drawing);
            Err(FontFault { table: None, cause })
        }
    }
}

/// A font of its fields, in the groups in which they are read.
fn face_parts(
    headers: Headers,
    metrics: GlyphMetrics,
    characters: Characters,
    layouts: Layouts,
) -> FaceParts
    ensures { result ≡ record {
      upem = headers.upem;
      ascender = headers.line.ascender;
      cmap = characters.0;
      variants = characters.1;
      h = metrics.h;
      v = metrics.v;
      origins = metrics.drawing.origins;
      extents = metrics.drawing.extents;
      names = metrics.drawing.names;
      gdef = layouts.0;
      gsub = layouts.1.0;
      gpos = layouts.1.1;
    } }
{
    let GlyphMetrics { h, v, drawing } = metrics;
    let Drawing {
        origins,
        extents,
        names,
    } = drawing;
    let (cmap, variants) = characters;
    let (gdef, (gsub, gpos)) = layouts;
    FaceParts {
        upem: headers.upem,
        ascender: headers.line.ascender,
        cmap,
        variants,
        h,
        v,
        origins,
        extents,
        names,
        gdef,
        gsub,
        gpos,
    }
}

/// The characters and the layout tables of a font.
fn characters_and_layouts(
    alloc: Global,
    file: FontFile<'_>,
) -> Result<(Characters, Layouts), FontFault>
    ensures ok { IfOk result (λ r. (characters_in file.entry.bytes.now file.entry.index ≡ Ok (r.0.0, r.0.1))
        × (layouts_in file.entry.bytes.now file.entry.index r.0.0 ≡ Ok (r.1.0, (r.1.1.0, r.1.1.1)))) }
    ensures refused { IfErr result (λ e. e.cause ≢ TableFault.OutOfMemory
        → characters_and_layouts file.entry.bytes.now file.entry.index ≡ Err e) }
{
    let characters = characters_in(alloc, file)?;
    match layouts_in(alloc, file, characters.0.as_slice()) {
        Ok(layouts) => Ok((characters, layouts)),
        Err(fault) => {
            drop(characters);
            Err(fault)
        }
    }
}

/// The parts of a font.
fn parts_in(alloc: Global, parts: FontParts, file: FontFile<'_>) -> Result<FaceParts, FontFault>
    ensures ok { IfOk result (λ p. parts_in parts file.entry.bytes.now file.entry.index ≡ Ok p) }
    ensures refused { IfErr result (λ e. e.cause ≢ TableFault.OutOfMemory
        → parts_in parts file.entry.bytes.now file.entry.index ≡ Err e) }
{
    let headers = headers_in(file.bytes, file.index)?;
    let metrics = metrics_of(alloc, parts, file, headers)?;
    match characters_and_layouts(alloc, file) {
        Ok((characters, layouts)) => Ok(face_parts(headers, metrics, characters, layouts)),
        Err(fault) => {
            drop(metrics);
            Err(fault)
        }
    }
}

/// A font whose indices are within their lists.
fn fitting(face: FaceParts) -> Result<Face, FontFault>
    ensures ok { IfOk result (λ f. fitting face ≡ Ok f) }
    ensures refused { IfErr result (λ e. fitting face ≡ Err e) }
{
    if face.indices_fit() {
        return Ok(Face::new(face));
    }
    drop(face);
    Err(FontFault {
        table: None,
        cause: TableFault::Kind(0),
    })
}

/// Reads the font with an index of a font file: TrueType or OpenType with outlines of glyf, CFF or CFF2 (a variable font
/// at its default instance), or one of a collection. `parts` says what is read beside what every text needs.
///
/// # Errors
///
/// The first fault, by table and offset: `Short` where a table or the file ends too early, `Kind` for a version or format
/// that is not known, `Order` for numbers that fall where they may not, `Index` where the file has no font with the
/// index, `Missing` where the font lacks head or maxp, `TooLarge` where a table has more rows than a font may have; or
/// lack of memory.
#[tactic(auto, unfolding(crate::specs::Face::face_in))]
pub fn read_font(
    alloc: Global,
    bytes: &[u8],
    index: usize,
    parts: FontParts,
) -> Result<Face, FontFault>
    ensures ok { IfOk result (λ f. face_in parts bytes.now index ≡ Ok f) }
    ensures refused { IfErr result (λ e. e.cause ≢ TableFault.OutOfMemory → face_in parts bytes.now index ≡ Err e) }
{
    let face = parts_in(alloc, parts, FontFile { bytes, index })?;
    fitting(face)
}
