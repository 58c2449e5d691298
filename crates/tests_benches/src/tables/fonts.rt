//! Look-ups in the tables of a large font: a glyph's record, its class, and whether it is in a set of glyphs.
use super::{COUNT, print_time};
use buffer_rows::{SortedRows, is_rising};
use layout_common::class_definition::ClassDefinition;
use layout_common::coverage::Coverage;
use layout_common::glyph_row::{GlyphRow, find_value};
use std::alloc::{AllocError, Global};
use std::io;
use std::time::Instant;

const GLYPHS: u16 = 65_000;

fn glyph_rows(alloc: Global) -> Result<Vec<GlyphRow<u16>>, AllocError> {
    let mut rows = Vec::new(alloc);
    for glyph in 0..GLYPHS {
        rows.push(GlyphRow {
            glyph,
            value: glyph % 1_000,
        })?;
    }
    Ok(rows)
}

/// Every eighth glyph.
fn covered_glyphs(alloc: Global) -> Result<Vec<u16>, AllocError> {
    let mut glyphs = Vec::new(alloc);
    for index in 0..GLYPHS / 8 {
        glyphs.push(index.wrapping_mul(8))?;
    }
    Ok(glyphs)
}

/// Glyphs in no order, each of which occurs.
fn asked_glyphs(alloc: Global) -> Result<Vec<u16>, AllocError> {
    let mut glyphs = Vec::new(alloc);
    for index in 0..COUNT {
        glyphs.push((index.wrapping_mul(40_503) % 0x1_0000) as u16)?;
    }
    Ok(glyphs)
}

fn rows_found(rows: &SortedRows<GlyphRow<u16>>, glyphs: &[u16]) -> usize {
    glyphs
        .iter()
        .filter(|glyph| find_value(rows, **glyph).is_some())
        .count()
}

fn classes_found(classes: &ClassDefinition, glyphs: &[u16]) -> usize {
    glyphs
        .iter()
        .filter(|glyph| classes.class_of(**glyph) != 0)
        .count()
}

fn glyphs_covered(coverage: &Coverage, glyphs: &[u16]) -> usize {
    glyphs
        .iter()
        .filter(|glyph| coverage.contains(**glyph))
        .count()
}

fn time_coverage(rt: &HostRuntime, coverage: &Coverage, glyphs: &[u16]) -> io::Result<()> {
    let start = Instant::now(rt)?;
    let found = glyphs_covered(coverage, glyphs);
    print_time(rt, "coverage", start, found)
}

fn time_rows(rt: &HostRuntime, rows: &SortedRows<GlyphRow<u16>>, glyphs: &[u16]) -> io::Result<()> {
    let start = Instant::now(rt)?;
    let found = rows_found(rows, glyphs);
    print_time(rt, "glyph row", start, found)
}

fn time_classes(rt: &HostRuntime, classes: &ClassDefinition, glyphs: &[u16]) -> io::Result<()> {
    let start = Instant::now(rt)?;
    let found = classes_found(classes, glyphs);
    print_time(rt, "class", start, found)
}

/// Performs a million look-ups of each kind.
pub(crate) fn ask_font(rt: &HostRuntime) -> io::Result<()> {
    let glyphs = asked_glyphs(rt.alloc())?;
    ask_rows(rt, &glyphs)?;
    ask_coverage(rt, &glyphs)
}

fn ask_rows(rt: &HostRuntime, glyphs: &[u16]) -> io::Result<()> {
    let rows = glyph_rows(rt.alloc())?;
    if !is_rising(&rows) {
        return Ok(());
    }
    let rows = SortedRows::new(rows);
    time_rows(rt, &rows, glyphs)?;
    time_classes(rt, &ClassDefinition::new(rt.alloc(), rows)?, glyphs)
}

fn ask_coverage(rt: &HostRuntime, glyphs: &[u16]) -> io::Result<()> {
    let coverage = Coverage::new(rt.alloc(), covered_glyphs(rt.alloc())?)?;
    time_coverage(rt, &coverage, glyphs)
}
