//! Reads rows of glyphs, glyph sets and glyph classes.
ghost use Rattle.std.specs.Prelude.{◌≡◌, ◌≢◌, IfOk, IfErr, Ok, Err};
ghost use Rattle.serde_json.specs.View.{view, items_view};
ghost use Rattle.shell_face_json.specs.Lists.{rows_at};
ghost use Rattle.shell_face_json.specs.Glyphs.{glyph_row, coverage, coverage_at, class_definition, classes_in};

use crate::objects::read_in_turn_at;
use crate::rising::read_by_key;
use crate::rows::{FromItems, split_row};
use crate::value::FromJson;
use layout_common::array::Array;
use layout_common::class_definition::ClassDefinition;
use layout_common::coverage::Coverage;
use layout_common::glyph_row::GlyphRow;
use serde_json::Value;
use shell_json::cell::{Cell, pair};
use shell_json::fault::JsonFault;
use shell_json::items::{list, list_at};
use std::alloc::Global;

/// Glyph numbers are below this limit: they have 16 bits.
pub const GLYPH_LIMIT: usize = 0x1_0000;

/// A glyph, followed by the fields of its row.
impl<V: FromItems> FromJson for GlyphRow<V> {
    ghost font_value = { λ limit. glyph_row (V.row_items limit) };

    fn from_json(alloc: Global, value: &Value, limit: usize) -> Result<GlyphRow<V>, JsonFault> {
        let (glyph, rest) = split_row(value)?;
        let (glyph, value) = pair(u16::read(glyph), V::from_items(alloc, rest, limit))?;
        Ok(GlyphRow { glyph, value })
    }
}

/// A list of glyphs.
impl FromJson for Coverage {
    ghost font_value = { coverage };

    fn from_json(alloc: Global, value: &Value, limit: usize) -> Result<Coverage, JsonFault> {
        let glyphs: Array<u16> = FromJson::from_json(alloc, value, limit)?;
        Ok(Coverage::new(alloc, glyphs.into_vec())?)
    }
}

/// A list of rows of a glyph and its class.
impl FromJson for ClassDefinition {
    ghost font_value = { class_definition };

    fn from_json(alloc: Global, value: &Value, limit: usize) -> Result<ClassDefinition, JsonFault> {
        read_classes(alloc, list(value)?, limit)
    }
}

/// Reads rows of a glyph and its class, by rising glyphs.
pub fn read_classes(
    alloc: Global,
    values: &[Value],
    limit: usize,
) -> Result<ClassDefinition, JsonFault>
    ensures ok { IfOk result (λ c. classes_in limit (items_view values.now) ≡ Ok c) }
    ensures refused { IfErr result (λ e. e ≢ JsonFault.OutOfMemory
        → classes_in limit (items_view values.now) ≡ Err e) }
{
    let rows = read_by_key(alloc, values, limit)?;
    Ok(ClassDefinition::new(alloc, rows)?)
}

/// Reads the classes under a key.
pub fn read_classes_at(
    alloc: Global,
    value: &Value,
    key: &str,
    limit: usize,
) -> Result<ClassDefinition, JsonFault>
    ensures ok { IfOk result (λ c. rows_at key.now (classes_in limit) (view value.now) ≡ Ok c) }
    ensures refused { IfErr result (λ e. e ≢ JsonFault.OutOfMemory
        → rows_at key.now (classes_in limit) (view value.now) ≡ Err e) }
{
    read_classes(alloc, list_at(value, key)?, limit)
}

/// Reads the set of glyphs under a key.
pub fn read_coverage_at(
    alloc: Global,
    value: &Value,
    key: &str,
    limit: usize,
) -> Result<Coverage, JsonFault>
    ensures ok { IfOk result (λ c. coverage_at limit key.now (view value.now) ≡ Ok c) }
    ensures refused { IfErr result (λ e. e ≢ JsonFault.OutOfMemory
        → coverage_at limit key.now (view value.now) ≡ Err e) }
{
    let glyphs: Array<u16> = read_in_turn_at(alloc, value, key, limit)?;
    Ok(Coverage::new(alloc, glyphs.into_vec())?)
}
