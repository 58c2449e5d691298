//! Reads the subtables that attach marks (GPOS lookup types 4 to 6).
ghost use Rattle.shell_face_json.specs.Marks.{mark_record, base_row, component, ligature_row, mark_base, mark_lig};

use crate::lengths::{items_at, least_length_in_rows, least_row_length};
use crate::objects::{object, read_by_key_at};
use crate::rows::{FromItems, read_row};
use crate::value::FromJson;
use layout_tables::mark::{
    BaseRow, ComponentRecord, LigatureRow, MarkBasePos, MarkLigPos, MarkRecord,
};
use layout_tables::value::Anchor;
use serde_json::Value;
use shell_json::fault::JsonFault;
use std::alloc::Global;

/// A mark's class and its anchor.
impl FromItems for MarkRecord {
    ghost row_items = { mark_record };

    fn from_items(alloc: Global, values: &[Value], limit: usize) -> Result<MarkRecord, JsonFault> {
        let (class, (anchor, ())): (u16, (Option<Anchor>, ())) = FromItems::from_items(
            alloc, values, limit,
        )?;
        Ok(MarkRecord { class, anchor })
    }
}

impl FromJson for BaseRow {
    ghost font_value = { base_row };

    fn from_json(alloc: Global, value: &Value, limit: usize) -> Result<BaseRow, JsonFault> {
        let (glyph, (anchors, ())) = read_row(alloc, value, limit)?;
        Ok(BaseRow { glyph, anchors })
    }
}

impl FromJson for ComponentRecord {
    ghost font_value = { λ _. component };

    fn from_json(alloc: Global, value: &Value, limit: usize) -> Result<ComponentRecord, JsonFault> {
        let anchors = FromJson::from_json(alloc, value, limit)?;
        Ok(ComponentRecord { anchors })
    }
}

impl FromJson for LigatureRow {
    ghost font_value = { ligature_row };

    fn from_json(alloc: Global, value: &Value, limit: usize) -> Result<LigatureRow, JsonFault> {
        let (glyph, (components, ())) = read_row(alloc, value, limit)?;
        Ok(LigatureRow { glyph, components })
    }
}

impl FromJson for MarkBasePos {
    ghost font_value = { mark_base };

    fn from_json(alloc: Global, value: &Value, limit: usize) -> Result<MarkBasePos, JsonFault> {
        object(value)?;
        let class_count = least_row_length(limit, items_at(value, "bases"));
        let marks = read_by_key_at(alloc, value, "marks", class_count)?;
        let bases = read_by_key_at(alloc, value, "bases", limit)?;
        Ok(MarkBasePos { marks, bases })
    }
}

impl FromJson for MarkLigPos {
    ghost font_value = { mark_lig };

    fn from_json(alloc: Global, value: &Value, limit: usize) -> Result<MarkLigPos, JsonFault> {
        object(value)?;
        let class_count = least_length_in_rows(limit, items_at(value, "bases"));
        let marks = read_by_key_at(alloc, value, "marks", class_count)?;
        let ligatures = read_by_key_at(alloc, value, "bases", limit)?;
        Ok(MarkLigPos { marks, ligatures })
    }
}
