//! Reads the GPOS subtables other than those that attach marks.
ghost use Rattle.std.specs.Prelude.{◌≡◌, ◌≢◌, IfOk, IfErr, Ok, Err};
ghost use Rattle.serde_json.specs.Find.{get};
ghost use Rattle.serde_json.specs.View.{view};
ghost use Rattle.shell_face_json.specs.Row.{only};
ghost use Rattle.shell_face_json.specs.Positions.{anchor, value_record, single_pos, pair_values, pair_row, class1_record, class_pairs, pair_pos, entry_exit, cursive_pos};

use crate::glyphs::{read_classes_at, read_coverage_at};
use crate::lengths::{items_at, least_length};
use crate::objects::{count_at, read_in_turn_at};
use crate::rising::read_by_key;
use crate::rows::{FromItems, read_only, read_row};
use crate::value::FromJson;
use layout_tables::cursive::{CursivePos, EntryExit};
use layout_tables::pair::{Class1Record, ClassPairs, GlyphPairs, PairPos, PairRow, PairValues};
use layout_tables::pair_rows::PairRows;
use layout_tables::single_pos::SinglePos;
use layout_tables::value::{Anchor, ValueRecord};
use serde_json::Value;
use shell_json::fault::JsonFault;
use shell_json::items::list;
use std::alloc::Global;

impl FromJson for Anchor {
    ghost font_value = { λ _. anchor };

    fn from_json(alloc: Global, value: &Value, limit: usize) -> Result<Anchor, JsonFault> {
        let (x, (y, ())) = read_row(alloc, value, limit)?;
        Ok(Anchor { x, y })
    }
}

impl FromJson for ValueRecord {
    ghost font_value = { λ _. value_record };

    fn from_json(alloc: Global, value: &Value, limit: usize) -> Result<ValueRecord, JsonFault> {
        let (x_placement, (y_placement, (x_advance, (y_advance, ())))) = read_row(
            alloc, value, limit,
        )?;
        Ok(ValueRecord {
            x_placement,
            y_placement,
            x_advance,
            y_advance,
        })
    }
}

/// A row of one value record.
impl FromItems for ValueRecord {
    ghost row_items = { λ _. only value_record };

    fn from_items(alloc: Global, values: &[Value], limit: usize) -> Result<ValueRecord, JsonFault> {
        read_only(alloc, values, limit)
    }
}

impl FromJson for SinglePos {
    ghost font_value = { λ _. single_pos };

    fn from_json(alloc: Global, value: &Value, limit: usize) -> Result<SinglePos, JsonFault> {
        let rows = read_by_key(alloc, list(value)?, limit)?;
        Ok(SinglePos { rows })
    }
}

impl FromJson for PairValues {
    ghost font_value = { λ _. pair_values };

    fn from_json(alloc: Global, value: &Value, limit: usize) -> Result<PairValues, JsonFault> {
        let (first, (second, ())) = read_row(alloc, value, limit)?;
        Ok(PairValues { first, second })
    }
}

impl FromJson for PairRow {
    ghost font_value = { pair_row };

    fn from_json(alloc: Global, value: &Value, limit: usize) -> Result<PairRow, JsonFault> {
        let (first, (second, (one, (other, ())))) = read_row(alloc, value, limit)?;
        Ok(PairRow {
            first,
            second,
            values: PairValues {
                first: one,
                second: other,
            },
        })
    }
}

impl FromJson for Class1Record {
    ghost font_value = { λ _. class1_record };

    fn from_json(alloc: Global, value: &Value, limit: usize) -> Result<Class1Record, JsonFault> {
        let class2_records = FromJson::from_json(alloc, value, limit)?;
        Ok(Class1Record { class2_records })
    }
}

impl FromJson for PairPos {
    ghost font_value = { pair_pos };

    fn from_json(alloc: Global, value: &Value, limit: usize) -> Result<PairPos, JsonFault> {
        if value.is_object() {
            return Ok(PairPos::Classes(read_class_pairs(alloc, value, limit)?));
        }
        let rows = PairRows::new(alloc, read_by_key(alloc, list(value)?, limit)?)?;
        Ok(PairPos::Glyphs(GlyphPairs { rows }))
    }
}

fn read_class_pairs(alloc: Global, value: &Value, limit: usize) -> Result<ClassPairs, JsonFault>
    ensures ok { IfOk result (λ p. class_pairs limit (view value.now) ≡ Ok p) }
    ensures refused { IfErr result (λ e. e ≢ JsonFault.OutOfMemory
        → class_pairs limit (view value.now) ≡ Err e) }
{
    let class1_count = count_at(value, "records");
    let class2_count = least_length(limit, items_at(value, "records"));
    let coverage = read_coverage_at(alloc, value, "first", limit)?;
    let class_def1 = read_classes_at(alloc, value, "class1", class1_count)?;
    let class_def2 = read_classes_at(alloc, value, "class2", class2_count)?;
    let records = read_in_turn_at(alloc, value, "records", limit)?;
    Ok(ClassPairs {
        coverage,
        class_def1,
        class_def2,
        records,
    })
}

/// The entry and exit anchors of cursive attachment.
impl FromItems for EntryExit {
    ghost row_items = { λ _. entry_exit };

    fn from_items(alloc: Global, values: &[Value], limit: usize) -> Result<EntryExit, JsonFault> {
        let (entry, (exit, ())): (Option<Anchor>, (Option<Anchor>, ())) = FromItems::from_items(
            alloc, values, limit,
        )?;
        Ok(EntryExit { entry, exit })
    }
}

impl FromJson for CursivePos {
    ghost font_value = { λ _. cursive_pos };

    fn from_json(alloc: Global, value: &Value, limit: usize) -> Result<CursivePos, JsonFault> {
        let rows = read_by_key(alloc, list(value)?, limit)?;
        Ok(CursivePos { rows })
    }
}
