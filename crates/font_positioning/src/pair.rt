//! Pair adjustment subtables (OpenType, GPOS lookup type 2).
ghost use Rattle.std.specs.Prelude.{◌≡◌, ◌≢◌, ◌≤◌, ◌<◌, ◌+◌, ◌*◌, IfOk, IfErr, Ok, Err, length};
ghost use Rattle.font_positioning.specs.ClassPairs.{class_pairs, pair_pos_at};

use crate::classes::{
    classes_below, first_glyphs, read_class_rows_from, read_class1_records, row_size,
};
use crate::pair_sets::{PairFormat, read_glyph_pairs};
use font_bytes::fault::TableFault;
use font_bytes::room::Room;
use font_bytes::words::{need, word};
use font_common::read_glyphs_in_room;
use layout_common::array::Array;
use layout_tables::pair::{ClassPairs, GlyphPairs, PairPos};
use std::alloc::Global;

/// Reads format 2: pairs by classes.
fn read_class_pairs(
    alloc: Global,
    table: &[u8],
    at: usize,
    room: &mut Room,
) -> Result<ClassPairs, TableFault>
    ensures ok { IfOk result (λ v. class_pairs room.old.left table.now at ≡ Ok (v, room.new.left)) }
    ensures refused { IfErr result (λ e. e ≢ TableFault.OutOfMemory
        → class_pairs room.old.left table.now at ≡ Err e) }
{
    need(table, at, 16)?;
    let format = PairFormat {
        first: word(table, at + 4),
        second: word(table, at + 6),
    };
    let count1 = word(table, at + 12);
    let count2 = word(table, at + 14);
    need(
        table,
        at + 16,
        row_size(format, count2) * usize::from(count1),
    )?;
    room.take(usize::from(count1) * (usize::from(count2) + 1))?;
    let glyphs = read_glyphs_in_room(alloc, table, at, u32::from(word(table, at + 2)), room)?;
    let rows1 = read_class_rows_from(alloc, table, at, word(table, at + 8), room)?;
    let rows2 = read_class_rows_from(alloc, table, at, word(table, at + 10), room)?;
    let coverage = first_glyphs(alloc, &glyphs, &rows1, count1)?;
    let class_def1 = classes_below(alloc, rows1, count1)?;
    let class_def2 = classes_below(alloc, rows2, count2)?;
    let records = read_class1_records(format, alloc, table, at + 16, count1, count2)?;
    Ok(ClassPairs {
        coverage,
        class_def1,
        class_def2,
        records: Array::new(records),
    })
}

/// Reads the pair adjustment subtable at an offset, none where its format is unknown.
pub fn read_pair_pos(
    alloc: Global,
    table: &[u8],
    at: usize,
    room: &mut Room,
) -> Result<Option<PairPos>, TableFault>
    ensures ok { IfOk result (λ v. pair_pos_at room.old.left table.now at ≡ Ok (v, room.new.left)) }
    ensures refused { IfErr result (λ e. e ≢ TableFault.OutOfMemory
        → pair_pos_at room.old.left table.now at ≡ Err e) }
{
    need(table, at, 2)?;
    let format = word(table, at);
    if format == 1 {
        let rows = read_glyph_pairs(alloc, table, at, room)?;
        return Ok(Some(PairPos::Glyphs(GlyphPairs { rows })));
    }
    if format == 2 {
        let pairs = read_class_pairs(alloc, table, at, room)?;
        return Ok(Some(PairPos::Classes(pairs)));
    }
    Ok(None)
}
