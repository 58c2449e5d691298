//! Ligature substitution subtables (OpenType, GSUB lookup type 4).
ghost use Rattle.std.specs.Prelude.{◌≡◌, ◌≢◌, ◌≤◌, ◌+◌, IfOk, IfErr, Some, None, Ok, Err, length, true};
ghost use Rattle.layout_tables.specs.Keyed.{is_rising};
ghost use Rattle.font_substitution.specs.Ligature.{ligature_table, ligature_item, ligature_list, set_ligatures, set_row, ligature_sets, ligature_subst_at};

use crate::glyphs::read_glyph_list;
use font_bytes::fault::TableFault;
use font_bytes::room::Room;
use font_bytes::words::{need, word};
use font_records::{RecordReader, RowReader, read_array, read_covered_rows};
use layout_tables::ligature::{Ligature, LigatureSet, LigatureSubst};
use std::alloc::Global;

/// Reads the ligature table at an offset, none where it has no components.
fn read_ligature(
    alloc: Global,
    table: &[u8],
    at: usize,
    room: &mut Room,
) -> Result<Option<Ligature>, TableFault>
    ensures ok { IfOk result (λ v. ligature_table room.old.left table.now at ≡ Ok (v, room.new.left)) }
    ensures refused { IfErr result (λ e. e ≢ TableFault.OutOfMemory
        → ligature_table room.old.left table.now at ≡ Err e) }
{
    need(table, at, 4)?;
    let count = usize::from(word(table, at + 2));
    if count == 0 {
        return Ok(None);
    }
    let components = read_glyph_list(alloc, table, at + 4, count - 1, room)?;
    Ok(Some(Ligature::new(components, word(table, at))))
}

/// Reads ligatures whose records are their offsets from the start of their set.
#[derive(Clone, Copy)]
struct Ligatures {
    start: usize,
}

impl RecordReader for Ligatures {
    type Item = Ligature;

    ghost width_of = { λ _. 2 };

    ghost base_of = { λ s. s.start };

    ghost item_at = { λ s. ligature_item s.start };

    fn width(&self) -> usize {
        2
    }

    fn read_item(
        &self,
        alloc: Global,
        table: &[u8],
        at: usize,
        room: &mut Room,
    ) -> Result<Option<Ligature>, TableFault> {
        let offset = word(table, at);
        if offset == 0 {
            return Ok(None);
        }
        read_ligature(alloc, table, self.start + usize::from(offset), room)
    }
}

/// Reads the ligatures of the ligature set table at an offset.
fn read_ligatures(
    alloc: Global,
    table: &[u8],
    at: usize,
    room: &mut Room,
) -> Result<Vec<Ligature>, TableFault>
    ensures ok { IfOk result (λ v. ligature_list room.old.left table.now at ≡ Ok (v.items, room.new.left)) }
    ensures refused { IfErr result (λ e. e ≢ TableFault.OutOfMemory
        → ligature_list room.old.left table.now at ≡ Err e) }
{
    need(table, at, 2)?;
    let count = usize::from(word(table, at));
    need(table, at + 2, 2 * count)?;
    read_array(&Ligatures { start: at }, alloc, table, at + 2, count, room)
}

/// Reads the ligatures of the set at an offset from the subtable's start. A null offset is an empty set.
fn read_set(
    alloc: Global,
    table: &[u8],
    start: usize,
    offset: u16,
    room: &mut Room,
) -> Result<Vec<Ligature>, TableFault>
    requires { start ≤ length table.now }
    ensures ok { IfOk result (λ v. set_ligatures table.now start room.old.left offset ≡ Ok (v.items, room.new.left)) }
    ensures refused { IfErr result (λ e. e ≢ TableFault.OutOfMemory
        → set_ligatures table.now start room.old.left offset ≡ Err e) }
{
    if offset == 0 {
        return Ok(Vec::new(alloc));
    }
    read_ligatures(alloc, table, start + usize::from(offset), room)
}

/// Reads sets whose records are their offsets from the subtable's start.
#[derive(Clone, Copy)]
struct LigatureSets {
    start: usize,
}

impl RowReader for LigatureSets {
    type Row = LigatureSet;

    ghost glyph_of = { λ s. s.first };

    ghost width_of = { λ _. 2 };

    ghost base_of = { λ s. s.start };

    ghost row_at = { λ s. set_row s.start };

    fn width(&self) -> usize {
        2
    }

    fn read_row(
        &self,
        alloc: Global,
        table: &[u8],
        at: usize,
        glyph: u16,
        room: &mut Room,
    ) -> Result<Option<LigatureSet>, TableFault> {
        let ligatures = read_set(alloc, table, self.start, word(table, at), room)?;
        Ok(Some(LigatureSet::new(glyph, ligatures)))
    }
}

/// Reads the sets of format 1.
fn read_sets(
    alloc: Global,
    table: &[u8],
    at: usize,
    room: &mut Room,
) -> Result<LigatureSubst, TableFault>
    ensures ok { IfOk result (λ v. ligature_sets room.old.left table.now at ≡ Ok (v, room.new.left)) }
    ensures refused { IfErr result (λ e. e ≢ TableFault.OutOfMemory
        → ligature_sets room.old.left table.now at ≡ Err e) }
{
    need(table, at, 6)?;
    let count = usize::from(word(table, at + 4));
    need(table, at + 6, 2 * count)?;
    let reader = LigatureSets { start: at };
    let sets = read_covered_rows(
        &reader,
        alloc,
        table,
        at,
        word(table, at + 2),
        at + 6,
        count,
        room,
    )?;
    Ok(LigatureSubst::new(sets))
}

/// Reads the ligature substitution subtable at an offset, none where its format is unknown.
pub fn read_ligature_subst(
    alloc: Global,
    table: &[u8],
    at: usize,
    room: &mut Room,
) -> Result<Option<LigatureSubst>, TableFault>
    ensures ok { IfOk result (λ v. ligature_subst_at room.old.left table.now at ≡ Ok (v, room.new.left)) }
    ensures refused { IfErr result (λ e. e ≢ TableFault.OutOfMemory
        → ligature_subst_at room.old.left table.now at ≡ Err e) }
{
    need(table, at, 2)?;
    if word(table, at) != 1 {
        return Ok(None);
    }
    let subtable = read_sets(alloc, table, at, room)?;
    Ok(Some(subtable))
}
