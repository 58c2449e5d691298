//! Lookups of GPOS (OpenType, GPOS lookup types 1 to 9).
ghost use Rattle.std.specs.Prelude.{◌≡◌, ◌≢◌, IfOk, IfErr, Ok, Err};
ghost use Rattle.font_bytes.specs.declared.fault.TableFault.{TableFault};
ghost use Rattle.font_positioning.specs.ClassPairs.{pair_pos_at};
ghost use Rattle.font_positioning.specs.Cursive.{cursive_pos_at};
ghost use Rattle.font_positioning.specs.Marks.{mark_base_pos_at, mark_lig_pos_at};
ghost use Rattle.font_positioning.specs.Single.{single_pos_at};
ghost use Rattle.font_lists.specs.Lookups.{type_of};
ghost use Rattle.font_layout.specs.Positioning.{no_positioning, positioning_lookup_at, positions_of};

use crate::contexts::ContextReader;
use font_bytes::fault::TableFault;
use font_bytes::room::Room;
use font_common::offsets::TableReader;
use font_lists::lookups::{SubtableOffset, read_lookup_head, type_of};
use font_lists::subtables::{SubtableReader, no_subtables, read_subtables};
use font_positioning::{
    read_cursive_pos, read_mark_base_pos, read_mark_lig_pos, read_pair_pos, read_single_pos,
};
use layout_face::positioning::{PositioningLookup, PositioningSubtables};
use layout_tables::cursive::CursivePos;
use layout_tables::mark::{MarkBasePos, MarkLigPos};
use layout_tables::pair::PairPos;
use layout_tables::single_pos::SinglePos;
use std::alloc::Global;

/// The lookup type of extensions.
const EXTENSION: u16 = 9;

/// Single adjustments.
#[derive(Clone, Copy)]
pub struct SingleReader;

impl SubtableReader for SingleReader {
    type Subtable = SinglePos;

    ghost subtable_at = { λ _. single_pos_at };

    fn read_subtable(
        &self,
        alloc: Global,
        table: &[u8],
        at: usize,
        room: &mut Room,
    ) -> Result<Option<SinglePos>, TableFault> {
        read_single_pos(alloc, table, at, room)
    }
}

/// Pair adjustments.
#[derive(Clone, Copy)]
pub struct PairReader;

impl SubtableReader for PairReader {
    type Subtable = PairPos;

    ghost subtable_at = { λ _. pair_pos_at };

    fn read_subtable(
        &self,
        alloc: Global,
        table: &[u8],
        at: usize,
        room: &mut Room,
    ) -> Result<Option<PairPos>, TableFault> {
        read_pair_pos(alloc, table, at, room)
    }
}

/// Cursive attachments.
#[derive(Clone, Copy)]
pub struct CursiveReader;

impl SubtableReader for CursiveReader {
    type Subtable = CursivePos;

    ghost subtable_at = { λ _. cursive_pos_at };

    fn read_subtable(
        &self,
        alloc: Global,
        table: &[u8],
        at: usize,
        room: &mut Room,
    ) -> Result<Option<CursivePos>, TableFault> {
        read_cursive_pos(alloc, table, at, room)
    }
}

/// Attachments of marks to bases and to marks.
#[derive(Clone, Copy)]
pub struct MarkBaseReader;

impl SubtableReader for MarkBaseReader {
    type Subtable = MarkBasePos;

    ghost subtable_at = { λ _. mark_base_pos_at };

    fn read_subtable(
        &self,
        alloc: Global,
        table: &[u8],
        at: usize,
        room: &mut Room,
    ) -> Result<Option<MarkBasePos>, TableFault> {
        read_mark_base_pos(alloc, table, at, room)
    }
}

/// Attachments of marks to ligatures.
#[derive(Clone, Copy)]
pub struct MarkLigatureReader;

impl SubtableReader for MarkLigatureReader {
    type Subtable = MarkLigPos;

    ghost subtable_at = { λ _. mark_lig_pos_at };

    fn read_subtable(
        &self,
        alloc: Global,
        table: &[u8],
        at: usize,
        room: &mut Room,
    ) -> Result<Option<MarkLigPos>, TableFault> {
        read_mark_lig_pos(alloc, table, at, room)
    }
}

/// Reads the subtables of a lookup of a type, in a table of n lookups.
fn read_positions(
    alloc: Global,
    lookup_count: usize,
    table: &[u8],
    offsets: &[SubtableOffset],
    room: &mut Room,
) -> Result<PositioningSubtables, TableFault>
    ensures ok { IfOk result (λ s. positions_of lookup_count (type_of offsets.now) room.old.left table.now offsets.now
        ≡ Ok (s, room.new.left)) }
    ensures refused { IfErr result (λ e. e ≢ TableFault.OutOfMemory
        → positions_of lookup_count (type_of offsets.now) room.old.left table.now offsets.now ≡ Err e) }
{
    match type_of(offsets) {
        1 => Ok(PositioningSubtables::Single(read_subtables(
            &SingleReader,
            alloc,
            table,
            offsets,
            room,
        )?)),
        2 => Ok(PositioningSubtables::Pair(read_subtables(
            &PairReader,
            alloc,
            table,
            offsets,
            room,
        )?)),
        3 => Ok(PositioningSubtables::Cursive(read_subtables(
            &CursiveReader,
            alloc,
            table,
            offsets,
            room,
        )?)),
        4 => Ok(PositioningSubtables::MarkToBase(read_subtables(
            &MarkBaseReader,
            alloc,
            table,
            offsets,
            room,
        )?)),
        5 => Ok(PositioningSubtables::MarkToLigature(read_subtables(
            &MarkLigatureReader,
            alloc,
            table,
            offsets,
            room,
        )?)),
        6 => Ok(PositioningSubtables::MarkToMark(read_subtables(
            &MarkBaseReader,
            alloc,
            table,
            offsets,
            room,
        )?)),
        7 => {
            let reader = ContextReader {
                chained: false,
                lookup_count,
            };
            Ok(PositioningSubtables::Context(read_subtables(&reader, alloc, table, offsets, room)?))
        }
        8 => {
            let reader = ContextReader {
                chained: true,
                lookup_count,
            };
            Ok(PositioningSubtables::ChainContext(read_subtables(
                &reader, alloc, table, offsets, room,
            )?))
        }
        _ => Ok(PositioningSubtables::Single(no_subtables(alloc)?)),
    }
}

/// Lookups of a table of n lookups, in a font of n mark glyph sets.
#[derive(Clone, Copy)]
pub struct PositioningLookupReader {
    pub lookup_count: usize,
    pub set_count: usize,
}

impl TableReader for PositioningLookupReader {
    type Value = PositioningLookup;

    ghost value_at = { λ r. positioning_lookup_at r.lookup_count r.set_count };

    ghost null_value = { λ _. no_positioning };

    fn read(
        &self,
        alloc: Global,
        bytes: &[u8],
        at: usize,
        room: &mut Room,
    ) -> Result<PositioningLookup, TableFault> {
        let head = read_lookup_head(alloc, EXTENSION, self.set_count, bytes, at, room)?;
        let subtables = read_positions(
            alloc,
            self.lookup_count,
            bytes,
            head.subtables.as_slice(),
            room,
        )?;
        Ok(PositioningLookup::parse(head.flags, head.set, subtables))
    }

    fn null(&self, alloc: Global) -> Result<PositioningLookup, TableFault> {
        let subtables = PositioningSubtables::Single(no_subtables(alloc)?);
        Ok(PositioningLookup::parse(0, None, subtables))
    }
}
