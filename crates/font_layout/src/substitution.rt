//! Lookups of GSUB (OpenType, GSUB lookup types 1 to 8).
ghost use Rattle.std.specs.Prelude.{◌≡◌, ◌≢◌, IfOk, IfErr, Ok, Err};
ghost use Rattle.font_bytes.specs.declared.fault.TableFault.{TableFault};
ghost use Rattle.font_substitution.specs.Ligature.{ligature_subst_at};
ghost use Rattle.font_substitution.specs.Reverse.{reverse_subst_at};
ghost use Rattle.font_substitution.specs.Sequence.{alternate_subst_at, multiple_subst_at};
ghost use Rattle.font_substitution.specs.Single.{single_subst_at};
ghost use Rattle.font_lists.specs.Lookups.{type_of};
ghost use Rattle.font_layout.specs.Substitution.{no_substitution, substitution_lookup_at, substitutions_of};

use crate::contexts::ContextReader;
use font_bytes::fault::TableFault;
use font_bytes::room::Room;
use font_common::offsets::TableReader;
use font_lists::lookups::{SubtableOffset, read_lookup_head, type_of};
use font_lists::subtables::{SubtableReader, no_subtables, read_subtables};
use font_substitution::{
    read_alternate_subst, read_ligature_subst, read_multiple_subst, read_reverse_subst,
    read_single_subst,
};
use layout_face::substitution::{SubstLookup, SubstitutionSubtables};
use layout_tables::ligature::LigatureSubst;
use layout_tables::reverse::ReverseChainSubst;
use layout_tables::sequence::{AlternateSubst, MultipleSubst};
use layout_tables::single_subst::SingleSubst;
use std::alloc::Global;

/// The lookup type of extensions.
const EXTENSION: u16 = 7;

/// Single substitutions.
#[derive(Clone, Copy)]
pub struct SingleReader;

impl SubtableReader for SingleReader {
    type Subtable = SingleSubst;

    ghost subtable_at = { λ _. single_subst_at };

    fn read_subtable(
        &self,
        alloc: Global,
        table: &[u8],
        at: usize,
        room: &mut Room,
    ) -> Result<Option<SingleSubst>, TableFault> {
        read_single_subst(alloc, table, at, room)
    }
}

/// Multiple substitutions.
#[derive(Clone, Copy)]
pub struct MultipleReader;

impl SubtableReader for MultipleReader {
    type Subtable = MultipleSubst;

    ghost subtable_at = { λ _. multiple_subst_at };

    fn read_subtable(
        &self,
        alloc: Global,
        table: &[u8],
        at: usize,
        room: &mut Room,
    ) -> Result<Option<MultipleSubst>, TableFault> {
        read_multiple_subst(alloc, table, at, room)
    }
}

/// Alternate substitutions.
#[derive(Clone, Copy)]
pub struct AlternateReader;

impl SubtableReader for AlternateReader {
    type Subtable = AlternateSubst;

    ghost subtable_at = { λ _. alternate_subst_at };

    fn read_subtable(
        &self,
        alloc: Global,
        table: &[u8],
        at: usize,
        room: &mut Room,
    ) -> Result<Option<AlternateSubst>, TableFault> {
        read_alternate_subst(alloc, table, at, room)
    }
}

/// Ligature substitutions.
#[derive(Clone, Copy)]
pub struct LigatureReader;

impl SubtableReader for LigatureReader {
    type Subtable = LigatureSubst;

    ghost subtable_at = { λ _. ligature_subst_at };

    fn read_subtable(
        &self,
        alloc: Global,
        table: &[u8],
        at: usize,
        room: &mut Room,
    ) -> Result<Option<LigatureSubst>, TableFault> {
        read_ligature_subst(alloc, table, at, room)
    }
}

/// Reverse chaining substitutions.
#[derive(Clone, Copy)]
pub struct ReverseReader;

impl SubtableReader for ReverseReader {
    type Subtable = ReverseChainSubst;

    ghost subtable_at = { λ _. reverse_subst_at };

    fn read_subtable(
        &self,
        alloc: Global,
        table: &[u8],
        at: usize,
        room: &mut Room,
    ) -> Result<Option<ReverseChainSubst>, TableFault> {
        read_reverse_subst(alloc, table, at, room)
    }
}

/// Reads the subtables of a lookup of a type, in a table of n lookups.
fn read_substitutions(
    alloc: Global,
    lookup_count: usize,
    table: &[u8],
    offsets: &[SubtableOffset],
    room: &mut Room,
) -> Result<SubstitutionSubtables, TableFault>
    ensures ok { IfOk result (λ s. substitutions_of lookup_count (type_of offsets.now) room.old.left table.now offsets.now
        ≡ Ok (s, room.new.left)) }
    ensures refused { IfErr result (λ e. e ≢ TableFault.OutOfMemory
        → substitutions_of lookup_count (type_of offsets.now) room.old.left table.now offsets.now ≡ Err e) }
{
    match type_of(offsets) {
        1 => Ok(SubstitutionSubtables::Single(read_subtables(
            &SingleReader,
            alloc,
            table,
            offsets,
            room,
        )?)),
        2 => Ok(SubstitutionSubtables::Multiple(read_subtables(
            &MultipleReader,
            alloc,
            table,
            offsets,
            room,
        )?)),
        3 => Ok(SubstitutionSubtables::Alternate(read_subtables(
            &AlternateReader,
            alloc,
            table,
            offsets,
            room,
        )?)),
        4 => Ok(SubstitutionSubtables::Ligature(read_subtables(
            &LigatureReader,
            alloc,
            table,
            offsets,
            room,
        )?)),
        5 => {
            let reader = ContextReader {
                chained: false,
                lookup_count,
            };
            Ok(SubstitutionSubtables::Context(read_subtables(
                &reader, alloc, table, offsets, room,
            )?))
        }
        6 => {
            let reader = ContextReader {
                chained: true,
                lookup_count,
            };
            Ok(SubstitutionSubtables::ChainContext(read_subtables(
                &reader, alloc, table, offsets, room,
            )?))
        }
        8 => Ok(SubstitutionSubtables::ReverseChainSingle(read_subtables(
            &ReverseReader,
            alloc,
            table,
            offsets,
            room,
        )?)),
        _ => Ok(SubstitutionSubtables::Single(no_subtables(alloc)?)),
    }
}

/// Lookups of a table of n lookups, in a font of n mark glyph sets.
#[derive(Clone, Copy)]
pub struct SubstLookupReader {
    pub lookup_count: usize,
    pub set_count: usize,
}

impl TableReader for SubstLookupReader {
    type Value = SubstLookup;

    ghost value_at = { λ r. substitution_lookup_at r.lookup_count r.set_count };

    ghost null_value = { λ _. no_substitution };

    fn read(
        &self,
        alloc: Global,
        bytes: &[u8],
        at: usize,
        room: &mut Room,
    ) -> Result<SubstLookup, TableFault> {
        let head = read_lookup_head(alloc, EXTENSION, self.set_count, bytes, at, room)?;
        let subtables = read_substitutions(
            alloc,
            self.lookup_count,
            bytes,
            head.subtables.as_slice(),
            room,
        )?;
        Ok(SubstLookup::parse(head.flags, head.set, subtables))
    }

    fn null(&self, alloc: Global) -> Result<SubstLookup, TableFault> {
        let subtables = SubstitutionSubtables::Single(no_subtables(alloc)?);
        Ok(SubstLookup::parse(0, None, subtables))
    }
}
