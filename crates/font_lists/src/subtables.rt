//! The subtables of a lookup (OpenType, chapter 2, lookup table).
ghost use Rattle.std.specs.Prelude.{◌≡◌, ◌≢◌, ◌++◌, [], ℕ, List, Option, Result, IfOk, IfErr, OnOk, Ok, Err};
ghost use Rattle.std.specs.Option.{option_to_list};
ghost use Rattle.font_bytes.specs.declared.fault.TableFault.{TableFault};
ghost use Rattle.font_lists.specs.Lookups.{subtable_of_type, subtables_in, subtables_of_type};

use crate::lookups::{SubtableOffset, type_of};
use font_bytes::fault::TableFault;
use font_bytes::room::Room;
use layout_common::array::Array;
use layout_common::digested::{Covers, Digested};
use layout_common::subtables::Subtables;
use std::alloc::Global;

/// Reads subtables of one type.
pub trait SubtableReader {
    type Subtable: Covers + Drop;

    ghost subtable_at: { Self → ℕ → List ℕ → ℕ → Result (Option Self.Subtable × ℕ) TableFault };

    /// Reads the subtable at an offset, none of an unknown format; what it holds takes room.
    fn read_subtable(
        &self,
        alloc: Global,
        table: &[u8],
        at: usize,
        room: &mut Room,
    ) -> Result<Option<Self::Subtable>, TableFault>
        ensures ok { IfOk result (λ s. subtable_at self.now room.old.left table.now at ≡ Ok (s, room.new.left)) }
        ensures refused { IfErr result (λ e. e ≢ TableFault.OutOfMemory
            → subtable_at self.now room.old.left table.now at ≡ Err e) };
}

/// Reads the subtable at an offset, if it is of a type.
fn read_of_type<R: SubtableReader>(
    reader: &R,
    alloc: Global,
    table: &[u8],
    lookup_type: u16,
    offset: SubtableOffset,
    room: &mut Room,
) -> Result<Option<R::Subtable>, TableFault>
    ensures ok { IfOk result (λ s. subtable_of_type (R.subtable_at reader.now) table.now lookup_type room.old.left offset
        ≡ Ok (s, room.new.left)) }
    ensures refused { IfErr result (λ e. e ≢ TableFault.OutOfMemory
        → subtable_of_type (R.subtable_at reader.now) table.now lookup_type room.old.left offset ≡ Err e) }
{
    if offset.lookup_type != lookup_type {
        return Ok(None);
    }
    reader.read_subtable(alloc, table, offset.at, room)
}

/// Appends a subtable with the sets of the glyphs at which it can act, if there is one.
fn push_some<S: Covers + Drop>(
    subtables: &mut Vec<Digested<S>>,
    subtable: Option<S>,
) -> Result<(), TableFault>
    ensures ok { OnOk result (subtables.new.items ≡ subtables.old.items ++ option_to_list subtable) }
    ensures refused { IfErr result (λ e. e ≡ TableFault.OutOfMemory) }
{
    if let Some(subtable) = subtable {
        subtables.push(Digested::new(subtable))?;
    }
    Ok(())
}

/// Reads the subtables at offsets, in turn, that are of a type.
fn read_listed<R: SubtableReader>(
    reader: &R,
    alloc: Global,
    table: &[u8],
    lookup_type: u16,
    offsets: &[SubtableOffset],
    room: &mut Room,
) -> Result<Vec<Digested<R::Subtable>>, TableFault>
    ensures ok { IfOk result (λ v. subtables_of_type (R.subtable_at reader.now) room.old.left table.now lookup_type offsets.now
        ≡ Ok (v.items, room.new.left)) }
    ensures refused { IfErr result (λ e. e ≢ TableFault.OutOfMemory
        → subtables_of_type (R.subtable_at reader.now) room.old.left table.now lookup_type offsets.now ≡ Err e) }
{
    let mut subtables = Vec::new(alloc);
    for offset in offsets {
        let subtable = read_of_type(reader, alloc, table, lookup_type, *offset, room)?;
        push_some(&mut subtables, subtable)?;
    }
    Ok(subtables)
}

/// Reads the subtables of a lookup.
pub fn read_subtables<R: SubtableReader>(
    reader: &R,
    alloc: Global,
    table: &[u8],
    offsets: &[SubtableOffset],
    room: &mut Room,
) -> Result<Subtables<R::Subtable>, TableFault>
    ensures ok { IfOk result (λ v. subtables_in (R.subtable_at reader.now) room.old.left table.now offsets.now
        ≡ Ok (v, room.new.left)) }
    ensures refused { IfErr result (λ e. e ≢ TableFault.OutOfMemory
        → subtables_in (R.subtable_at reader.now) room.old.left table.now offsets.now ≡ Err e) }
{
    let subtables = read_listed(reader, alloc, table, type_of(offsets), offsets, room)?;
    let subtables = Subtables::new(alloc, Array::new(subtables))?;
    Ok(subtables)
}

/// No subtables.
pub fn no_subtables<S: Covers + Drop>(alloc: Global) -> Result<Subtables<S>, TableFault>
    ensures ok { IfOk result (λ v. v ≡ []) }
    ensures refused { IfErr result (λ e. e ≡ TableFault.OutOfMemory) }
{
    let subtables = Subtables::new(alloc, Array::new(Vec::new(alloc)))?;
    Ok(subtables)
}
