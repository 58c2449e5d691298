//! Tables that are read by an offset, and arrays of offsets (Offset16).
ghost use Rattle.std.specs.Prelude.{◌≡◌, ◌≢◌, ◌+◌, ◌≤◌, ◌<◌, ◌*◌, ℕ, List, Result, [], IfOk, IfErr, Ok, Err, length};
ghost use Rattle.font_bytes.specs.declared.fault.TableFault.{TableFault};
ghost use Rattle.font_common.specs.Offsets.{list_at, tables_at, value_at_offset};
ghost use Rattle.font_common.specs.Coverage.{coverage_at};

use crate::coverage::read_coverage;
use font_bytes::fault::TableFault;
use font_bytes::room::Room;
use font_bytes::words::{need, word};
use layout_common::coverage::Coverage;
use std::alloc::Global;

/// Reads tables of one kind, each at an offset of some bytes. A reader may have fields that the tables depend on, as the
/// number of lookups.
pub trait TableReader {
    /// What a table is read into.
    type Value: Drop;

    ghost value_at: { Self → ℕ → List ℕ → ℕ → Result (Self.Value × ℕ) TableFault };

    // what a null offset leads to
    ghost null_value: { Self → Self.Value };

    /// Reads the table at an offset; what it holds takes room.
    fn read(
        &self,
        alloc: Global,
        bytes: &[u8],
        at: usize,
        room: &mut Room,
    ) -> Result<Self::Value, TableFault>
        ensures ok { IfOk result (λ v. value_at self.now room.old.left bytes.now at ≡ Ok (v, room.new.left)) }
        ensures refused { IfErr result (λ e. e ≢ TableFault.OutOfMemory
            → value_at self.now room.old.left bytes.now at ≡ Err e) };

    /// What a null offset leads to: an empty table.
    fn null(&self, alloc: Global) -> Result<Self::Value, TableFault>
        ensures ok { IfOk result (λ v. v ≡ null_value self.now) }
        ensures refused { IfErr result (λ e. e ≡ TableFault.OutOfMemory) };
}

/// Reads the table at an offset from a base, which may be null.
pub fn read_at_offset<T: TableReader>(
    reader: &T,
    alloc: Global,
    bytes: &[u8],
    base: usize,
    offset: u32,
    room: &mut Room,
) -> Result<T::Value, TableFault>
    requires { base ≤ length bytes.now }
    ensures ok { IfOk result (λ v. value_at_offset (T.null_value reader.now) (T.value_at reader.now)
        room.old.left bytes.now base offset ≡ Ok (v, room.new.left)) }
    ensures refused { IfErr result (λ e. e ≢ TableFault.OutOfMemory
        → value_at_offset (T.null_value reader.now) (T.value_at reader.now) room.old.left bytes.now base offset ≡ Err e) }
{
    if offset == 0 {
        return reader.null(alloc);
    }
    reader.read(alloc, bytes, base + offset as usize, room)
}

/// Reads the tables of an array of n offsets, which count from a base. An offset takes a row of room.
#[tactic(auto, using(font_bytes::proofs::Recorded::records_more, font_bytes::proofs::Recorded::records_end))]
pub fn read_tables<T: TableReader>(
    reader: &T,
    alloc: Global,
    bytes: &[u8],
    base: usize,
    at: usize,
    count: usize,
    room: &mut Room,
) -> Result<Vec<T::Value>, TableFault>
    requires base_within { base ≤ length bytes.now }
    requires within { at + 2 * count ≤ length bytes.now }
    ensures ok { IfOk result (λ v. tables_at (T.null_value reader.now) (T.value_at reader.now) bytes.now base at count
        room.old.left ≡ Ok (v.items, room.new.left)) }
    ensures refused { IfErr result (λ e. e ≢ TableFault.OutOfMemory
        → tables_at (T.null_value reader.now) (T.value_at reader.now) bytes.now base at count room.old.left ≡ Err e) }
{
    room.take(count)?;
    let mut tables = Vec::with_capacity(alloc, count)?;
    for index in 0..count {
        let offset = u32::from(word(bytes, at + 2 * index));
        let table = read_at_offset(reader, alloc, bytes, base, offset, room)?;
        tables.push(table)?;
    }
    Ok(tables)
}

/// Reads the tables of a count and that many offsets (as the coverage tables of a backtrack sequence), which count from a base.
pub fn read_list<T: TableReader>(
    reader: &T,
    alloc: Global,
    bytes: &[u8],
    base: usize,
    at: usize,
    room: &mut Room,
) -> Result<Vec<T::Value>, TableFault>
    requires { base ≤ length bytes.now }
    ensures ok { IfOk result (λ v. list_at (T.null_value reader.now) (T.value_at reader.now) bytes.now base at
        room.old.left ≡ Ok (v.items, room.new.left)) }
    ensures refused { IfErr result (λ e. e ≢ TableFault.OutOfMemory
        → list_at (T.null_value reader.now) (T.value_at reader.now) bytes.now base at room.old.left ≡ Err e) }
{
    need(bytes, at, 2)?;
    let count = usize::from(word(bytes, at));
    need(bytes, at + 2, 2 * count)?;
    read_tables(reader, alloc, bytes, base, at + 2, count, room)
}

/// Coverage tables, of which a null offset has no glyph.
#[derive(Clone, Copy)]
pub struct CoverageReader;

impl TableReader for CoverageReader {
    type Value = Coverage;

    ghost value_at = { λ _. coverage_at };

    ghost null_value = { λ _. [] };

    fn read(
        &self,
        alloc: Global,
        bytes: &[u8],
        at: usize,
        room: &mut Room,
    ) -> Result<Coverage, TableFault> {
        read_coverage(alloc, bytes, at, room)
    }

    fn null(&self, alloc: Global) -> Result<Coverage, TableFault> {
        let coverage = Coverage::new(alloc, Vec::new(alloc))?;
        Ok(coverage)
    }
}
