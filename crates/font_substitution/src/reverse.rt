//! Reverse chaining single substitution subtables (OpenType, GSUB lookup type 8).
ghost use Rattle.std.specs.Prelude.{◌≡◌, ◌≢◌, ◌≤◌, ◌+◌, IfOk, IfErr, Some, None, Ok, Err, length, true};
ghost use Rattle.font_substitution.specs.Reverse.{reverse_rows, reverse_chain, reverse_subst_at};

use crate::single::SubstituteRows;
use buffer_rows::SortedRows;
use font_bytes::fault::TableFault;
use font_bytes::room::Room;
use font_bytes::words::{need, word};
use font_common::{CoverageReader, read_list};
use font_records::read_covered_rows;
use layout_common::array::Array;
use layout_common::glyph_row::GlyphRow;
use layout_tables::reverse::ReverseChainSubst;
use std::alloc::Global;

/// Reads the rows, whose count is at an offset.
fn read_reverse_rows(
    alloc: Global,
    table: &[u8],
    start: usize,
    at: usize,
    room: &mut Room,
) -> Result<SortedRows<GlyphRow<u16>>, TableFault>
    requires { start + 4 ≤ length table.now }
    ensures ok { IfOk result (λ v. reverse_rows room.old.left table.now start at ≡ Ok (v, room.new.left)) }
    ensures refused { IfErr result (λ e. e ≢ TableFault.OutOfMemory
        → reverse_rows room.old.left table.now start at ≡ Err e) }
{
    need(table, at, 2)?;
    let count = usize::from(word(table, at));
    need(table, at + 2, 2 * count)?;
    let coverage = word(table, start + 2);
    let rows = read_covered_rows(
        &SubstituteRows,
        alloc,
        table,
        start,
        coverage,
        at + 2,
        count,
        room,
    )?;
    Ok(SortedRows::new(rows))
}

/// Reads format 1.
fn read_chain(
    alloc: Global,
    table: &[u8],
    at: usize,
    room: &mut Room,
) -> Result<ReverseChainSubst, TableFault>
    ensures ok { IfOk result (λ v. reverse_chain room.old.left table.now at ≡ Ok (v, room.new.left)) }
    ensures refused { IfErr result (λ e. e ≢ TableFault.OutOfMemory
        → reverse_chain room.old.left table.now at ≡ Err e) }
{
    need(table, at, 6)?;
    let backtrack = read_list(&CoverageReader, alloc, table, at, at + 4, room)?;
    let ahead_at = at + 6 + 2 * usize::from(word(table, at + 4));
    let lookahead = read_list(&CoverageReader, alloc, table, at, ahead_at, room)?;
    let rows_at = ahead_at + 2 + 2 * usize::from(word(table, ahead_at));
    let rows = read_reverse_rows(alloc, table, at, rows_at, room)?;
    Ok(ReverseChainSubst {
        backtrack: Array::new(backtrack),
        lookahead: Array::new(lookahead),
        rows,
    })
}

/// Reads the reverse chaining subtable at an offset, none where its format is unknown.
pub fn read_reverse_subst(
    alloc: Global,
    table: &[u8],
    at: usize,
    room: &mut Room,
) -> Result<Option<ReverseChainSubst>, TableFault>
    ensures ok { IfOk result (λ v. reverse_subst_at room.old.left table.now at ≡ Ok (v, room.new.left)) }
    ensures refused { IfErr result (λ e. e ≢ TableFault.OutOfMemory
        → reverse_subst_at room.old.left table.now at ≡ Err e) }
{
    need(table, at, 2)?;
    if word(table, at) != 1 {
        return Ok(None);
    }
    let subtable = read_chain(alloc, table, at, room)?;
    Ok(Some(subtable))
}
