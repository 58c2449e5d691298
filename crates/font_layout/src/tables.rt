//! GSUB and GPOS as tables (OpenType, chapter 2).
ghost use Rattle.std.specs.Prelude.{◌≡◌, ◌≢◌, IfOk, IfErr, Ok, Err};
ghost use Rattle.font_bytes.specs.declared.fault.TableFault.{TableFault};
ghost use Rattle.font_layout.specs.Layout.{gpos_at, gsub_at, positions_at, substitutions_at};

use crate::positioning::PositioningLookupReader;
use crate::substitution::SubstLookupReader;
use font_bytes::fault::TableFault;
use font_bytes::room::Room;
use font_bytes::words::need;
use font_common::offsets::read_list;
use font_lists::header::{LayoutHeader, layout_header};
use font_lists::lists::read_lists;
use layout_common::array::Array;
use layout_face::positioning::{PositioningLookup, PositioningTable};
use layout_face::substitution::{SubstLookup, SubstitutionTable};
use std::alloc::Global;

/// Reads the lookups of GSUB.
fn read_substitutions(
    alloc: Global,
    set_count: usize,
    table: &[u8],
    header: LayoutHeader,
    room: &mut Room,
) -> Result<Array<SubstLookup>, TableFault>
    ensures ok { IfOk result (λ v. substitutions_at set_count room.old.left table.now header ≡ Ok (v, room.new.left)) }
    ensures refused { IfErr result (λ e. e ≢ TableFault.OutOfMemory
        → substitutions_at set_count room.old.left table.now header ≡ Err e) }
{
    if header.lookups == 0 {
        return Ok(Array::new(Vec::new(alloc)));
    }
    let reader = SubstLookupReader {
        lookup_count: header.lookup_count,
        set_count,
    };
    let at = header.lookups;
    need(table, at, 2)?;
    let lookups = read_list(&reader, alloc, table, at, at, room)?;
    Ok(Array::new(lookups))
}

/// Reads GSUB of a font with n mark glyph sets.
pub fn read_gsub(
    alloc: Global,
    set_count: usize,
    table: &[u8],
    room: &mut Room,
) -> Result<SubstitutionTable, TableFault>
    ensures ok { IfOk result (λ t. gsub_at set_count room.old.left table.now ≡ Ok (t, room.new.left)) }
    ensures refused { IfErr result (λ e. e ≢ TableFault.OutOfMemory → gsub_at set_count room.old.left table.now ≡ Err e) }
{
    let header = layout_header(table)?;
    let inner = read_lists(alloc, table, header, room)?;
    match read_substitutions(alloc, set_count, table, header, room) {
        Ok(lookups) => Ok(SubstitutionTable::new(inner, lookups)),
        Err(fault) => {
            drop(inner);
            Err(fault)
        }
    }
}

/// Reads the lookups of GPOS.
fn read_positions(
    alloc: Global,
    set_count: usize,
    table: &[u8],
    header: LayoutHeader,
    room: &mut Room,
) -> Result<Array<PositioningLookup>, TableFault>
    ensures ok { IfOk result (λ v. positions_at set_count room.old.left table.now header ≡ Ok (v, room.new.left)) }
    ensures refused { IfErr result (λ e. e ≢ TableFault.OutOfMemory
        → positions_at set_count room.old.left table.now header ≡ Err e) }
{
    if header.lookups == 0 {
        return Ok(Array::new(Vec::new(alloc)));
    }
    let reader = PositioningLookupReader {
        lookup_count: header.lookup_count,
        set_count,
    };
    let at = header.lookups;
    need(table, at, 2)?;
    let lookups = read_list(&reader, alloc, table, at, at, room)?;
    Ok(Array::new(lookups))
}

/// Reads GPOS of a font with n mark glyph sets.
pub fn read_gpos(
    alloc: Global,
    set_count: usize,
    table: &[u8],
    room: &mut Room,
) -> Result<PositioningTable, TableFault>
    ensures ok { IfOk result (λ t. gpos_at set_count room.old.left table.now ≡ Ok (t, room.new.left)) }
    ensures refused { IfErr result (λ e. e ≢ TableFault.OutOfMemory → gpos_at set_count room.old.left table.now ≡ Err e) }
{
    let header = layout_header(table)?;
    let inner = read_lists(alloc, table, header, room)?;
    match read_positions(alloc, set_count, table, header, room) {
        Ok(lookups) => Ok(PositioningTable::new(inner, lookups)),
        Err(fault) => {
            drop(inner);
            Err(fault)
        }
    }
}
