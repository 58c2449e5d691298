//! Rows of the glyphs of a coverage, each read from the record with its coverage index.
ghost use Rattle.std.specs.Prelude.{◌≡◌, ◌≢◌, ◌≤◌, ◌<◌, ◌+◌, ◌*◌, ℕ, List, None, Option, Result, IfOk, IfErr, IfSome, Ok, Err, true, length, nat_le, if◌then◌else◌};
ghost use Rattle.font_bytes.specs.declared.fault.TableFault.{TableFault};
ghost use Rattle.buffer_rows.specs.Keys.{numbers_rise};
ghost use Rattle.font_records.specs.Covered.{rows_in, rows_at};

use crate::array::push_some;
use font_bytes::fault::TableFault;
use font_bytes::room::Room;
use font_common::read_glyphs_in_room;
use std::alloc::Global;

/// How the row of a glyph is read. Offsets that its record has count from a base.
pub trait RowReader {
    type Row: Drop;

    ghost glyph_of: { Self.Row → ℕ };

    ghost width_of: { Self → ℕ };

    ghost base_of: { Self → ℕ };

    ghost row_at: { Self → List ℕ → ℕ → ℕ → ℕ → Result (Option Self.Row × ℕ) TableFault };

    /// How many bytes a record has.
    fn width(&self) -> usize
        ensures { result ≡ width_of self.now };

    /// Reads the row of a glyph from the record at an offset, none where it has none; what it holds takes room.
    fn read_row(
        &self,
        alloc: Global,
        table: &[u8],
        at: usize,
        glyph: u16,
        room: &mut Room,
    ) -> Result<Option<Self::Row>, TableFault>
        requires within { at + width_of self.now ≤ length table.now }
        requires base { base_of self.now ≤ length table.now }
        ensures ok { IfOk result (λ v. row_at self.now table.now room.old.left at glyph ≡ Ok (v, room.new.left)) }
        ensures glyph { IfOk result (λ v. IfSome v (λ r. glyph_of r ≡ glyph)) }
        ensures refused { IfErr result (λ e. e ≢ TableFault.OutOfMemory
            → row_at self.now table.now room.old.left at glyph ≡ Err e) };
}

/// Reads the rows of the glyphs of a coverage, whose offset counts from the start of a table, by an array of records. A
/// record takes a row of room.
pub fn read_covered_rows<R: RowReader>(
    reader: &R,
    alloc: Global,
    table: &[u8],
    start: usize,
    coverage: u16,
    at: usize,
    count: usize,
    room: &mut Room,
) -> Result<Vec<R::Row>, TableFault>
    requires start_within { start ≤ length table.now }
    requires within { at + R.width_of reader.now * count ≤ length table.now }
    requires base { R.base_of reader.now ≤ length table.now }
    ensures ok { IfOk result (λ v. rows_at (R.row_at reader.now table.now) table.now start coverage
        (R.width_of reader.now) at count room.old.left ≡ Ok (v.items, room.new.left)) }
    ensures rising { IfOk result (λ v. numbers_rise R.glyph_of v.items ≡ true) }
    ensures refused { IfErr result (λ e. e ≢ TableFault.OutOfMemory → rows_at (R.row_at reader.now table.now)
        table.now start coverage (R.width_of reader.now) at count room.old.left ≡ Err e) }
{
    room.take(count)?;
    let glyphs = read_glyphs_in_room(alloc, table, start, u32::from(coverage), room)?;
    read_rows_of_glyphs(reader, alloc, table, &glyphs, at, count, room)
}

/// Reads the rows of glyphs by an array of records.
pub fn read_rows_of_glyphs<R: RowReader>(
    reader: &R,
    alloc: Global,
    table: &[u8],
    glyphs: &[u16],
    at: usize,
    count: usize,
    room: &mut Room,
) -> Result<Vec<R::Row>, TableFault>
    requires within { at + R.width_of reader.now * count ≤ length table.now }
    requires base { R.base_of reader.now ≤ length table.now }
    ensures ok { IfOk result (λ v. rows_in (R.row_at reader.now table.now) (R.width_of reader.now) at count
        glyphs.now room.old.left ≡ Ok (v.items, room.new.left)) }
    ensures rising { IfOk result (λ v. numbers_rise R.glyph_of v.items ≡ true) }
    ensures refused { IfErr result (λ e. e ≢ TableFault.OutOfMemory → rows_in (R.row_at reader.now table.now)
        (R.width_of reader.now) at count glyphs.now room.old.left ≡ Err e) }
{
    let fewer = count.min(glyphs.len());
    let mut rows = Vec::with_capacity(alloc, fewer)?;
    let width = reader.width();
    let mut at = at;
    let mut least = 0;
    for index in 0..fewer {
        let glyph = glyphs[index];
        let row = read_first(reader, alloc, table, at, glyph, least, room)?;
        push_some(&mut rows, row)?;
        least = least.max(u32::from(glyph) + 1);
        at += width;
    }
    Ok(rows)
}

/// Reads the row of a glyph, none of one below the least, which is a repeated one.
fn read_first<R: RowReader>(
    reader: &R,
    alloc: Global,
    table: &[u8],
    at: usize,
    glyph: u16,
    least: u32,
    room: &mut Room,
) -> Result<Option<R::Row>, TableFault>
    requires within { at + R.width_of reader.now ≤ length table.now }
    requires base { R.base_of reader.now ≤ length table.now }
    ensures ok { IfOk result (λ v. (if nat_le least glyph then R.row_at reader.now table.now room.old.left at glyph
        else Ok (None, room.old.left)) ≡ Ok (v, room.new.left)) }
    ensures glyph { IfOk result (λ v. IfSome v (λ r. (R.glyph_of r ≡ glyph) × (least ≤ glyph))) }
    ensures refused { IfErr result (λ e. e ≢ TableFault.OutOfMemory → (if nat_le least glyph
        then R.row_at reader.now table.now room.old.left at glyph else Ok (None, room.old.left)) ≡ Err e) }
{
    if u32::from(glyph) < least {
        return Ok(None);
    }
    reader.read_row(alloc, table, at, glyph, room)
}
