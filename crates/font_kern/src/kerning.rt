//! What a subtable of the table `kern` does in a text of one direction.
ghost use Rattle.std.specs.Prelude.{◌≡◌, ◌≢◌, ◌≤◌, IfOk, IfErr, Ok, Err};
ghost use Rattle.font_kern.specs.Kerning.{pair_kerning, pair_kerning_at, kerning_at};

use crate::classes::read_classes;
use crate::pairs::{firsts_of, read_pairs, rows_of_pairs};
use crate::subtables::Subtable;
use buffer_rows::SortedRows;
use font_bytes::fault::TableFault;
use font_bytes::room::Room;
use layout_common::coverage::Coverage;
use layout_tables::pair::{GlyphPairs, PairPos, PairRow};
use layout_tables::pair_rows::PairRows;
use std::alloc::{AllocError, Global};

/// The glyphs that come first in pairs, and the pairs with what is added to their glyphs.
#[derive(Debug, Drop)]
pub struct Kerning {
    pub firsts: Coverage,
    pub pairs: PairPos,
}

fn pair_kerning(alloc: Global, rows: SortedRows<PairRow>) -> Result<Kerning, AllocError>
    ensures { IfOk result (λ k. k ≡ pair_kerning rows) }
{
    let firsts = Coverage::new(alloc, firsts_of(alloc, rows.as_slice())?)?;
    let rows = PairRows::new(alloc, rows)?;
    Ok(Kerning {
        firsts,
        pairs: PairPos::Glyphs(GlyphPairs { rows }),
    })
}

/// Reads the pairs of a subtable of format 0.
fn read_pair_kerning(
    alloc: Global,
    is_backward: bool,
    table: &[u8],
    at: usize,
    room: &mut Room,
) -> Result<Kerning, TableFault>
    ensures ok { IfOk result (λ k.
        pair_kerning_at is_backward room.old.left table.now at ≡ Ok (k, room.new.left)) }
    ensures refused { IfErr result (λ e. e ≢ TableFault.OutOfMemory
        → pair_kerning_at is_backward room.old.left table.now at ≡ Err e) }
{
    let pairs = read_pairs(alloc, is_backward, table, at, room)?;
    let rows = rows_of_pairs(alloc, pairs)?;
    Ok(pair_kerning(alloc, rows)?)
}

/// Reads what a subtable does in a text of one direction.
pub fn read_kerning(
    alloc: Global,
    is_backward: bool,
    table: &[u8],
    subtable: Subtable,
    room: &mut Room,
) -> Result<Kerning, TableFault>
    ensures ok { IfOk result (λ k.
        kerning_at is_backward room.old.left table.now subtable ≡ Ok (k, room.new.left)) }
    ensures refused { IfErr result (λ e. e ≢ TableFault.OutOfMemory
        → kerning_at is_backward room.old.left table.now subtable ≡ Err e) }
{
    if subtable.by_classes {
        let start = subtable.body.saturating_sub(subtable.header);
        read_classes(alloc, is_backward, table, start, subtable.body, room)
    } else {
        read_pair_kerning(alloc, is_backward, table, subtable.body, room)
    }
}
