//! Reads the glyphs of characters.
ghost use Rattle.std.specs.Prelude.{◌≡◌, ◌≢◌, IfOk, IfErr, Ok, Err};
ghost use Rattle.font_cmap.specs.Characters.{characters_at, characters_of, characters_chosen};

use crate::encoded::{encoded_rows, paged};
use crate::encodings::{Encoding, chosen_subtable};
use crate::subtables::{ranges_at, read_range_rows};
use buffer_rows::PagedRows;
use font_bytes::fault::TableFault;
use font_bytes::room::Room;
use layout_face::parts::CharacterRow;
use std::alloc::Global;

/// Reads the characters of a subtable of an encoding.
#[tactic(auto, unfolding(crate::specs::Characters::characters_of), using(crate::proofs::Rising::ranges_rise))]
fn read_subtable(
    alloc: Global,
    table: &[u8],
    encoding: Encoding,
    at: usize,
    room: &mut Room,
) -> Result<PagedRows<CharacterRow>, TableFault>
    ensures ok { IfOk result (λ p. characters_of room.old.left table.now encoding at ≡ Ok (p, room.new.left)) }
    ensures refused { IfErr result (λ e. e ≢ TableFault.OutOfMemory
        → characters_of room.old.left table.now encoding at ≡ Err e) }
{
    let ranges = ranges_at(table, at)?;
    let rows = read_range_rows(alloc, table, ranges, room)?;
    let rows = paged(alloc, rows)?;
    encoded_rows(alloc, table, encoding, ranges, rows)
}

/// Reads the characters of the table cmap, by the subtable that HarfBuzz chooses: rising characters, each with its glyph,
/// which isn't 0. Each character that a range of the subtable has takes a row of room.
#[tactic(auto, unfolding(crate::specs::Characters::characters_at))]
pub fn read_characters(
    alloc: Global,
    table: &[u8],
    room: &mut Room,
) -> Result<PagedRows<CharacterRow>, TableFault>
    ensures ok { IfOk result (λ p. characters_at room.old.left table.now ≡ Ok (p, room.new.left)) }
    ensures refused { IfErr result (λ e. e ≢ TableFault.OutOfMemory
        → characters_at room.old.left table.now ≡ Err e) }
{
    match chosen_subtable(table)? {
        Some((encoding, at)) => read_subtable(alloc, table, encoding, at, room),
        None => paged(alloc, Vec::new(alloc)),
    }
}
