//! Anchors (OpenType, GPOS, shared tables: anchor tables).
ghost use Rattle.std.specs.Prelude.{◌≡◌, ◌≢◌, ◌≤◌, ◌<◌, ◌+◌, ◌*◌, IfOk, IfErr, Ok, Err, length};
ghost use Rattle.font_positioning.specs.Anchors.{anchor_table, anchor_at, anchor_item, anchor_list};

use font_bytes::fault::TableFault;
use font_bytes::room::Room;
use font_bytes::words::{need, signed_word, word};
use font_records::{RecordReader, read_array};
use layout_tables::value::Anchor;
use std::alloc::Global;

/// Reads the anchor table at an offset, none where its format is unknown.
fn read_anchor_table(table: &[u8], at: usize) -> Result<Option<Anchor>, TableFault>
    ensures { result ≡ anchor_table table.now at }
{
    need(table, at, 6)?;
    let format = word(table, at);
    if format == 1 || format == 2 || format == 3 {
        return Ok(Some(Anchor {
            x: signed_word(table, at + 2),
            y: signed_word(table, at + 4),
        }));
    }
    Ok(None)
}

/// Reads the anchor whose offset from a base stands at an offset, none where it is null.
pub(crate) fn read_anchor(
    base: usize,
    table: &[u8],
    at: usize,
) -> Result<Option<Anchor>, TableFault>
    requires within { at + 2 ≤ length table.now }
    requires base { base ≤ length table.now }
    ensures { result ≡ anchor_at base table.now at }
{
    let offset = word(table, at);
    if offset == 0 {
        return Ok(None);
    }
    read_anchor_table(table, base + usize::from(offset))
}

/// Reads anchors whose records are their offsets from a base.
#[derive(Clone, Copy)]
struct Anchors {
    base: usize,
}

impl RecordReader for Anchors {
    type Item = Option<Anchor>;

    ghost width_of = { λ _. 2 };

    ghost base_of = { λ s. s.base };

    ghost item_at = { λ s. anchor_item s.base };

    fn width(&self) -> usize {
        2
    }

    fn read_item(
        &self,
        _alloc: Global,
        table: &[u8],
        at: usize,
        _room: &mut Room,
    ) -> Result<Option<Option<Anchor>>, TableFault> {
        let anchor = read_anchor(self.base, table, at)?;
        Ok(Some(anchor))
    }
}

/// Reads n anchors, whose offsets from a base stand one after another. An anchor takes a row of room.
pub(crate) fn read_anchors(
    alloc: Global,
    base: usize,
    table: &[u8],
    at: usize,
    count: usize,
    room: &mut Room,
) -> Result<Vec<Option<Anchor>>, TableFault>
    requires within { at + 2 * count ≤ length table.now }
    requires base { base ≤ length table.now }
    ensures ok { IfOk result (λ v. anchor_list base table.now at count room.old.left ≡ Ok (v.items, room.new.left)) }
    ensures refused { IfErr result (λ e. e ≢ TableFault.OutOfMemory
        → anchor_list base table.now at count room.old.left ≡ Err e) }
{
    read_array(&Anchors { base }, alloc, table, at, count, room)
}
