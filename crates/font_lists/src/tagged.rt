//! Tables that records name by tags (OpenType, chapter 2: script, language system and feature records).
ghost use Rattle.std.specs.Prelude.{◌≡◌, ◌≢◌, ◌≤◌, ◌+◌, ◌*◌, ℕ, List, Result, IfOk, IfErr, OnOk, Ok, Err, length, map};
ghost use Rattle.font_bytes.specs.declared.fault.TableFault.{TableFault};
ghost use Rattle.buffer_rows.specs.KeyOrder.{key_order};
ghost use Rattle.font_lists.specs.declared.tagged.TagRecord.{TagRecord};
ghost use Rattle.font_lists.specs.Tagged.{by_tag, table_offset, tag_record, tag_records, tagged_tables};

use buffer_common::tag::Tag;
use buffer_rows::{Keyed, SortedRows};
use font_bytes::fault::TableFault;
use font_bytes::room::Room;
use font_bytes::words::{long, word};
use font_common::rows::first_rows;
use std::alloc::Global;

/// A tag, and where the table stands that it names; 0 for a null offset.
#[derive(Clone, Copy, Drop)]
pub struct TagRecord {
    pub tag: Tag,
    pub at: usize,
}

impl Keyed for TagRecord {
    type Key = u32;

    ghost key_of = { λ r. r.tag.0 };

    fn key(&self) -> u32 {
        self.tag.0
    }
}

/// Where the table at an offset from a base stands, 0 for a null offset.
pub fn table_offset(table: &[u8], base: usize, offset: u32) -> usize
    requires { base ≤ length table.now }
    ensures { result ≡ table_offset base offset }
{
    if offset == 0 {
        0
    } else {
        base + offset as usize
    }
}

/// The record at an offset, whose offset counts from a base.
pub fn tag_record(table: &[u8], base: usize, at: usize) -> TagRecord
    requires base_within { base ≤ length table.now }
    requires within { at + 6 ≤ length table.now }
    ensures { result ≡ tag_record table.now base at }
{
    TagRecord {
        tag: Tag(long(table, at)),
        at: table_offset(table, base, u32::from(word(table, at + 4))),
    }
}

/// Reads an array of n records.
#[tactic(auto, using(font_bytes::proofs::Recorded::records_more, font_bytes::proofs::Recorded::records_end))]
pub fn read_tag_records(
    alloc: Global,
    table: &[u8],
    base: usize,
    at: usize,
    count: usize,
) -> Result<Vec<TagRecord>, TableFault>
    requires base_within { base ≤ length table.now }
    requires within { at + 6 * count ≤ length table.now }
    ensures ok { IfOk result (λ v. v.items ≡ tag_records table.now base at count) }
    ensures refused { IfErr result (λ e. e ≡ TableFault.OutOfMemory) }
{
    let mut tagged = Vec::with_capacity(alloc, count)?;
    for index in 0..count {
        tagged.push(tag_record(table, base, at + 6 * index))?;
    }
    Ok(tagged)
}

/// Sorts records by their tags; those of one tag keep their order.
fn sort_by_tag(tagged: &mut Vec<TagRecord>) -> Result<(), TableFault>
    ensures ok { OnOk result (tagged.new.items ≡ key_order (λ r. r.tag.0) tagged.old.items) }
    ensures refused { IfErr result (λ e. e ≡ TableFault.OutOfMemory) }
{
    tagged.sort_by_key(|r| r.tag.0)?;
    Ok(())
}

/// Reads an array of n records by rising tags, of one tag the first.
pub fn read_by_tag(
    alloc: Global,
    table: &[u8],
    base: usize,
    at: usize,
    count: usize,
) -> Result<SortedRows<TagRecord>, TableFault>
    requires base_within { base ≤ length table.now }
    requires within { at + 6 * count ≤ length table.now }
    ensures ok { IfOk result (λ v. v ≡ by_tag (tag_records table.now base at count)) }
    ensures refused { IfErr result (λ e. e ≡ TableFault.OutOfMemory) }
{
    let mut tagged = read_tag_records(alloc, table, base, at, count)?;
    sort_by_tag(&mut tagged)?;
    first_rows(alloc, tagged)
}

/// Reads tables that records name by tags.
pub trait TaggedReader {
    type Value: Drop;

    ghost value_of: { Self → ℕ → List ℕ → TagRecord → Result (Self.Value × ℕ) TableFault };

    ghost tag_of: { Self.Value → ℕ };

    /// Reads the table of a record, whose value has the record's tag; what it holds takes room.
    fn read_tagged(
        &self,
        alloc: Global,
        table: &[u8],
        tagged: TagRecord,
        room: &mut Room,
    ) -> Result<Self::Value, TableFault>
        ensures ok { IfOk result (λ v. value_of self.now room.old.left table.now tagged ≡ Ok (v, room.new.left)) }
        ensures tag { IfOk result (λ v. tag_of v ≡ tagged.tag.0) }
        ensures refused { IfErr result (λ e. e ≢ TableFault.OutOfMemory
            → value_of self.now room.old.left table.now tagged ≡ Err e) };
}

/// Reads the tables of records in turn.
pub fn read_tagged_tables<R: TaggedReader>(
    reader: &R,
    alloc: Global,
    table: &[u8],
    tagged: &[TagRecord],
    room: &mut Room,
) -> Result<Vec<R::Value>, TableFault>
    ensures ok { IfOk result (λ v. tagged_tables (λ r t. R.value_of reader.now r table.now t) room.old.left tagged.now
        ≡ Ok (v.items, room.new.left)) }
    ensures tags { IfOk result (λ v. map R.tag_of v.items ≡ map (λ t. t.tag.0) tagged.now) }
    ensures refused { IfErr result (λ e. e ≢ TableFault.OutOfMemory
        → tagged_tables (λ r t. R.value_of reader.now r table.now t) room.old.left tagged.now ≡ Err e) }
{
    let mut values = Vec::with_capacity(alloc, tagged.len())?;
    for one in tagged {
        let value = reader.read_tagged(alloc, table, *one, room)?;
        values.push(value)?;
    }
    Ok(values)
}
