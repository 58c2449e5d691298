//! Lookups and where their subtables stand (OpenType, chapter 2, lookup tables; extensions of GSUB and GPOS).
ghost use Rattle.std.specs.Prelude.{◌≡◌, ◌≢◌, ◌≤◌, ◌+◌, ◌*◌, IfOk, IfErr, Ok, Err, length};
ghost use Rattle.font_bytes.specs.declared.fault.TableFault.{TableFault};
ghost use Rattle.font_lists.specs.Lookups.{extension_offset, filtering_set, lookup_head_at, subtable_in_room, set_width, subtable_offset, type_of};

use font_bytes::fault::TableFault;
use font_bytes::room::Room;
use font_bytes::words::{long, need, word};
use font_records::{RecordReader, read_array};
use layout_common::array::Array;
use layout_common::flags::USE_MARK_FILTERING_SET;
use std::alloc::Global;

/// How many rows of room a subtable takes besides its offset.
const SUBTABLE_ROWS: usize = 63;

/// A subtable: its lookup type, that of an extension being resolved, and where it stands.
#[derive(Clone, Copy, Drop)]
pub struct SubtableOffset {
    pub lookup_type: u16,
    pub at: usize,
}

/// A lookup without its subtables: its flag, the mark filtering set that it names and the font has, where its subtables
/// stand.
#[derive(Drop)]
pub struct LookupHead {
    pub flags: u16,
    pub set: Option<u16>,
    pub subtables: Array<SubtableOffset>,
}

/// The subtable that an extension subtable names, with its type.
fn extension_offset(table: &[u8], at: usize) -> Result<Option<SubtableOffset>, TableFault>
    ensures { result ≡ extension_offset table.now at }
{
    need(table, at, 8)?;
    if word(table, at) != 1 {
        return Ok(None);
    }
    let offset = long(table, at + 4);
    if offset == 0 {
        return Ok(None);
    }
    Ok(Some(SubtableOffset {
        lookup_type: word(table, at + 2),
        at: at + offset as usize,
    }))
}

/// The offsets of the subtables of a lookup of a type, which count from a base.
#[derive(Clone, Copy)]
pub struct SubtableOffsetReader {
    pub extension: u16,
    pub lookup_type: u16,
    pub base: usize,
}

impl SubtableOffsetReader {
    /// The subtable whose offset stands at an offset.
    fn subtable_offset(&self, table: &[u8], at: usize) -> Result<Option<SubtableOffset>, TableFault>
        requires within { at + 2 ≤ length table.now }
        requires base { self.now.base ≤ length table.now }
        ensures { result ≡ subtable_offset self.now.extension self.now.lookup_type self.now.base table.now at }
    {
        let offset = word(table, at);
        if offset == 0 {
            return Ok(None);
        }
        let start = self.base + usize::from(offset);
        if self.lookup_type == self.extension {
            return extension_offset(table, start);
        }
        Ok(Some(SubtableOffset {
            lookup_type: self.lookup_type,
            at: start,
        }))
    }
}

impl RecordReader for SubtableOffsetReader {
    type Item = SubtableOffset;

    ghost width_of = { λ _. 2 };

    ghost base_of = { λ r. r.base };

    ghost item_at = { λ r. subtable_in_room r.extension r.lookup_type r.base };

    fn width(&self) -> usize {
        2
    }

    fn read_item(
        &self,
        alloc: Global,
        table: &[u8],
        at: usize,
        room: &mut Room,
    ) -> Result<Option<SubtableOffset>, TableFault> {
        self.subtable_offset(table, at)
    }
}

/// The type of the first of some subtables, 0 where there is none.
pub fn type_of(offsets: &[SubtableOffset]) -> u16
    ensures { result ≡ type_of offsets.now }
{
    match offsets {
        [first, ..] => first.lookup_type,
        [] => 0,
    }
}

/// How many bytes the index of a mark filtering set takes, in a lookup with a flag.
fn set_width(flags: u16) -> usize
    ensures { result ≡ set_width flags }
{
    if flags & USE_MARK_FILTERING_SET == 0 {
        0
    } else {
        2
    }
}

/// The index of the mark filtering set of a lookup with a flag, none where the font has no such set.
fn filtering_set(set_count: usize, flags: u16, table: &[u8], at: usize) -> Option<u16>
    requires { at + set_width flags ≤ length table.now }
    ensures { result ≡ filtering_set set_count flags table.now at }
{
    if flags & USE_MARK_FILTERING_SET == 0 {
        return None;
    }
    let set = word(table, at);
    if usize::from(set) < set_count {
        Some(set)
    } else {
        None
    }
}

/// Reads a lookup but for its subtables. A subtable takes 64 rows of room.
pub fn read_lookup_head(
    alloc: Global,
    extension: u16,
    set_count: usize,
    table: &[u8],
    at: usize,
    room: &mut Room,
) -> Result<LookupHead, TableFault>
    ensures ok { IfOk result (λ h. lookup_head_at extension set_count room.old.left table.now at ≡ Ok (h, room.new.left)) }
    ensures refused { IfErr result (λ e. e ≢ TableFault.OutOfMemory
        → lookup_head_at extension set_count room.old.left table.now at ≡ Err e) }
{
    need(table, at, 6)?;
    let flags = word(table, at + 2);
    let count = usize::from(word(table, at + 4));
    need(table, at + 6, 2 * count + set_width(flags))?;
    room.take(SUBTABLE_ROWS * count)?;
    let reader = SubtableOffsetReader {
        extension,
        lookup_type: word(table, at),
        base: at,
    };
    let subtables = read_array(&reader, alloc, table, at + 6, count, room)?;
    Ok(LookupHead {
        flags,
        set: filtering_set(set_count, flags, table, at + 6 + 2 * count),
        subtables: Array::new(subtables),
    })
}
