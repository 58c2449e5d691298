//! The items and lookup records of rules that need no allocation.
ghost use Rattle.std.specs.Prelude.{◌≡◌, ◌≤◌, ◌<◌, ◌+◌, ◌*◌, ◌++◌, ◌∷◌, [], length};
ghost use Rattle.font_common.specs.Words.{words_at};
ghost use Rattle.font_contexts.specs.Rules.{known_records, lookup_records, words_of};

use crate::arrays::ElementArray;
use crate::rules::lookup_record;
use arrayvec::ArrayVec;
use font_bytes::words::word;
use layout_tables::context::SequenceLookupRecord;
use layout_tables::item_rule::{INPUT_INSIDE, RECORDS_INSIDE};

/// Lookup records of a rule.
pub type FewRecords = ArrayVec<SequenceLookupRecord, RECORDS_INSIDE>;

/// Appends the numbers of an array.
fn push_few<const N: usize>(items: &mut ArrayVec<u16, N>, table: &[u8], at: usize, count: usize)
    requires within { at + 2 * count ≤ length table.now }
    requires few { length items.old.items + count ≤ N }
    ensures { items.new.items ≡ items.old.items ++ words_at table.now at count }
{
    for index in 0..count {
        items.push(word(table, at + 2 * index));
    }
}

/// Appends a lookup record whose lookup exists.
fn push_known(records: &mut FewRecords, lookup: SequenceLookupRecord, lookup_count: usize)
    requires { length records.old.items < 4 }
    ensures items { records.new.items ≡ records.old.items ++ known_records lookup_count (lookup ∷ []) }
    ensures length { length records.new.items ≤ length records.old.items + 1 }
{
    if usize::from(lookup.lookup_index) < lookup_count {
        records.push(lookup);
    }
}

/// The lookup records of an array whose lookups exist, in a table of n lookups.
pub fn few_records(table: &[u8], array: ElementArray, lookup_count: usize) -> FewRecords
    requires within { array.at + 4 * array.count ≤ length table.now }
    requires few { array.count ≤ 4 }
    ensures { result.items ≡ lookup_records lookup_count table.now array }
{
    let mut records = ArrayVec::new();
    for index in 0..array.count {
        let lookup = lookup_record(table, array.at + 4 * index);
        push_known(&mut records, lookup, lookup_count);
    }
    records
}

/// The glyphs or classes of an array.
pub fn few_items<const N: usize>(table: &[u8], array: ElementArray) -> ArrayVec<u16, N>
    requires within { array.at + 2 * array.count ≤ length table.now }
    requires few { array.count ≤ N }
    ensures { result.items ≡ words_of table.now array }
{
    let mut items = ArrayVec::new();
    push_few(&mut items, table, array.at, array.count);
    items
}

/// An item, and after it the glyphs or classes of an array.
pub fn few_after(first: u16, table: &[u8], array: ElementArray) -> ArrayVec<u16, INPUT_INSIDE>
    requires within { array.at + 2 * array.count ≤ length table.now }
    requires few { array.count < 8 }
    ensures { result.items ≡ first ∷ words_of table.now array }
{
    let mut items = ArrayVec::new();
    items.push(first);
    push_few(&mut items, table, array.at, array.count);
    items
}
