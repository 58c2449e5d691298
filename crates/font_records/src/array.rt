//! Values of the records of an array, read in turn.
ghost use Rattle.std.specs.Prelude.{◌≡◌, ◌≢◌, ◌≤◌, ◌+◌, ◌*◌, ◌++◌, ℕ, List, Option, Result, IfOk, IfErr, OnOk, Ok, Err, length};
ghost use Rattle.std.specs.Option.{option_to_list};
ghost use Rattle.font_bytes.specs.declared.fault.TableFault.{TableFault};
ghost use Rattle.font_records.specs.Turns.{array_at};

use font_bytes::fault::TableFault;
use font_bytes::room::Room;
use std::alloc::Global;

/// How a record of an array is read. Offsets that it has count from a base.
pub trait RecordReader {
    type Item: Drop;

    ghost width_of: { Self → ℕ };

    ghost base_of: { Self → ℕ };

    ghost item_at: { Self → List ℕ → ℕ → ℕ → Result (Option Self.Item × ℕ) TableFault };

    /// How many bytes a record has.
    fn width(&self) -> usize
        ensures { result ≡ width_of self.now };

    /// Reads the value of the record at an offset, none where it has none; what it holds takes room.
    fn read_item(
        &self,
        alloc: Global,
        table: &[u8],
        at: usize,
        room: &mut Room,
    ) -> Result<Option<Self::Item>, TableFault>
        requires within { at + width_of self.now ≤ length table.now }
        requires base { base_of self.now ≤ length table.now }
        ensures ok { IfOk result (λ v. item_at self.now table.now room.old.left at ≡ Ok (v, room.new.left)) }
        ensures refused { IfErr result (λ e. e ≢ TableFault.OutOfMemory
            → item_at self.now table.now room.old.left at ≡ Err e) };
}

/// Reads the values of an array of records in turn. A record takes a row of room.
pub fn read_array<R: RecordReader>(
    reader: &R,
    alloc: Global,
    table: &[u8],
    at: usize,
    count: usize,
    room: &mut Room,
) -> Result<Vec<R::Item>, TableFault>
    requires within { at + R.width_of reader.now * count ≤ length table.now }
    requires base { R.base_of reader.now ≤ length table.now }
    ensures ok { IfOk result (λ v.
        array_at (R.item_at reader.now table.now) (R.width_of reader.now) at count room.old.left
        ≡ Ok (v.items, room.new.left)) }
    ensures refused { IfErr result (λ e. e ≢ TableFault.OutOfMemory
        → array_at (R.item_at reader.now table.now) (R.width_of reader.now) at count room.old.left ≡ Err e) }
{
    room.take(count)?;
    let mut items = Vec::with_capacity(alloc, count)?;
    let width = reader.width();
    let mut at = at;
    for _index in 0..count {
        let item = reader.read_item(alloc, table, at, room)?;
        push_some(&mut items, item)?;
        at += width;
    }
    Ok(items)
}

/// Appends a value, if there is one.
pub(crate) fn push_some<T: Drop>(items: &mut Vec<T>, item: Option<T>) -> Result<(), TableFault>
    ensures ok { OnOk result (items.new.items ≡ items.old.items ++ option_to_list item) }
    ensures refused { IfErr result (λ e. e ≡ TableFault.OutOfMemory) }
{
    if let Some(item) = item {
        items.push(item)?;
    }
    Ok(())
}
