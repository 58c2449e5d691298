//! A table of records in the strict order of their numbers, with a slot for each number from the first to the last.
ghost use Rattle.std.specs.Prelude.{ℕ, ◌≡◌, ◌≢◌, ◌<◌, ◌≤◌, ◌+◌, [], true, IfOk, IfSome, Some, length, replicate, slice_get};
ghost use Rattle.buffer_rows.specs.Keys.{numbers_rise, row_of};
ghost use Rattle.buffer_rows.specs.Dense.{AreWithin};
ghost use Rattle.buffer_rows.specs.Pages.{IsBlock};

use crate::numbered::{Numbered, find_number_near};
use crate::slots::{entry, record_in};
use std::alloc::{AllocError, Global};
use std::marker::Model;

/// How many slots there are at most for each record.
const SLOTS_PER_ROW: usize = 32;

/// Records whose numbers rise strictly, each found at once by its number where the numbers are dense. The slots only
/// save time: contracts see the records.
#[derive(Debug, Drop)]
pub struct DenseRows<R: Numbered> {
    rows: Vec<R>,
    /// The numbers of the first and the last record, 1 and 0 where there are none.
    first: u32,
    last: u32,
    /// For each number from the first to the last one more than the index of its record, or 0 where it has none; no
    /// slots where each number has a record, or few have.
    slots: Vec<u16>,
}

impl<R: Numbered> Model for DenseRows<R> {
    ghost use Rattle.std.specs.Prelude.{List};
    ghost use Rattle.buffer_rows.specs.Dense.{IsDense};

    ghost Value = { List R };

    ghost view = { λ d. d.rows.items };

    ghost invariant = { λ d. IsDense R.number_of d.rows.items d.slots.items d.first d.last };
}

impl<R: Numbered> DenseRows<R> {
    /// A table of records whose numbers rise strictly. Its slots take at most 64 bytes for each record; where the
    /// numbers lie so far apart that this isn't enough, records are found by binary search.
    pub fn new(alloc: Global, rows: Vec<R>) -> Result<DenseRows<R>, AllocError>
        requires { numbers_rise R.number_of rows.items ≡ true }
        ensures { IfOk result (λ d. d ≡ rows.items) }
    {
        let (first, last) = ends_of(&rows);
        let slots = slots_between(alloc, &rows, first, last)?;
        Ok(DenseRows {
            rows,
            first,
            last,
            slots,
        })
    }

    /// A table without records.
    pub fn empty(alloc: Global) -> DenseRows<R>
        ensures { result ≡ [] }
    {
        DenseRows {
            rows: Vec::new(alloc),
            first: 1,
            last: 0,
            slots: Vec::new(alloc),
        }
    }

    /// The record of a number.
    #[tactic(auto, using(crate::proofs::DenseSlots::none_below_first, crate::proofs::DenseSlots::none_above_last, crate::proofs::DenseSlots::slot_names))]
    pub fn get(&self, number: u32) -> Option<R>
        ensures { result ≡ row_of R.number_of number self.now }
    {
        if number < self.first || number > self.last {
            return None;
        }
        let index = (number - self.first) as usize;
        match entry(&self.slots, index) {
            Some(slot) => record_in(&self.rows, slot),
            // Where the numbers have no gap, the record stands at this index.
            None => find_number_near(&self.rows, number, index),
        }
    }

    /// The records, in the order of their numbers.
    pub fn as_slice(&self) -> &[R]
        ensures { result.now ≡ self.now }
    {
        &self.rows
    }
}

/// The numbers of the first and the last record, 1 and 0 where there are none.
#[tactic(auto, using(crate::proofs::DenseSlots::within_ends, crate::proofs::DenseSlots::none_first, crate::proofs::DenseSlots::none_last))]
fn ends_of<R: Numbered>(rows: &[R]) -> (u32, u32)
    requires { numbers_rise R.number_of rows.now ≡ true }
    ensures { AreWithin R.number_of rows.now result.0 result.1 }
{
    let Some(first) = rows.first() else {
        return (1, 0);
    };
    let Some(last) = rows.last() else {
        return (1, 0);
    };
    (first.number(), last.number())
}

/// How many slots the numbers from `first` to `last` have. None are made where each of them has a record, where there
/// would be more than `SLOTS_PER_ROW` for each of the records, or where there are too many records for slots of 16
/// bits.
fn slot_count(row_count: usize, first: u32, last: u32) -> Option<u32>
    ensures { IfSome result (λ count. (row_count < 65535) × (first + count ≤ last + 1)) }
{
    if row_count >= u16::MAX as usize {
        return None;
    }
    let count = last.checked_sub(first)?.checked_add(1)?;
    if count as usize <= row_count || count as usize > row_count * SLOTS_PER_ROW {
        return None;
    }
    Some(count)
}

/// The slots of the numbers from `first` to `last`, where there are not too many of them.
#[tactic(auto, using(crate::proofs::DenseSlots::no_slots))]
fn slots_between<R: Numbered>(
    alloc: Global,
    rows: &[R],
    first: u32,
    last: u32,
) -> Result<Vec<u16>, AllocError>
    requires { numbers_rise R.number_of rows.now ≡ true }
    ensures { IfOk result (λ slots. IsBlock R.number_of rows.now slots.items 0 first (length slots.items)) }
{
    let Some(count) = slot_count(rows.len(), first, last) else {
        return Ok(Vec::new(alloc));
    };
    let mut slots = no_records(alloc, count as usize)?;
    fill_slots(rows, first, &mut slots);
    Ok(slots)
}

/// The slots of numbers without records.
fn no_records(alloc: Global, count: usize) -> Result<Vec<u16>, AllocError>
    ensures { IfOk result (λ slots. slots.items ≡ replicate count 0) }
{
    let mut slots = Vec::with_capacity(alloc, count)?;
    slots.resize(count, 0)?;
    Ok(slots)
}

/// Sets a slot, if there is one at the index.
#[tactic(auto, using(crate::proofs::Filled::set_same, crate::proofs::Filled::set_other))]
fn set_slot(slots: &mut Vec<u16>, at: usize, slot: u16)
    ensures size { length slots.new.items ≡ length slots.old.items }
    ensures there { at < length slots.old.items → slice_get slots.new.items at ≡ Some slot }
    ensures others { (i : ℕ) → i ≢ at → slice_get slots.new.items i ≡ slice_get slots.old.items i }
{
    if at < slots.len() {
        slots[at] = slot;
    }
}

/// Sets the slots of the records, among slots of the numbers from `first` on.
fn fill_slots<R: Numbered>(rows: &[R], first: u32, slots: &mut Vec<u16>)
    requires rising { numbers_rise R.number_of rows.now ≡ true }
    requires few { length rows.now < 65535 }
    requires none { slots.old.items ≡ replicate (length slots.old.items) 0 }
    ensures { IsBlock R.number_of rows.now slots.new.items 0 first (length slots.new.items) }
{
    for i in 0..rows.len() {
        let number = rows[i].number();
        if number < first {
            continue;
        }
        set_slot(slots, (number - first) as usize, i as u16 + 1);
    }
}
