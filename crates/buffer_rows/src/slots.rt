//! Slots: for each number one more than the index of its record, 0 where it has none.
ghost use Rattle.std.specs.Prelude.{◌≡◌, ◌≤◌, ◌<◌, ◌+◌, ◌^◌, true, false, IfOk, length, slice_get, get_or};
ghost use Rattle.buffer_rows.specs.Keys.{numbers_rise, row_of};
ghost use Rattle.buffer_rows.specs.Pages.{Extends, IsBlock, IsStart, record_in};

use crate::numbered::Numbered;
use std::alloc::AllocError;

/// An entry of a list of pages or slots, none past its end.
pub(crate) fn entry(entries: &[u16], index: usize) -> Option<u16>
    ensures { result ≡ slice_get entries.now index }
{
    entries.get(index).copied()
}

/// The record of a slot.
pub(crate) fn record_in<R: Numbered>(rows: &[R], slot: u16) -> Option<R>
    ensures { result ≡ record_in rows.now slot }
{
    if slot == 0 {
        return None;
    }
    rows.get(slot as usize - 1).copied()
}

/// Appends the slots of `count` numbers from `first` on, whose records begin at the index `from`, and gives where those
/// of greater numbers begin.
#[tactic(auto, using(crate::proofs::Paged::block_grows, crate::proofs::Paged::one_more, crate::proofs::Paged::extends_on, crate::proofs::Paged::itself))]
pub(crate) fn push_slots<R: Numbered>(
    rows: &[R],
    from: usize,
    first: u32,
    count: u32,
    slots: &mut Vec<u16>,
) -> Result<usize, AllocError>
    requires rising { numbers_rise R.number_of rows.now ≡ true }
    requires few { length rows.now < 65535 }
    requires fits { first + count ≤ 2 ^ 32 }
    requires start { IsStart R.number_of rows.now first from }
    ensures block { IfOk result
        (λ _. IsBlock R.number_of rows.now slots.new.items (length slots.old.items) first count) }
    ensures kept { IfOk result (λ _. Extends slots.old.items slots.new.items) }
    ensures length { IfOk result (λ _. length slots.new.items ≡ length slots.old.items + count) }
    ensures start { IfOk result (λ next. IsStart R.number_of rows.now (first + count) next) }
{
    let mut at = from;
    for low in 0..count {
        let (next, slot) = next_slot(rows, at, first + low);
        slots.push(slot)?;
        at = next;
    }
    Ok(at)
}

/// The slot of a number, whose record is at the index `at` if it has one, and where the records of greater numbers
/// begin.
#[tactic(auto, using(crate::proofs::Passes::no_record, crate::proofs::Passes::record_here, crate::proofs::Passes::start_passed))]
fn next_slot<R: Numbered>(rows: &[R], at: usize, number: u32) -> (usize, u16)
    requires rising { numbers_rise R.number_of rows.now ≡ true }
    requires few { length rows.now < 65535 }
    requires start { IsStart R.number_of rows.now number at }
    ensures start { IsStart R.number_of rows.now (number + 1) result.0 }
    ensures slot { record_in rows.now result.1 ≡ row_of R.number_of number rows.now }
{
    if are_above(rows, at, number, number) {
        return (at, 0);
    }
    (at + 1, at as u16 + 1)
}

/// Whether the records from the index `at` on, whose numbers are at least `first`, have numbers above `last`.
#[tactic(auto, using(crate::proofs::Passes::start_past_end, crate::proofs::Passes::start_before))]
pub(crate) fn are_above<R: Numbered>(rows: &[R], at: usize, first: u32, last: u32) -> bool
    requires rising { numbers_rise R.number_of rows.now ≡ true }
    requires start { IsStart R.number_of rows.now first at }
    requires order { first ≤ last }
    ensures above { result ≡ true → IsStart R.number_of rows.now (last + 1) at }
    ensures within { result ≡ false → at < length rows.now }
    ensures least { result ≡ false → (d : R) → R.number_of (get_or rows.now at d) ≤ last }
{
    match rows.get(at) {
        Some(row) => row.number() > last,
        None => true,
    }
}
