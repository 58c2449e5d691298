//! A table of records in the strict order of their numbers, with an index of its pages.
ghost use Rattle.std.specs.Prelude.{◌≡◌, ◌≤◌, ◌<◌, ◌+◌, ◌%◌, ◌^◌, true, IfOk, OnErr, OnOk, length};
ghost use Rattle.std.specs.Ordering.{nat_cmp};
ghost use Rattle.buffer_rows.specs.Keys.{numbers_rise, row_of, with_inserted, without_key};
ghost use Rattle.buffer_rows.specs.Pages.{ArePages, Extends, IsPage, IsStart};

use crate::numbered::{Numbered, find_number, first_from, is_number_at};
use crate::slots::{are_above, entry, push_slots, record_in};
use std::alloc::{AllocError, Global};
use std::marker::Model;
use std::mem;

/// How many numbers a page has.
const PAGE: u32 = 128;

/// How many pages the characters have.
const PAGES: u32 = 0x110000 / PAGE;

/// The greatest number of slots, those of 1,024 pages, so that pages and slots take at most 273 KB. A font of Han and
/// Hangul has some 300 pages (NanumGothic 289), and more with plane 2.
const MAX_SLOTS: usize = 1024 * 128;

/// An index of the records by their numbers, page by page.
#[derive(Drop)]
struct Index {
    /// For each page the count of its block of slots, from 1, or 0 where the page has no record.
    pages: Vec<u16>,
    /// For each number of a page one more than the index of its record, or 0 where it has none.
    slots: Vec<u16>,
}

/// Records whose numbers rise strictly, each found at once by its number. The index only saves time: contracts see the
/// records.
#[derive(Debug, Drop)]
pub struct PagedRows<R: Numbered> {
    rows: Vec<R>,
    pages: Vec<u16>,
    slots: Vec<u16>,
}

impl<R: Numbered> Model for PagedRows<R> {
    ghost use Rattle.std.specs.Prelude.{List};
    ghost use Rattle.buffer_rows.specs.Pages.{IsPaged};

    ghost Value = { List R };

    ghost view = { λ s. s.rows.items };

    ghost invariant = { λ s. IsPaged R.number_of s.rows.items s.pages.items s.slots.items };
}

impl<R: Numbered> PagedRows<R> {
    /// A table of records whose numbers rise strictly. Its index takes at most 273 KB; records whose pages have no room
    /// in it, and numbers that are no characters, are found by binary search.
    pub fn new(alloc: Global, rows: Vec<R>) -> Result<PagedRows<R>, AllocError>
        requires { numbers_rise R.number_of rows.items ≡ true }
        ensures { IfOk result (λ p. p ≡ rows.items) }
    {
        let Index { pages, slots } = index_of(alloc, &rows)?;
        Ok(PagedRows { rows, pages, slots })
    }

    /// The record of a number.
    #[tactic(auto, using(crate::proofs::Paged::slot_names))]
    pub fn get(&self, number: u32) -> Option<R>
        ensures { result ≡ row_of R.number_of number self.now }
    {
        let Some(block) = entry(&self.pages, (number / PAGE) as usize) else {
            return find_number(&self.rows, number);
        };
        if block == 0 {
            return None;
        }
        let slot = (block as usize - 1) * PAGE as usize + (number % PAGE) as usize;
        match entry(&self.slots, slot) {
            Some(slot) => record_in(&self.rows, slot),
            None => find_number(&self.rows, number),
        }
    }

    /// The records, in the order of their numbers.
    pub fn as_slice(&self) -> &[R]
        ensures { result.now ≡ self.now }
    {
        &self.rows
    }

    /// Inserts a record: in the place of that of its number in logarithmic time, else in linear time. Where a record is
    /// added the index is emptied: until `index` is called, records are found by binary search.
    pub fn insert(&mut self, row: R) -> Result<(), AllocError>
        ensures inserted { OnOk result (self.new ≡ with_inserted nat_cmp R.number_of row self.old) }
        ensures kept { OnErr result (self.new ≡ self.old) }
    {
        let number = row.number();
        let index = first_from(&self.rows, number);
        if is_number_at(&self.rows, index, number) {
            self.rows[index] = row;
            return Ok(());
        }
        self.rows.insert(index, row)?;
        self.pages.clear();
        self.slots.clear();
        Ok(())
    }

    /// Removes the record of a number, if there is one, in linear time. Then the index is emptied: until `index` is
    /// called, records are found by binary search.
    pub fn remove(&mut self, number: u32)
        ensures { self.new ≡ without_key nat_cmp R.number_of number self.old }
    {
        let index = first_from(&self.rows, number);
        if is_number_at(&self.rows, index, number) {
            self.rows.remove(index);
            self.pages.clear();
            self.slots.clear();
        }
    }

    /// Makes the index, as `new` does, of the records as they are. For want of memory it stays as it was.
    pub fn index(&mut self, alloc: Global) -> Result<(), AllocError>
        ensures { self.new ≡ self.old }
    {
        let Index { pages, slots } = index_of(alloc, &self.rows)?;
        drop(mem::replace(&mut self.pages, pages));
        drop(mem::replace(&mut self.slots, slots));
        Ok(())
    }
}

/// How many slots the pages of the records have, up to the greatest number.
fn slots_of<R: Numbered>(rows: &[R]) -> usize
    ensures { result ≤ 131072 }
{
    let mut count = 0usize;
    let mut before = None;
    for row in rows {
        let page = row.number() / PAGE;
        if before != Some(page) {
            count = count.saturating_add(PAGE as usize);
        }
        before = Some(page);
    }
    count.min(MAX_SLOTS)
}

/// How many pages the records have, from that of the first character to that of the last record.
fn page_count<R: Numbered>(rows: &[R]) -> u32
    ensures { result ≤ 8704 }
{
    match rows.last() {
        Some(last) => PAGES.min(last.number() / PAGE + 1),
        None => 0,
    }
}

/// The index of the records: pages of 128 characters up to the last record's, as many as there is room for their slots.
/// It is empty where there are no records, or too many for slots of 16 bits.
fn index_of<R: Numbered>(alloc: Global, rows: &[R]) -> Result<Index, AllocError>
    requires { numbers_rise R.number_of rows.now ≡ true }
    ensures { IfOk result (λ i. ArePages R.number_of rows.now i.pages.items i.slots.items) }
{
    if rows.is_empty() || rows.len() >= u16::MAX as usize {
        return Ok(Index {
            pages: Vec::new(alloc),
            slots: Vec::new(alloc),
        });
    }
    // Neither list grows past its room, so that no more than this is ever allocated.
    let count = page_count(rows);
    let mut pages = Vec::with_capacity(alloc, count as usize)?;
    let mut slots = Vec::with_capacity(alloc, slots_of(rows))?;
    let mut at = 0;
    for page in 0..count {
        if slots.len() >= MAX_SLOTS {
            return Ok(Index { pages, slots });
        }
        let (block, next) = push_page(rows, at, page * PAGE, &mut slots)?;
        pages.push(block)?;
        at = next;
    }
    Ok(Index { pages, slots })
}

/// Appends the slots of a page if it has records, which begin at the index `from`. Gives the count of its block, or 0,
/// and where the records of the pages after it begin.
#[tactic(auto, using(crate::proofs::Paged::empty_page, crate::proofs::Paged::full_page, crate::proofs::Paged::itself))]
fn push_page<R: Numbered>(
    rows: &[R],
    from: usize,
    first: u32,
    slots: &mut Vec<u16>,
) -> Result<(u16, usize), AllocError>
    requires rising { numbers_rise R.number_of rows.now ≡ true }
    requires few { length rows.now < 65535 }
    requires fits { first + 128 < 2 ^ 32 }
    requires start { IsStart R.number_of rows.now first from }
    requires room { length slots.old.items < 131072 }
    requires whole { length slots.old.items % 128 ≡ 0 }
    ensures page { IfOk result (λ r. IsPage R.number_of rows.now slots.new.items first r.0) }
    ensures kept { IfOk result (λ _. Extends slots.old.items slots.new.items) }
    ensures whole { IfOk result (λ _. length slots.new.items % 128 ≡ 0) }
    ensures start { IfOk result (λ r. IsStart R.number_of rows.now (first + 128) r.1) }
{
    if are_above(rows, from, first, first + (PAGE - 1)) {
        return Ok((0, from));
    }
    let block = slots.len() / PAGE as usize + 1;
    let next = push_slots(rows, from, first, PAGE, slots)?;
    Ok((block as u16, next))
}
