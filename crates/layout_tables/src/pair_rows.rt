//! The rows of pair adjustment by glyphs, those of a first glyph found at once.
ghost use Rattle.std.specs.Prelude.{◌≡◌, ◌==◌, ◌<◌, ◌≤◌, ◌+◌, ◌-◌, ◌^◌, [], true, IfOk, IfSome, drop, length, slice_get, take};
ghost use Rattle.std.specs.List.{filter};
ghost use Rattle.buffer_rows.specs.Keys.{numbers_rise};
ghost use Rattle.buffer_rows.specs.Pages.{IsStart};
ghost use Rattle.layout_tables.specs.PairRows.{AreBetween, AreStarts, pairs_rise, second_values};

use crate::pair::{PairRow, PairValues};
use buffer_rows::SortedRows;
use std::alloc::{AllocError, Global};
use std::marker::Model;

/// How many entries of the index there are at most for each row.
const STARTS_PER_ROW: usize = 32;

/// Pairs of glyphs and their adjustments, in the order of first and then second glyphs, with an index of the first
/// glyphs. The index only saves time: contracts see the rows.
#[derive(Debug, Drop)]
pub struct PairRows {
    rows: SortedRows<PairRow>,
    /// The first glyphs of the first and the last row, 1 and 0 where there are none.
    first: u16,
    last: u16,
    /// For each glyph from the first one up to the one after the last, the index of the first row whose first glyph is
    /// not below it; no entries where the first glyphs lie far apart.
    starts: Vec<u16>,
}

impl Model for PairRows {
    ghost use Rattle.std.specs.Prelude.{List};
    ghost use Rattle.layout_tables.specs.declared.pair.PairRow.{PairRow};
    ghost use Rattle.layout_tables.specs.PairRows.{IsIndexed};

    ghost Value = { List PairRow };

    ghost view = { λ p. p.rows };

    ghost invariant = { λ p. IsIndexed p.rows p.starts.items p.first p.last };
}

impl PairRows {
    /// Rows with an index of their first glyphs. It takes at most 64 bytes for each row; where they lie so far apart
    /// that this isn't enough, a glyph's rows are found by binary search.
    pub fn new(alloc: Global, rows: SortedRows<PairRow>) -> Result<PairRows, AllocError>
        ensures { IfOk result (λ p. p ≡ rows) }
    {
        let (first, last) = ends_of(rows.rising_rows());
        let starts = starts_between(alloc, rows.rising_rows(), first, last)?;
        Ok(PairRows {
            rows,
            first,
            last,
            starts,
        })
    }

    /// The rows whose pairs begin with the glyph, in the order of their second glyphs.
    pub fn rows_of(&self, first: u16) -> &[PairRow]
        ensures of { result.now ≡ filter (λ r. r.first == first) self.now }
        ensures rising { numbers_rise (λ r. r.second) result.now ≡ true }
    {
        let rows = self.rows.rising_rows();
        if first < self.first || first > self.last {
            return &rows[..0];
        }
        let (start, end) = span_of(rows, &self.starts, self.first, first);
        &rows[start..end]
    }

    /// The rows, in the order of their pairs.
    pub fn as_slice(&self) -> &[PairRow]
        ensures { result.now ≡ self.now }
    {
        self.rows.as_slice()
    }
}

/// The adjustments of a second glyph among the rows of one first glyph, in logarithmic time.
pub fn second_values(rows: &[PairRow], second: u16) -> Option<PairValues>
    requires { numbers_rise (λ r. r.second) rows.now ≡ true }
    ensures { result ≡ second_values second rows.now }
{
    match rows.binary_search_by_key(&second, |row| row.second) {
        Ok(at) => Some(rows[at].values),
        Err(_) => None,
    }
}

/// The first glyphs of the first and the last row, 1 and 0 where there are none.
#[tactic(auto, using(crate::proofs::PairRuns::within_ends, crate::proofs::PairRuns::none_first, crate::proofs::PairRuns::none_last))]
fn ends_of(rows: &[PairRow]) -> (u16, u16)
    requires { pairs_rise rows.now ≡ true }
    ensures { AreBetween rows.now result.0 result.1 }
{
    let Some(first) = rows.first() else {
        return (1, 0);
    };
    let Some(last) = rows.last() else {
        return (1, 0);
    };
    (first.first, last.first)
}

/// The indices of the first row whose pair begins with the glyph, and of the first row after those.
fn span_of(rows: &[PairRow], starts: &[u16], least: u16, first: u16) -> (usize, usize)
    requires rising { pairs_rise rows.now ≡ true }
    requires starts { AreStarts rows.now starts.now least }
    requires from { least ≤ first }
    ensures ordered { result.0 ≤ result.1 }
    ensures within { result.1 ≤ length rows.now }
    ensures rows { take (result.1 - result.0) (drop result.0 rows.now) ≡ filter (λ r. r.first == first) rows.now }
{
    let first = u32::from(first);
    let start = start_of(rows, starts, least, first);
    let end = start_of(rows, starts, least, first + 1);
    (start, end)
}

/// The index of the first row whose first glyph is not below a glyph: its entry, where there is one, else found in
/// logarithmic time.
fn start_of(rows: &[PairRow], starts: &[u16], least: u16, glyph: u32) -> usize
    requires rising { pairs_rise rows.now ≡ true }
    requires starts { AreStarts rows.now starts.now least }
    requires from { least ≤ glyph }
    ensures { IsStart (λ r. r.first) rows.now glyph result }
{
    let index = (glyph - u32::from(least)) as usize;
    match entry(starts, index) {
        Some(start) => usize::from(start),
        None => first_from(rows, glyph),
    }
}

/// An entry of the index, none past its end.
fn entry(starts: &[u16], index: usize) -> Option<u16>
    ensures { result ≡ slice_get starts.now index }
{
    starts.get(index).copied()
}

/// The index of the first row whose first glyph is not below a glyph, in logarithmic time.
fn first_from(rows: &[PairRow], glyph: u32) -> usize
    requires { pairs_rise rows.now ≡ true }
    ensures { IsStart (λ r. r.first) rows.now glyph result }
{
    rows.partition_point(|row| u32::from(row.first) < glyph)
}

/// How many entries the glyphs from the first one up to the one after the last have; none where there are no rows,
/// where there would be more than `STARTS_PER_ROW` for each of the rows, or where an index may not fit into an entry.
fn start_count(row_count: usize, first: u16, last: u16) -> Option<u32>
    ensures { IfSome result (λ count. (row_count < 65535) × (first + count ≤ 65537)) }
{
    if row_count >= usize::from(u16::MAX) {
        return None;
    }
    let count = (u32::from(last) + 2).checked_sub(u32::from(first))?;
    if count as usize > row_count * STARTS_PER_ROW {
        return None;
    }
    Some(count)
}

/// The entries of the glyphs from the first one up to the one after the last, where there are not too many of them.
#[tactic(auto, using(crate::proofs::PairRuns::no_starts))]
fn starts_between(
    alloc: Global,
    rows: &[PairRow],
    first: u16,
    last: u16,
) -> Result<Vec<u16>, AllocError>
    requires { pairs_rise rows.now ≡ true }
    ensures { IfOk result (λ starts. AreStarts rows.now starts.items first) }
{
    let Some(count) = start_count(rows.len(), first, last) else {
        return Ok(Vec::new(alloc));
    };
    let mut starts = Vec::with_capacity(alloc, count as usize)?;
    push_starts(rows, u32::from(first), count, &mut starts)?;
    Ok(starts)
}

/// Appends the entries of `count` glyphs from `first` on.
#[tactic(auto, using(crate::proofs::PairRuns::no_starts, crate::proofs::PairRuns::starts_grow))]
fn push_starts(
    rows: &[PairRow],
    first: u32,
    count: u32,
    starts: &mut Vec<u16>,
) -> Result<(), AllocError>
    requires rising { pairs_rise rows.now ≡ true }
    requires few { length rows.now < 65535 }
    requires fits { first + count ≤ 2 ^ 32 }
    requires none { starts.old.items ≡ [] }
    ensures { IfOk result (λ _. AreStarts rows.now starts.new.items first) }
{
    for low in 0..count {
        starts.push(entry_of(rows, first + low))?;
    }
    Ok(())
}

/// The entry of a glyph: the index of the first row whose first glyph is not below it.
fn entry_of(rows: &[PairRow], glyph: u32) -> u16
    requires rising { pairs_rise rows.now ≡ true }
    requires few { length rows.now < 65535 }
    ensures { IsStart (λ r. r.first) rows.now glyph result }
{
    first_from(rows, glyph) as u16
}
