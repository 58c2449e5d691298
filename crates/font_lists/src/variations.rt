//! Features in whose place others stand at the default instance (OpenType, chapter 2, feature variations table).
ghost use Rattle.std.specs.Prelude.{◌≡◌, ◌≢◌, ◌≤◌, ◌+◌, ◌*◌, ◌-◌, IfOk, IfErr, Ok, Err, length};
ghost use Rattle.font_bytes.specs.declared.fault.TableFault.{TableFault};
ghost use Rattle.font_bytes.specs.Words.{long};
ghost use Rattle.font_bytes.specs.Records.{records};
ghost use Rattle.font_lists.specs.Variations.{condition_fits, condition_set_fits, conditions_fit, alternate_feature, first_fitting, has_default, range_fits, set_fits, substitution_at, substitution_of, variation_records, variations_at, variations_of};

use crate::tagged::table_offset;
use buffer_rows::{Keyed, SortedRows};
use font_bytes::fault::TableFault;
use font_bytes::room::Room;
use font_bytes::words::{long, need, word};
use font_common::rows::first_rows;
use std::alloc::Global;

/// The index of a feature, and the offset of the feature that stands in its place; 0 for a null offset.
#[derive(Clone, Copy, Drop)]
pub struct AlternateFeature {
    pub feature_index: usize,
    pub at: usize,
}

impl Keyed for AlternateFeature {
    type Key = usize;

    ghost key_of = { λ p. p.feature_index };

    fn key(&self) -> usize {
        self.feature_index
    }
}

/// Whether 0 is within two numbers of type F2DOT14.
fn has_default(least: u16, greatest: u16) -> bool
    ensures { result ≡ has_default least greatest }
{
    (least == 0 || least >= 32768) && greatest < 32768
}

/// Whether a condition of format 1 holds at the default instance.
fn range_fits(table: &[u8], at: usize) -> Result<bool, TableFault>
    ensures { result ≡ range_fits table.now at }
{
    need(table, at, 8)?;
    Ok(has_default(word(table, at + 4), word(table, at + 6)))
}

/// Whether a condition holds at the default instance.
fn condition_fits(table: &[u8], at: usize) -> Result<bool, TableFault>
    ensures { result ≡ condition_fits table.now at }
{
    if at == 0 {
        return Ok(false);
    }
    need(table, at, 2)?;
    if word(table, at) == 1 {
        range_fits(table, at)
    } else {
        Ok(false)
    }
}

/// Whether each of n conditions holds, whose offsets count from a base.
#[tactic(auto, using(font_bytes::proofs::Recorded::records_more, font_bytes::proofs::Recorded::records_end))]
fn conditions_fit(table: &[u8], base: usize, at: usize, count: usize) -> Result<bool, TableFault>
    requires base_within { base ≤ length table.now }
    requires within { at + 4 * count ≤ length table.now }
    ensures { result ≡ conditions_fit table.now base (records (long table.now) 4 at count) }
{
    for index in 0..count {
        let condition = table_offset(table, base, long(table, at + 4 * index));
        if !condition_fits(table, condition)? {
            return Ok(false);
        }
    }
    Ok(true)
}

/// Whether a condition set holds.
fn condition_set_fits(table: &[u8], at: usize, room: &mut Room) -> Result<bool, TableFault>
    ensures ok { IfOk result (λ b. condition_set_fits room.old.left table.now at ≡ Ok (b, room.new.left)) }
    ensures refused { IfErr result (λ e. condition_set_fits room.old.left table.now at ≡ Err e) }
{
    need(table, at, 2)?;
    let count = usize::from(word(table, at));
    need(table, at + 2, 4 * count)?;
    room.take(count)?;
    conditions_fit(table, at, at + 2, count)
}

/// Whether a condition set holds, if there is one.
fn set_fits(table: &[u8], at: usize, room: &mut Room) -> Result<bool, TableFault>
    ensures ok { IfOk result (λ b. set_fits room.old.left table.now at ≡ Ok (b, room.new.left)) }
    ensures refused { IfErr result (λ e. set_fits room.old.left table.now at ≡ Err e) }
{
    if at == 0 {
        return Ok(true);
    }
    condition_set_fits(table, at, room)
}

/// The offset of the substitution of the first of n records whose condition set holds, 0 where there is none.
#[tactic(auto, using(font_bytes::proofs::Recorded::records_more, font_bytes::proofs::Recorded::records_end))]
fn first_fitting(
    table: &[u8],
    base: usize,
    count: usize,
    room: &mut Room,
) -> Result<usize, TableFault>
    requires { base + 8 + 8 * count ≤ length table.now }
    ensures ok { IfOk result (λ p. first_fitting table.now base room.old.left (records (λ o. o) 8 (base + 8) count)
        ≡ Ok (p, room.new.left)) }
    ensures refused { IfErr result (λ e. first_fitting table.now base room.old.left (records (λ o. o) 8 (base + 8) count)
        ≡ Err e) }
{
    for index in 0..count {
        let at = base + 8 + 8 * index;
        if set_fits(table, table_offset(table, base, long(table, at)), room)? {
            return Ok(table_offset(table, base, long(table, at + 4)));
        }
    }
    Ok(0)
}

/// The record at an offset, whose offset counts from a base.
fn alternate_feature(table: &[u8], base: usize, at: usize) -> AlternateFeature
    requires base_within { base ≤ length table.now }
    requires within { at + 6 ≤ length table.now }
    ensures { result ≡ alternate_feature table.now base at }
{
    AlternateFeature {
        feature_index: usize::from(word(table, at)),
        at: table_offset(table, base, long(table, at + 2)),
    }
}

/// Reads an array of n records.
#[tactic(auto, using(font_bytes::proofs::Recorded::records_more, font_bytes::proofs::Recorded::records_end))]
fn read_alternates(
    alloc: Global,
    table: &[u8],
    base: usize,
    at: usize,
    count: usize,
) -> Result<Vec<AlternateFeature>, TableFault>
    requires base_within { base ≤ length table.now }
    requires within { at + 6 * count ≤ length table.now }
    ensures ok { IfOk result (λ v. v.items ≡ records (alternate_feature table.now base) 6 at count) }
    ensures refused { IfErr result (λ e. e ≡ TableFault.OutOfMemory) }
{
    let mut alternates = Vec::with_capacity(alloc, count)?;
    for index in 0..count {
        alternates.push(alternate_feature(table, base, at + 6 * index))?;
    }
    Ok(alternates)
}

/// Reads a feature table substitution.
fn read_substitution(
    alloc: Global,
    table: &[u8],
    at: usize,
    room: &mut Room,
) -> Result<SortedRows<AlternateFeature>, TableFault>
    ensures ok { IfOk result (λ v. substitution_at room.old.left table.now at ≡ Ok (v, room.new.left)) }
    ensures refused { IfErr result (λ e. e ≢ TableFault.OutOfMemory → substitution_at room.old.left table.now at ≡ Err e) }
{
    need(table, at, 6)?;
    let count = usize::from(word(table, at + 4));
    need(table, at + 6, 6 * count)?;
    room.take(count)?;
    let alternates = read_alternates(alloc, table, at, at + 6, count)?;
    first_rows(alloc, alternates)
}

/// Reads a feature variations table.
fn read_listed_variations(
    alloc: Global,
    table: &[u8],
    at: usize,
    room: &mut Room,
) -> Result<SortedRows<AlternateFeature>, TableFault>
    ensures ok { IfOk result (λ v. variations_at room.old.left table.now at ≡ Ok (v, room.new.left)) }
    ensures refused { IfErr result (λ e. e ≢ TableFault.OutOfMemory → variations_at room.old.left table.now at ≡ Err e) }
{
    need(table, at, 8)?;
    if word(table, at) != 1 {
        return Err(TableFault::Kind(at));
    }
    let count = long(table, at + 4) as usize;
    need(table, at + 8, 8 * count)?;
    room.take(count)?;
    let substitution = first_fitting(table, at, count, room)?;
    if substitution == 0 {
        return Ok(SortedRows::new(Vec::new(alloc)));
    }
    read_substitution(alloc, table, substitution, room)
}

/// Reads the features in whose place others stand at the default instance, by the first record of feature variations that
/// fits it.
pub fn read_variations(
    alloc: Global,
    table: &[u8],
    at: usize,
    room: &mut Room,
) -> Result<SortedRows<AlternateFeature>, TableFault>
    ensures ok { IfOk result (λ v. variations_of room.old.left table.now at ≡ Ok (v, room.new.left)) }
    ensures refused { IfErr result (λ e. e ≢ TableFault.OutOfMemory → variations_of room.old.left table.now at ≡ Err e) }
{
    if at == 0 {
        return Ok(SortedRows::new(Vec::new(alloc)));
    }
    read_listed_variations(alloc, table, at, room)
}
