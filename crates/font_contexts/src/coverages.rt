//! Contexts by coverages (OpenType, chapter 2, format 3).
ghost use Rattle.std.specs.Prelude.{◌≡◌, ◌≢◌, ◌≤◌, ◌+◌, ◌*◌, IfOk, IfErr, Ok, Err, length};
ghost use Rattle.font_bytes.specs.declared.fault.TableFault.{TableFault};
ghost use Rattle.font_contexts.specs.Contexts.{coverage_context_at, coverage_rule, coverages_of};

use crate::arrays::{ElementArray, RuleArrays, arrays_at};
use crate::rules::read_records;
use font_bytes::fault::TableFault;
use font_bytes::room::Room;
use font_common::offsets::{CoverageReader, read_tables};
use layout_common::array::Array;
use layout_common::coverage::Coverage;
use layout_tables::context::SequenceRule;
use std::alloc::Global;

/// Reads the coverages of an array of offsets, which count from a base.
fn read_coverages(
    alloc: Global,
    table: &[u8],
    base: usize,
    array: ElementArray,
    room: &mut Room,
) -> Result<Array<Coverage>, TableFault>
    requires base_within { base ≤ length table.now }
    requires within { array.at + 2 * array.count ≤ length table.now }
    ensures ok { IfOk result (λ v. coverages_of table.now base array room.old.left ≡ Ok (v, room.new.left)) }
    ensures refused { IfErr result (λ e. e ≢ TableFault.OutOfMemory → coverages_of table.now base array room.old.left ≡ Err e) }
{
    let coverages = read_tables(
        &CoverageReader,
        alloc,
        table,
        base,
        array.at,
        array.count,
        room,
    )?;
    Ok(Array::new(coverages))
}

/// Reads the rule of format 3, by its arrays.
fn read_coverage_rule(
    alloc: Global,
    lookup_count: usize,
    table: &[u8],
    base: usize,
    arrays: RuleArrays,
    room: &mut Room,
) -> Result<SequenceRule<Coverage>, TableFault>
    requires base_within { base ≤ length table.now }
    requires backtrack { arrays.backtrack.at + 2 * arrays.backtrack.count ≤ length table.now }
    requires input { arrays.input.at + 2 * arrays.input.count ≤ length table.now }
    requires lookahead { arrays.lookahead.at + 2 * arrays.lookahead.count ≤ length table.now }
    requires records { arrays.records.at + 4 * arrays.records.count ≤ length table.now }
    ensures ok { IfOk result (λ r. coverage_rule lookup_count table.now base arrays room.old.left ≡ Ok (r, room.new.left)) }
    ensures refused { IfErr result (λ e. e ≢ TableFault.OutOfMemory
        → coverage_rule lookup_count table.now base arrays room.old.left ≡ Err e) }
{
    room.take(arrays.records.count)?;
    let records = read_records(alloc, table, arrays.records, lookup_count)?;
    let backtrack = read_coverages(alloc, table, base, arrays.backtrack, room)?;
    let input = read_coverages(alloc, table, base, arrays.input, room)?;
    let lookahead = read_coverages(alloc, table, base, arrays.lookahead, room)?;
    Ok(SequenceRule {
        backtrack,
        input,
        lookahead,
        records,
    })
}

/// Reads the rules of format 3: one, and none where there is no input.
pub fn read_coverage_context(
    alloc: Global,
    chained: bool,
    lookup_count: usize,
    table: &[u8],
    at: usize,
    room: &mut Room,
) -> Result<Array<SequenceRule<Coverage>>, TableFault>
    requires { at + 2 ≤ length table.now }
    ensures ok { IfOk result (λ v. coverage_context_at chained lookup_count room.old.left table.now at ≡ Ok (v, room.new.left)) }
    ensures refused { IfErr result (λ e. e ≢ TableFault.OutOfMemory
        → coverage_context_at chained lookup_count room.old.left table.now at ≡ Err e) }
{
    let arrays = arrays_at(chained, 0, table, at + 2)?;
    if arrays.input.count == 0 {
        return Ok(Array::new(Vec::new(alloc)));
    }
    let mut rules = Vec::with_capacity(alloc, 1)?;
    rules.push(read_coverage_rule(alloc, lookup_count, table, at, arrays, room)?)?;
    Ok(Array::new(rules))
}
