//! The arrays of a rule (OpenType, chapter 2, sequence rule and chained sequence rule tables).
ghost use Rattle.std.specs.Prelude.{◌≡◌, ◌≤◌, ◌<◌, ◌+◌, ◌*◌, ◌^◌, IfOk, length};
ghost use Rattle.font_contexts.specs.Arrays.{array_at, chained_arrays, counted_array, element_count, end_of, no_array, arrays_at, plain_arrays};

use font_bytes::fault::TableFault;
use font_bytes::words::{need, word};

/// An array of a table: the offset of its first element, and how many there are.
#[derive(Clone, Copy)]
pub struct ElementArray {
    pub at: usize,
    pub count: usize,
}

/// The arrays of a rule: glyphs, classes or offsets of coverages, and lookup records.
#[derive(Clone, Copy)]
pub struct RuleArrays {
    pub backtrack: ElementArray,
    pub input: ElementArray,
    pub lookahead: ElementArray,
    pub records: ElementArray,
}

/// No array.
fn no_array() -> ElementArray
    ensures { result ≡ no_array }
{
    ElementArray { at: 0, count: 0 }
}

/// An array of at most 65,535 elements of a width at an offset, within the table.
fn array_at(width: usize, table: &[u8], at: usize, count: usize) -> Result<ElementArray, TableFault>
    requires count_is_word { count < 2 ^ 16 }
    requires width_is_small { width ≤ 4 }
    ensures value { result ≡ array_at width table.now at count }
    ensures within { IfOk result (λ a. a.at + width * a.count ≤ length table.now) }
    ensures small { IfOk result (λ a. a.count < 2 ^ 16) }
{
    need(table, at, width * count)?;
    Ok(ElementArray { at, count })
}

/// An array after its count, of whose elements the first ones are missing.
pub fn counted_array(
    width: usize,
    missing: u16,
    table: &[u8],
    at: usize,
) -> Result<ElementArray, TableFault>
    requires width_is_small { width ≤ 4 }
    ensures value { result ≡ counted_array width missing table.now at }
    ensures within { IfOk result (λ a. a.at + width * a.count ≤ length table.now) }
    ensures small { IfOk result (λ a. a.count < 2 ^ 16) }
{
    need(table, at, 2)?;
    let count = word(table, at).saturating_sub(missing);
    array_at(width, table, at + 2, usize::from(count))
}

/// The arrays of a rule, or of format 3, without backtrack and lookahead.
fn plain_arrays(missing: u16, table: &[u8], at: usize) -> Result<RuleArrays, TableFault>
    ensures value { result ≡ plain_arrays missing table.now at }
    ensures backtrack { IfOk result (λ p. p.backtrack.at + 2 * p.backtrack.count ≤ length table.now) }
    ensures input { IfOk result (λ p. p.input.at + 2 * p.input.count ≤ length table.now) }
    ensures lookahead { IfOk result (λ p. p.lookahead.at + 2 * p.lookahead.count ≤ length table.now) }
    ensures records { IfOk result (λ p. p.records.at + 4 * p.records.count ≤ length table.now) }
{
    need(table, at, 4)?;
    let count = word(table, at).saturating_sub(missing);
    let input = array_at(2, table, at + 4, usize::from(count))?;
    let records_at = input.at + 2 * input.count;
    let records = array_at(4, table, records_at, usize::from(word(table, at + 2)))?;
    Ok(RuleArrays {
        backtrack: no_array(),
        input,
        lookahead: no_array(),
        records,
    })
}

/// The arrays of a chained rule, or of format 3 of chained contexts.
fn chained_arrays(missing: u16, table: &[u8], at: usize) -> Result<RuleArrays, TableFault>
    ensures value { result ≡ chained_arrays missing table.now at }
    ensures backtrack { IfOk result (λ p. p.backtrack.at + 2 * p.backtrack.count ≤ length table.now) }
    ensures input { IfOk result (λ p. p.input.at + 2 * p.input.count ≤ length table.now) }
    ensures lookahead { IfOk result (λ p. p.lookahead.at + 2 * p.lookahead.count ≤ length table.now) }
    ensures records { IfOk result (λ p. p.records.at + 4 * p.records.count ≤ length table.now) }
{
    let backtrack = counted_array(2, 0, table, at)?;
    let input = counted_array(2, missing, table, backtrack.at + 2 * backtrack.count)?;
    let lookahead = counted_array(2, 0, table, input.at + 2 * input.count)?;
    let records = counted_array(4, 0, table, lookahead.at + 2 * lookahead.count)?;
    Ok(RuleArrays {
        backtrack,
        input,
        lookahead,
        records,
    })
}

/// The arrays of a rule, of whose input sequence the first items are missing in its table.
pub fn arrays_at(
    chained: bool,
    missing: u16,
    table: &[u8],
    at: usize,
) -> Result<RuleArrays, TableFault>
    ensures value { result ≡ arrays_at chained missing table.now at }
    ensures backtrack { IfOk result (λ p. p.backtrack.at + 2 * p.backtrack.count ≤ length table.now) }
    ensures input { IfOk result (λ p. p.input.at + 2 * p.input.count ≤ length table.now) }
    ensures lookahead { IfOk result (λ p. p.lookahead.at + 2 * p.lookahead.count ≤ length table.now) }
    ensures records { IfOk result (λ p. p.records.at + 4 * p.records.count ≤ length table.now) }
{
    if chained {
        chained_arrays(missing, table, at)
    } else {
        plain_arrays(missing, table, at)
    }
}

/// How many elements the arrays of a rule have.
pub fn element_count(p: RuleArrays) -> usize
    requires backtrack { p.backtrack.count < 2 ^ 62 }
    requires input { p.input.count < 2 ^ 62 }
    requires lookahead { p.lookahead.count < 2 ^ 62 }
    requires records { p.records.count < 2 ^ 62 }
    ensures { result ≡ element_count p }
{
    p.backtrack.count + p.input.count + p.lookahead.count + p.records.count
}
