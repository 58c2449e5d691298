//! Rules by glyphs and by classes (OpenType, chapter 2, sequence rule and chained sequence rule tables).
ghost use Rattle.std.specs.Prelude.{◌≡◌, ◌≢◌, ◌≤◌, ◌<◌, ◌+◌, ◌*◌, ◌++◌, [], ◌∷◌, true, IfOk, IfErr, OnOk, Ok, Err, length};
ghost use Rattle.font_bytes.specs.declared.fault.TableFault.{TableFault};
ghost use Rattle.layout_tables.specs.ItemRules.{short_rule};
ghost use Rattle.font_contexts.specs.Rules.{empty_rule, known_records, lookup_record, lookup_records, rule_at, rule_of, words_of};

use crate::arrays::{ElementArray, RuleArrays, arrays_at, element_count};
use crate::few::{few_after, few_items, few_records};
use arrayvec::ArrayVec;
use font_bytes::fault::TableFault;
use font_bytes::room::Room;
use font_bytes::words::word;
use font_common::offsets::TableReader;
use font_common::words::{push_words, read_words};
use layout_common::array::Array;
use layout_tables::context::{SequenceLookupRecord, SequenceRule};
use layout_tables::item_rule::{CONTEXT_INSIDE, INPUT_INSIDE, ItemRule, RECORDS_INSIDE, ShortRule};
use std::alloc::Global;

/// The lookup record at an offset.
pub fn lookup_record(table: &[u8], at: usize) -> SequenceLookupRecord
    requires { at + 4 ≤ length table.now }
    ensures { result ≡ lookup_record table.now at }
{
    SequenceLookupRecord {
        sequence_index: word(table, at),
        lookup_index: word(table, at + 2),
    }
}

/// Appends a lookup record whose lookup exists.
fn push_known(
    records: &mut Vec<SequenceLookupRecord>,
    lookup: SequenceLookupRecord,
    lookup_count: usize,
) -> Result<(), TableFault>
    ensures ok { OnOk result (records.new.items ≡ records.old.items ++ known_records lookup_count (lookup ∷ [])) }
    ensures refused { IfErr result (λ e. e ≡ TableFault.OutOfMemory) }
{
    if usize::from(lookup.lookup_index) < lookup_count {
        records.push(lookup)?;
    }
    Ok(())
}

/// Reads the lookup records of an array whose lookups exist, in a table of n lookups.
pub fn read_records(
    alloc: Global,
    table: &[u8],
    array: ElementArray,
    lookup_count: usize,
) -> Result<Array<SequenceLookupRecord>, TableFault>
    requires { array.at + 4 * array.count ≤ length table.now }
    ensures ok { IfOk result (λ v. v ≡ lookup_records lookup_count table.now array) }
    ensures refused { IfErr result (λ e. e ≡ TableFault.OutOfMemory) }
{
    let mut records = Vec::with_capacity(alloc, array.count)?;
    for index in 0..array.count {
        let lookup = lookup_record(table, array.at + 4 * index);
        push_known(&mut records, lookup, lookup_count)?;
    }
    Ok(Array::new(records))
}

/// Reads the glyphs or classes of an array.
fn read_items(alloc: Global, table: &[u8], array: ElementArray) -> Result<Array<u16>, TableFault>
    requires { array.at + 2 * array.count ≤ length table.now }
    ensures ok { IfOk result (λ v. v ≡ words_of table.now array) }
    ensures refused { IfErr result (λ e. e ≡ TableFault.OutOfMemory) }
{
    Ok(Array::new(read_words(alloc, table, array.at, array.count)?))
}

/// Reads the glyphs or classes of an input sequence after its first.
fn read_input(
    alloc: Global,
    table: &[u8],
    array: ElementArray,
    first: u16,
) -> Result<Array<u16>, TableFault>
    requires { array.at + 2 * array.count ≤ length table.now }
    ensures ok { IfOk result (λ v. v ≡ first ∷ words_of table.now array) }
    ensures refused { IfErr result (λ e. e ≡ TableFault.OutOfMemory) }
{
    let mut items = Vec::with_capacity(alloc, array.count + 1)?;
    items.push(first)?;
    push_words(&mut items, table, array.at, array.count)?;
    Ok(Array::new(items))
}

/// Reads a rule of any length by its arrays.
fn read_long_rule(
    alloc: Global,
    table: &[u8],
    arrays: RuleArrays,
    first: u16,
    lookup_count: usize,
) -> Result<SequenceRule<u16>, TableFault>
    requires backtrack { arrays.backtrack.at + 2 * arrays.backtrack.count ≤ length table.now }
    requires input { arrays.input.at + 2 * arrays.input.count ≤ length table.now }
    requires lookahead { arrays.lookahead.at + 2 * arrays.lookahead.count ≤ length table.now }
    requires records { arrays.records.at + 4 * arrays.records.count ≤ length table.now }
    ensures ok { IfOk result (λ r. r ≡ rule_of lookup_count first table.now arrays) }
    ensures refused { IfErr result (λ e. e ≡ TableFault.OutOfMemory) }
{
    let backtrack = read_items(alloc, table, arrays.backtrack)?;
    let input = read_input(alloc, table, arrays.input, first)?;
    let lookahead = read_items(alloc, table, arrays.lookahead)?;
    let records = read_records(alloc, table, arrays.records, lookup_count)?;
    Ok(SequenceRule {
        backtrack,
        input,
        lookahead,
        records,
    })
}

/// Whether the arrays are those of a short rule, whose input begins with an item that its table leaves out.
fn is_short(arrays: RuleArrays) -> bool
    ensures backtrack { result ≡ true → arrays.backtrack.count ≤ 4 }
    ensures input { result ≡ true → arrays.input.count < 8 }
    ensures lookahead { result ≡ true → arrays.lookahead.count ≤ 4 }
    ensures records { result ≡ true → arrays.records.count ≤ 4 }
{
    arrays.backtrack.count <= CONTEXT_INSIDE
        && arrays.input.count < INPUT_INSIDE
        && arrays.lookahead.count <= CONTEXT_INSIDE
        && arrays.records.count <= RECORDS_INSIDE
}

/// A short rule by its arrays.
fn short_rule_of(table: &[u8], arrays: RuleArrays, first: u16, lookup_count: usize) -> ShortRule
    requires backtrack { (arrays.backtrack.count ≤ 4) × (arrays.backtrack.at + 2 * arrays.backtrack.count ≤ length table.now) }
    requires input { (arrays.input.count < 8) × (arrays.input.at + 2 * arrays.input.count ≤ length table.now) }
    requires lookahead { (arrays.lookahead.count ≤ 4) × (arrays.lookahead.at + 2 * arrays.lookahead.count ≤ length table.now) }
    requires records { (arrays.records.count ≤ 4) × (arrays.records.at + 4 * arrays.records.count ≤ length table.now) }
    ensures { short_rule result ≡ rule_of lookup_count first table.now arrays }
{
    ShortRule {
        backtrack: few_items(table, arrays.backtrack),
        input: few_after(first, table, arrays.input),
        lookahead: few_items(table, arrays.lookahead),
        records: few_records(table, arrays.records, lookup_count),
    }
}

/// Reads a rule by its arrays.
fn read_rule_of(
    alloc: Global,
    table: &[u8],
    arrays: RuleArrays,
    first: u16,
    lookup_count: usize,
) -> Result<ItemRule, TableFault>
    requires backtrack { arrays.backtrack.at + 2 * arrays.backtrack.count ≤ length table.now }
    requires input { arrays.input.at + 2 * arrays.input.count ≤ length table.now }
    requires lookahead { arrays.lookahead.at + 2 * arrays.lookahead.count ≤ length table.now }
    requires records { arrays.records.at + 4 * arrays.records.count ≤ length table.now }
    ensures ok { IfOk result (λ r. r ≡ rule_of lookup_count first table.now arrays) }
    ensures refused { IfErr result (λ e. e ≡ TableFault.OutOfMemory) }
{
    if is_short(arrays) {
        return Ok(ItemRule::short(short_rule_of(table, arrays, first, lookup_count)));
    }
    let rule = read_long_rule(alloc, table, arrays, first, lookup_count)?;
    Ok(ItemRule::long(alloc, rule)?)
}

/// Rules by glyphs or by classes, of a table of n lookups, whose inputs begin with an item that their tables leave
/// out.
#[derive(Clone, Copy)]
pub struct RuleReader {
    pub chained: bool,
    pub lookup_count: usize,
    pub first: u16,
}

impl TableReader for RuleReader {
    type Value = ItemRule;

    ghost value_at = { λ r. rule_at r.chained r.lookup_count r.first };

    ghost null_value = { λ r. empty_rule r.first };

    fn read(
        &self,
        alloc: Global,
        bytes: &[u8],
        at: usize,
        room: &mut Room,
    ) -> Result<ItemRule, TableFault> {
        let arrays = arrays_at(self.chained, 1, bytes, at)?;
        room.take(element_count(arrays))?;
        read_rule_of(alloc, bytes, arrays, self.first, self.lookup_count)
    }

    fn null(&self, _alloc: Global) -> Result<ItemRule, TableFault> {
        let mut input = ArrayVec::new();
        input.push(self.first);
        Ok(ItemRule::short(ShortRule {
            backtrack: ArrayVec::new(),
            input,
            lookahead: ArrayVec::new(),
            records: ArrayVec::new(),
        }))
    }
}
