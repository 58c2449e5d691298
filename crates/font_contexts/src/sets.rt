//! Sets of rules (OpenType, chapter 2, sequence rule set and chained sequence rule set tables).
ghost use Rattle.std.specs.Prelude.{◌≡◌, ◌≢◌, ◌≤◌, ◌+◌, ◌*◌, ◌++◌, IfOk, IfErr, Ok, Err, length};
ghost use Rattle.font_bytes.specs.declared.fault.TableFault.{TableFault};
ghost use Rattle.font_common.specs.Offsets.{after, list_at, tables_at};
ghost use Rattle.font_contexts.specs.Rules.{empty_rule, rule_at, rule_set_at, rules_at_offset, rules_of_sets};
ghost use Rattle.font_contexts.specs.Contexts.{class_rules_at, glyph_rules_at, glyph_sets, class_sets};

use crate::arrays::counted_array;
use crate::rules::RuleReader;
use font_bytes::fault::TableFault;
use font_bytes::room::Room;
use font_bytes::words::{fits, need, word};
use font_common::coverage::{numbers_below, read_glyphs_in_room};
use font_common::offsets::read_at_offset;
use font_common::rows::first_rows;
use font_common::words::read_word_rows;
use layout_common::glyph_row::GlyphRow;
use layout_tables::item_rule::ItemRule;
use std::alloc::Global;

/// Appends the rules of an array of n offsets, which count from a base. An offset takes a row of room.
fn push_rules(
    rules: &mut Vec<ItemRule>,
    alloc: Global,
    reader: RuleReader,
    table: &[u8],
    base: usize,
    count: usize,
    room: &mut Room,
) -> Result<(), TableFault>
    requires { base + 2 + 2 * count ≤ length table.now }
    ensures ok { IfOk result (λ _. after rules.old.items (tables_at (empty_rule reader.first)
        (rule_at reader.chained reader.lookup_count reader.first) table.now base (base + 2) count room.old.left)
        ≡ Ok (rules.new.items, room.new.left)) }
    ensures refused { IfErr result (λ e. e ≢ TableFault.OutOfMemory → tables_at (empty_rule reader.first)
        (rule_at reader.chained reader.lookup_count reader.first) table.now base (base + 2) count room.old.left ≡ Err e) }
{
    room.take(count)?;
    for index in 0..count {
        let offset = u32::from(word(table, base + 2 + 2 * index));
        let rule = read_at_offset(&reader, alloc, table, base, offset, room)?;
        rules.push(rule)?;
    }
    Ok(())
}

/// Appends the rules of the set at an offset from a base, none where the offset is null.
fn push_set(
    rules: &mut Vec<ItemRule>,
    alloc: Global,
    reader: RuleReader,
    table: &[u8],
    base: usize,
    offset: u16,
    room: &mut Room,
) -> Result<(), TableFault>
    requires { base ≤ length table.now }
    ensures ok { IfOk result (λ _. after rules.old.items (rules_at_offset reader.chained reader.lookup_count table.now base
        reader.first room.old.left offset) ≡ Ok (rules.new.items, room.new.left)) }
    ensures refused { IfErr result (λ e. e ≢ TableFault.OutOfMemory → rules_at_offset reader.chained reader.lookup_count
        table.now base reader.first room.old.left offset ≡ Err e) }
{
    if offset == 0 {
        return Ok(());
    }
    let at = base + usize::from(offset);
    need(table, at, 2)?;
    let count = usize::from(word(table, at));
    need(table, at + 2, 2 * count)?;
    push_rules(rules, alloc, reader, table, at, count, room)
}

/// How many rules the set at an offset from a base has; 0 where the offset is null, or the table ends before its offsets.
fn set_size(table: &[u8], base: usize, offset: u16) -> usize
    requires { base ≤ length table.now }
{
    if offset == 0 {
        return 0;
    }
    let at = base + usize::from(offset);
    if !fits(table, at, 2) {
        return 0;
    }
    let count = usize::from(word(table, at));
    if fits(table, at + 2, 2 * count) {
        count
    } else {
        0
    }
}

/// How many rules sets have, at most as many as the table has room for their offsets.
fn rule_count(table: &[u8], base: usize, sets: &[GlyphRow<u16>]) -> usize
    requires { base ≤ length table.now }
{
    let mut count = 0usize;
    for set in sets {
        count = count.saturating_add(set_size(table, base, set.value));
    }
    count.min(table.len() / 2)
}

/// Reads the rules of sets, each with the item with which its inputs begin and its offset from a base.
fn read_sets(
    alloc: Global,
    chained: bool,
    lookup_count: usize,
    table: &[u8],
    base: usize,
    sets: &[GlyphRow<u16>],
    room: &mut Room,
) -> Result<Vec<ItemRule>, TableFault>
    requires { base ≤ length table.now }
    ensures ok { IfOk result (λ v. rules_of_sets (rules_at_offset chained lookup_count table.now base) room.old.left sets.now
        ≡ Ok (v.items, room.new.left)) }
    ensures refused { IfErr result (λ e. e ≢ TableFault.OutOfMemory
        → rules_of_sets (rules_at_offset chained lookup_count table.now base) room.old.left sets.now ≡ Err e) }
{
    let mut rules = Vec::with_capacity(alloc, rule_count(table, base, sets))?;
    for set in sets {
        let reader = RuleReader {
            chained,
            lookup_count,
            first: set.glyph,
        };
        push_set(&mut rules, alloc, reader, table, base, set.value, room)?;
    }
    Ok(rules)
}

/// Reads the rules of format 1.
pub fn read_glyph_rules(
    alloc: Global,
    chained: bool,
    lookup_count: usize,
    table: &[u8],
    at: usize,
    room: &mut Room,
) -> Result<Vec<ItemRule>, TableFault>
    ensures ok { IfOk result (λ v. glyph_rules_at chained lookup_count room.old.left table.now at ≡ Ok (v.items, room.new.left)) }
    ensures refused { IfErr result (λ e. e ≢ TableFault.OutOfMemory
        → glyph_rules_at chained lookup_count room.old.left table.now at ≡ Err e) }
{
    need(table, at, 4)?;
    let sets = counted_array(2, 0, table, at + 4)?;
    room.take(sets.count)?;
    let glyphs = read_glyphs_in_room(alloc, table, at, u32::from(word(table, at + 2)), room)?;
    let rows = read_word_rows(alloc, table, sets.at, sets.count, &glyphs)?;
    let firsts = first_rows(alloc, rows)?;
    read_sets(
        alloc,
        chained,
        lookup_count,
        table,
        at,
        firsts.as_slice(),
        room,
    )
}

/// Reads the rules of format 2, whose sets begin at an offset.
pub fn read_class_rules(
    alloc: Global,
    chained: bool,
    lookup_count: usize,
    table: &[u8],
    base: usize,
    at: usize,
    room: &mut Room,
) -> Result<Vec<ItemRule>, TableFault>
    requires { base ≤ length table.now }
    ensures ok { IfOk result (λ v. class_rules_at chained lookup_count table.now base at room.old.left ≡ Ok (v.items, room.new.left)) }
    ensures refused { IfErr result (λ e. e ≢ TableFault.OutOfMemory
        → class_rules_at chained lookup_count table.now base at room.old.left ≡ Err e) }
{
    let sets = counted_array(2, 0, table, at)?;
    room.take(sets.count)?;
    let classes = numbers_below(alloc, sets.count)?;
    let rows = read_word_rows(alloc, table, sets.at, sets.count, &classes)?;
    read_sets(alloc, chained, lookup_count, table, base, &rows, room)
}
