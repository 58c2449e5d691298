//! The subtables of glyph positioning.
use crate::rows::{number, prints};
use crate::substitutions::properties;
use layout_face::positioning::{PositioningSubtables, PositioningTable};
use layout_tables::cursive::EntryExit;
use layout_tables::mark::{MarkLigPos, MarkRecord};
use layout_tables::pair::{PairPos, PairValues};
use layout_tables::pair_rows::{PairRows, second_values};
use layout_tables::value::{Anchor, ValueRecord};
use std::alloc::{AllocError, Global};

fn subtables(table: &PositioningTable, index: u16) -> Option<&PositioningSubtables> {
    Some(table.get_lookup(index)?.subtables.inner())
}

fn single_value(table: &PositioningTable, glyph: u16) -> Option<ValueRecord> {
    match subtables(table, 0)? {
        PositioningSubtables::Single(subtables) => subtables.get(0)?.inner().value(glyph),
        _ => None,
    }
}

fn entry_exit(table: &PositioningTable, glyph: u16) -> Option<EntryExit> {
    match subtables(table, 2)? {
        PositioningSubtables::Cursive(subtables) => subtables.get(0)?.inner().entry_exit(glyph),
        _ => None,
    }
}

fn pair_subtable(table: &PositioningTable, subtable: usize) -> Option<&PairPos> {
    match subtables(table, 1)? {
        PositioningSubtables::Pair(subtables) => Some(subtables.get(subtable)?.inner()),
        _ => None,
    }
}

fn pair_rows(table: &PositioningTable, subtable: usize) -> Option<&PairRows> {
    match pair_subtable(table, subtable)? {
        PairPos::Glyphs(pairs) => Some(&pairs.rows),
        PairPos::Classes(_) => None,
    }
}

fn pair_count(table: &PositioningTable, subtable: usize) -> Option<usize> {
    Some(pair_rows(table, subtable)?.as_slice().len())
}

fn second_count(table: &PositioningTable, subtable: usize, first: u16) -> Option<usize> {
    Some(pair_rows(table, subtable)?.rows_of(first).len())
}

fn pair_values(
    table: &PositioningTable,
    subtable: usize,
    first: u16,
    second: u16,
) -> Option<PairValues> {
    match pair_subtable(table, subtable)? {
        PairPos::Glyphs(pairs) => second_values(pairs.rows.rows_of(first), second),
        PairPos::Classes(pairs) => pairs.values(first, second),
    }
}

fn pair_advance(
    table: &PositioningTable,
    subtable: usize,
    first: u16,
    second: u16,
) -> Option<(i16, bool)> {
    let values = pair_values(table, subtable, first, second)?;
    Some((values.first.x_advance, values.second.is_some()))
}

/// The record of the mark 9 in a lookup.
fn mark(table: &PositioningTable, index: u16) -> Option<MarkRecord> {
    match subtables(table, index)? {
        PositioningSubtables::MarkToBase(subtables) | PositioningSubtables::MarkToMark(subtables) =>
            subtables.get(0)?.inner().mark(9),
        PositioningSubtables::MarkToLigature(subtables) => subtables.get(0)?.inner().mark(9),
        _ => None,
    }
}

fn base_anchor(table: &PositioningTable, glyph: u16, class: u16) -> Option<Anchor> {
    match subtables(table, 3)? {
        PositioningSubtables::MarkToBase(subtables) => subtables
            .get(0)?
            .inner()
            .base_anchor(glyph, class),
        _ => None,
    }
}

fn ligature_marks(table: &PositioningTable) -> Option<&MarkLigPos> {
    match subtables(table, 4)? {
        PositioningSubtables::MarkToLigature(subtables) => Some(subtables.get(0)?.inner()),
        _ => None,
    }
}

fn component_anchor(table: &PositioningTable, component: usize, class: u16) -> Option<Anchor> {
    ligature_marks(table)?.component_anchor(4, component, class)
}

fn component_count(table: &PositioningTable, glyph: u16) -> Option<usize> {
    ligature_marks(table)?.component_count(glyph)
}

/// Whether a table's answer to a question is that of its row.
pub(crate) fn answers(
    alloc: Global,
    table: &PositioningTable,
    question: &str,
    numbers: &[u16],
    answer: &str,
) -> Result<bool, AllocError> {
    let (first, second, third) = (number(numbers, 0), number(numbers, 1), number(numbers, 2));
    match question {
        "single" => prints(alloc, &single_value(table, first), answer),
        "cursive" => prints(alloc, &entry_exit(table, first), answer),
        "pair" => prints(
            alloc,
            &pair_advance(table, usize::from(first), second, third),
            answer,
        ),
        "pairs" => prints(alloc, &pair_count(table, usize::from(first)), answer),
        "seconds" => prints(
            alloc,
            &second_count(table, usize::from(first), second),
            answer,
        ),
        "mark" => prints(alloc, &mark(table, first), answer),
        "base" => prints(alloc, &base_anchor(table, first, second), answer),
        "component" => prints(
            alloc,
            &component_anchor(table, usize::from(first), second),
            answer,
        ),
        "components" => prints(alloc, &component_count(table, first), answer),
        "properties" => prints(alloc, &properties(table, first), answer),
        _ => Ok(false),
    }
}
