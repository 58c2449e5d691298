//! The subtables of glyph substitution.
use crate::rows::{number, prints};
use layout_common::digest::hb_set_digest_ext;
use layout_face::layout::{LayoutLookup, LayoutTable};
use layout_face::substitution::{SubstitutionSubtables, SubstitutionTable};
use layout_face::would_apply::lookup::would_apply;
use layout_face::would_apply::{WouldApply, WouldApplyContext};
use layout_tables::context::ContextSubtable;
use layout_tables::ligature::LigatureSet;
use std::alloc::{AllocError, Global};

fn subtables(table: &SubstitutionTable, index: u16) -> Option<&SubstitutionSubtables> {
    Some(table.get_lookup(index)?.subtables.inner())
}

/// The substitute of a glyph by a single or a reverse lookup.
fn substitute(table: &SubstitutionTable, index: u16, glyph: u16) -> Option<u16> {
    match subtables(table, index)? {
        SubstitutionSubtables::Single(subtables) => subtables.get(0)?.inner().substitute(glyph),
        SubstitutionSubtables::ReverseChainSingle(subtables) => {
            subtables.get(0)?.inner().substitute(glyph)
        }
        _ => None,
    }
}

/// The sequence of a glyph, or its alternates.
fn sequence(table: &SubstitutionTable, index: u16, glyph: u16) -> Option<&[u16]> {
    match subtables(table, index)? {
        SubstitutionSubtables::Multiple(subtables) => subtables.get(0)?.inner().sequence(glyph),
        SubstitutionSubtables::Alternate(subtables) => subtables.get(0)?.inner().alternates(glyph),
        _ => None,
    }
}

fn ligature_set(table: &SubstitutionTable, index: u16, glyph: u16) -> Option<&LigatureSet> {
    match subtables(table, index)? {
        SubstitutionSubtables::Ligature(subtables) => subtables.get(0)?.inner().set_of(glyph),
        _ => None,
    }
}

/// The first glyph of ligatures, their number, and the glyph of the first.
fn ligatures(table: &SubstitutionTable, index: u16, glyph: u16) -> Option<(u16, usize, u16)> {
    let set = ligature_set(table, index, glyph)?;
    let ligatures = set.ligatures();
    Some((set.first(), ligatures.len(), ligatures.first()?.glyph()))
}

/// The glyphs after the first of the first ligature of a first glyph.
fn components(table: &SubstitutionTable, index: u16, glyph: u16) -> Option<&[u16]> {
    let ligatures = ligature_set(table, index, glyph)?.ligatures();
    Some(ligatures.first()?.components())
}

fn context(table: &SubstitutionTable, index: u16, subtable: usize) -> Option<&ContextSubtable> {
    match subtables(table, index)? {
        SubstitutionSubtables::Context(subtables)
        | SubstitutionSubtables::ChainContext(subtables) => Some(subtables.get(subtable)?.inner()),
        _ => None,
    }
}

fn rule_count(table: &SubstitutionTable, index: u16, subtable: usize) -> Option<usize> {
    match context(table, index, subtable)? {
        ContextSubtable::Glyphs(rules) => Some(rules.len()),
        ContextSubtable::Classes(rules) => Some(rules.rules.len()),
        ContextSubtable::Coverage(rules) => Some(rules.len()),
    }
}

/// Whether a glyph may be the first of class-based rules, and its backtrack and input classes.
fn classes_of(table: &SubstitutionTable, glyph: u16) -> Option<(bool, u16, u16)> {
    let ContextSubtable::Classes(rules) = context(table, 5, 0)? else {
        return None;
    };
    let before = rules.backtrack.class_of(glyph);
    Some((
        rules.first.contains(glyph),
        before,
        rules.input.class_of(glyph),
    ))
}

/// Whether the first subtable and the lookup would apply where the glyphs are all their input.
fn would(
    table: &SubstitutionTable,
    index: u16,
    zero_context: bool,
    glyphs: &[u16],
) -> Option<(bool, bool)> {
    let ctx = WouldApplyContext {
        glyphs,
        zero_context,
    };
    Some((
        context(table, index, 0)?.would_apply(&ctx),
        would_apply(table.get_lookup(index)?, &ctx),
    ))
}

/// Whether the digests of the first subtable and of the lookup may have a glyph.
fn digests_with(table: &SubstitutionTable, index: u16, glyph: u16) -> Option<(bool, bool)> {
    let subtable = match subtables(table, index)? {
        SubstitutionSubtables::Context(subtables)
        | SubstitutionSubtables::ChainContext(subtables) => {
            subtables.get(0)?.may_have_glyph(glyph)
        }
        _ => return None,
    };
    let digest = LayoutLookup::digest(table.get_lookup(index)?);
    Some((subtable, digest.may_have_glyph(glyph)))
}

/// The properties of a lookup of either table, and whether it is applied from the end of the text.
pub(crate) fn properties<T: LayoutTable>(table: &T, index: u16) -> Option<(u32, bool)> {
    let lookup = table.get_lookup(index)?;
    Some((lookup.props(), lookup.is_reverse()))
}

/// Whether a table's answer to a question is that of its row.
pub(crate) fn answers(
    alloc: Global,
    table: &SubstitutionTable,
    question: &str,
    numbers: &[u16],
    answer: &str,
) -> Result<bool, AllocError> {
    let (first, second) = (number(numbers, 0), number(numbers, 1));
    match question {
        "substitute" => prints(alloc, &substitute(table, first, second), answer),
        "sequence" => prints(alloc, &sequence(table, first, second), answer),
        "ligatures" => prints(alloc, &ligatures(table, first, second), answer),
        "components" => prints(alloc, &components(table, first, second), answer),
        "rules" => prints(
            alloc,
            &rule_count(table, first, usize::from(second)),
            answer,
        ),
        "classes" => prints(alloc, &classes_of(table, first), answer),
        "properties" => prints(alloc, &properties(table, first), answer),
        "may" => prints(alloc, &digests_with(table, first, second), answer),
        _ => match numbers {
            [_, _, glyphs @ ..] => prints(alloc, &would(table, first, second == 1, glyphs), answer),
            _ => Ok(false),
        },
    }
}
