//! Reads context and chained-context subtables.
//!
//! The name of a format is read as that of a lookup's type is (`position_table`, `substitution_table`): each under its
//! own key, into its own type, and with names of its own.
ghost use Rattle.std.specs.Prelude.{◌≡◌, ◌≢◌, IfOk, IfErr, Ok, Err, codes};
ghost use Rattle.serde_json.specs.Find.{get};
ghost use Rattle.serde_json.specs.View.{view};
ghost use Rattle.shell_face_json.specs.Contexts.{lookup_record, rule, context, format_in, format_of, rules_in, class_rules, class_maps, no_classes, rules};
ghost use Rattle.shell_face_json.specs.Lists.{number_below};

use crate::glyphs::read_coverage_at;
use crate::objects::{object, read_in_turn_at};
use crate::rows::read_row;
use crate::value::FromJson;
use layout_common::class_definition::ClassDefinition;
use layout_tables::context::{ClassRules, ContextSubtable, SequenceLookupRecord, SequenceRule};
use layout_tables::item_rule::ItemRule;
use layout_tables::rules::SequenceRules;
use serde_json::Value;
use shell_json::fault::JsonFault;
use std::alloc::Global;

/// The formats of a context subtable, by the items of its rules: glyphs, classes or coverages (OpenType, formats 1 to
/// 3).
#[derive(Clone, Copy)]
pub enum ContextFormat {
    Glyphs,
    Classes,
    Coverage,
}

impl FromJson for SequenceLookupRecord {
    ghost font_value = { lookup_record };

    fn from_json(
        alloc: Global,
        value: &Value,
        limit: usize,
    ) -> Result<SequenceLookupRecord, JsonFault> {
        let (sequence_index, (lookup_index, ())) = read_row(alloc, value, limit)?;
        Ok(SequenceLookupRecord {
            sequence_index,
            lookup_index,
        })
    }
}

impl<I: FromJson> FromJson for SequenceRule<I> {
    ghost font_value = { λ limit. rule (I.font_value limit) (lookup_record limit) };

    fn from_json(alloc: Global, value: &Value, limit: usize) -> Result<SequenceRule<I>, JsonFault> {
        let (backtrack, (input, (lookahead, (records, ())))) = read_row(alloc, value, limit)?;
        Ok(SequenceRule {
            backtrack,
            input,
            lookahead,
            records,
        })
    }
}

impl FromJson for ItemRule {
    ghost font_value = { λ limit. rule (number_below limit) (lookup_record limit) };

    fn from_json(alloc: Global, value: &Value, limit: usize) -> Result<ItemRule, JsonFault> {
        let rule: SequenceRule<u16> = FromJson::from_json(alloc, value, limit)?;
        Ok(ItemRule::of(alloc, rule)?)
    }
}

impl FromJson for ContextSubtable {
    ghost font_value = { context };

    fn from_json(alloc: Global, value: &Value, limit: usize) -> Result<ContextSubtable, JsonFault> {
        object(value)?;
        match read_format(value)? {
            ContextFormat::Glyphs => Ok(ContextSubtable::Glyphs(read_rules(alloc, value, limit)?)),
            ContextFormat::Classes => Ok(ContextSubtable::Classes(read_class_rules(
                alloc, value, limit,
            )?)),
            ContextFormat::Coverage => Ok(ContextSubtable::Coverage(read_in_turn_at(
                alloc, value, "rules", limit,
            )?)),
        }
    }
}

/// Reads the rules of a format by glyphs or by classes.
fn read_rules(alloc: Global, value: &Value, limit: usize) -> Result<SequenceRules, JsonFault>
    ensures ok { IfOk result (λ r. rules limit (number_below limit) (view value.now) ≡ Ok r) }
    ensures refused { IfErr result (λ e. e ≢ JsonFault.OutOfMemory
        → rules limit (number_below limit) (view value.now) ≡ Err e) }
{
    Ok(SequenceRules::new(read_in_turn_at(alloc, value, "rules", limit)?))
}

fn read_format(value: &Value) -> Result<ContextFormat, JsonFault>
    ensures { result ≡ format_in (get (codes "format") (view value.now)) }
{
    match value.get("format") {
        Some(value) => match value.as_str() {
            Some(name) => format_of(name),
            None => Err(JsonFault::WrongShape),
        },
        None => Err(JsonFault::WrongShape),
    }
}

fn format_of(name: &str) -> Result<ContextFormat, JsonFault>
    ensures { result ≡ format_of name.now }
{
    match name {
        "glyphs" => Ok(ContextFormat::Glyphs),
        "classes" => Ok(ContextFormat::Classes),
        "coverage" => Ok(ContextFormat::Coverage),
        _ => Err(JsonFault::UnknownName),
    }
}

fn read_class_rules(alloc: Global, value: &Value, limit: usize) -> Result<ClassRules, JsonFault>
    ensures ok { IfOk result (λ r. class_rules limit (view value.now) ≡ Ok r) }
    ensures refused { IfErr result (λ e. e ≢ JsonFault.OutOfMemory
        → class_rules limit (view value.now) ≡ Err e) }
{
    let (backtrack, (input, (lookahead, ()))) = read_class_maps(alloc, value, limit)?;
    let first = read_coverage_at(alloc, value, "first", limit)?;
    let rules = read_rules(alloc, value, limit)?;
    Ok(ClassRules {
        first,
        backtrack,
        input,
        lookahead,
        rules,
    })
}

type ClassMaps = (ClassDefinition, (ClassDefinition, (ClassDefinition, ())));

fn read_class_maps(alloc: Global, value: &Value, limit: usize) -> Result<ClassMaps, JsonFault>
    ensures ok { IfOk result (λ m. class_maps limit (get (codes "classes") (view value.now)) ≡ Ok m) }
    ensures refused { IfErr result (λ e. e ≢ JsonFault.OutOfMemory
        → class_maps limit (get (codes "classes") (view value.now)) ≡ Err e) }
{
    match value.get("classes") {
        Some(value) => read_row(alloc, value, limit),
        None => Ok((
            no_classes(alloc),
            (no_classes(alloc), (no_classes(alloc), ())),
        )),
    }
}

fn no_classes(alloc: Global) -> ClassDefinition
    ensures { result ≡ no_classes }
{
    ClassDefinition::empty(alloc)
}
