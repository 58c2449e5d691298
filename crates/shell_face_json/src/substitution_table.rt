//! Reads the GSUB table.
//!
//! GPOS's file has the same form: the lookups of the two tables are types of their own, as in rustybuzz.
ghost use Rattle.std.specs.Prelude.{◌≡◌, ◌≢◌, IfOk, IfErr, Ok, Err, codes};
ghost use Rattle.serde_json.specs.Find.{get};
ghost use Rattle.serde_json.specs.View.{view};
ghost use Rattle.shell_face_json.specs.SubstitutionTable.{substitution_type_in, substitution_type_of, substitutions, substitution_lookup, substitution_table};

use crate::features::read_layout;
use crate::glyphs::GLYPH_LIMIT;
use crate::lookups::read_lookups;
use crate::objects::{object, read_optional_at, subtables};
use crate::value::FromJson;
use layout_face::substitution::{SubstLookup, SubstitutionSubtables, SubstitutionTable};
use serde_json::Value;
use shell_json::fault::JsonFault;
use shell_json::keys::read_key;
use std::alloc::Global;

/// The GSUB lookup types.
#[derive(Clone, Copy)]
pub enum SubstitutionType {
    Single,
    Multiple,
    Alternate,
    Ligature,
    Context,
    ChainContext,
    ReverseChainSingle,
}

fn substitution_type(value: &Value) -> Result<SubstitutionType, JsonFault>
    ensures { result ≡ substitution_type_in (get (codes "type") (view value.now)) }
{
    match value.get("type") {
        Some(value) => match value.as_str() {
            Some(name) => substitution_type_of(name),
            None => Err(JsonFault::WrongShape),
        },
        None => Err(JsonFault::WrongShape),
    }
}

fn substitution_type_of(name: &str) -> Result<SubstitutionType, JsonFault>
    ensures { result ≡ substitution_type_of name.now }
{
    match name {
        "single" => Ok(SubstitutionType::Single),
        "multiple" => Ok(SubstitutionType::Multiple),
        "alternate" => Ok(SubstitutionType::Alternate),
        "ligature" => Ok(SubstitutionType::Ligature),
        "context" => Ok(SubstitutionType::Context),
        "chain" => Ok(SubstitutionType::ChainContext),
        "reverse" => Ok(SubstitutionType::ReverseChainSingle),
        _ => Err(JsonFault::UnknownName),
    }
}

fn read_subtables(
    alloc: Global,
    value: &Value,
    lookup_type: SubstitutionType,
) -> Result<SubstitutionSubtables, JsonFault>
    ensures ok { IfOk result (λ s. substitutions lookup_type (view value.now) ≡ Ok s) }
    ensures refused { IfErr result (λ e. e ≢ JsonFault.OutOfMemory
        → substitutions lookup_type (view value.now) ≡ Err e) }
{
    match lookup_type {
        SubstitutionType::Single => Ok(SubstitutionSubtables::Single(subtables(alloc, value)?)),
        SubstitutionType::Multiple => Ok(SubstitutionSubtables::Multiple(subtables(alloc, value)?)),
        SubstitutionType::Alternate => {
            Ok(SubstitutionSubtables::Alternate(subtables(alloc, value)?))
        }
        SubstitutionType::Ligature => Ok(SubstitutionSubtables::Ligature(subtables(alloc, value)?)),
        SubstitutionType::Context => Ok(SubstitutionSubtables::Context(subtables(alloc, value)?)),
        SubstitutionType::ChainContext => {
            Ok(SubstitutionSubtables::ChainContext(subtables(alloc, value)?))
        }
        SubstitutionType::ReverseChainSingle => {
            Ok(SubstitutionSubtables::ReverseChainSingle(subtables(alloc, value)?))
        }
    }
}

impl FromJson for SubstLookup {
    ghost font_value = { substitution_lookup };

    fn from_json(alloc: Global, value: &Value, limit: usize) -> Result<SubstLookup, JsonFault> {
        object(value)?;
        let flags = read_key(value, "flags", 0u16)?;
        let mark_filtering_set = read_optional_at(alloc, value, "set", limit)?;
        let lookup_type = substitution_type(value)?;
        let subtables = read_subtables(alloc, value, lookup_type)?;
        Ok(SubstLookup::parse(flags, mark_filtering_set, subtables))
    }
}

impl FromJson for SubstitutionTable {
    ghost font_value = { substitution_table };

    fn from_json(
        alloc: Global,
        value: &Value,
        limit: usize,
    ) -> Result<SubstitutionTable, JsonFault> {
        object(value)?;
        let inner = read_layout(alloc, value)?;
        let lookups = read_lookups(alloc, value, limit)?;
        Ok(SubstitutionTable { inner, lookups })
    }
}
