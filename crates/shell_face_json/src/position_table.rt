//! Reads the GPOS table.
//!
//! GSUB's file has the same form: the lookups of the two tables are types of their own, as in rustybuzz.
ghost use Rattle.std.specs.Prelude.{◌≡◌, ◌≢◌, IfOk, IfErr, Ok, Err, codes};
ghost use Rattle.serde_json.specs.Find.{get};
ghost use Rattle.serde_json.specs.View.{view};
ghost use Rattle.shell_face_json.specs.PositionTable.{positioning_type_in, positioning_type_of, positionings, positioning_lookup, positioning_table};

use crate::features::read_layout;
use crate::lookups::read_lookups;
use crate::objects::{object, read_optional_at, subtables};
use crate::value::FromJson;
use layout_face::positioning::{PositioningLookup, PositioningSubtables, PositioningTable};
use serde_json::Value;
use shell_json::fault::JsonFault;
use shell_json::keys::read_key;
use std::alloc::Global;

/// The GPOS lookup types.
#[derive(Clone, Copy)]
pub enum PositioningType {
    Single,
    Pair,
    Cursive,
    MarkToBase,
    MarkToLigature,
    MarkToMark,
    Context,
    ChainContext,
}

fn positioning_type(value: &Value) -> Result<PositioningType, JsonFault>
    ensures { result ≡ positioning_type_in (get (codes "type") (view value.now)) }
{
    match value.get("type") {
        Some(value) => match value.as_str() {
            Some(name) => positioning_type_of(name),
            None => Err(JsonFault::WrongShape),
        },
        None => Err(JsonFault::WrongShape),
    }
}

fn positioning_type_of(name: &str) -> Result<PositioningType, JsonFault>
    ensures { result ≡ positioning_type_of name.now }
{
    match name {
        "single" => Ok(PositioningType::Single),
        "pair" => Ok(PositioningType::Pair),
        "cursive" => Ok(PositioningType::Cursive),
        "markbase" => Ok(PositioningType::MarkToBase),
        "marklig" => Ok(PositioningType::MarkToLigature),
        "markmark" => Ok(PositioningType::MarkToMark),
        "context" => Ok(PositioningType::Context),
        "chain" => Ok(PositioningType::ChainContext),
        _ => Err(JsonFault::UnknownName),
    }
}

fn read_subtables(
    alloc: Global,
    value: &Value,
    lookup_type: PositioningType,
) -> Result<PositioningSubtables, JsonFault>
    ensures ok { IfOk result (λ s. positionings lookup_type (view value.now) ≡ Ok s) }
    ensures refused { IfErr result (λ e. e ≢ JsonFault.OutOfMemory
        → positionings lookup_type (view value.now) ≡ Err e) }
{
    match lookup_type {
        PositioningType::Single => Ok(PositioningSubtables::Single(subtables(alloc, value)?)),
        PositioningType::Pair => Ok(PositioningSubtables::Pair(subtables(alloc, value)?)),
        PositioningType::Cursive => Ok(PositioningSubtables::Cursive(subtables(alloc, value)?)),
        PositioningType::MarkToBase => {
            Ok(PositioningSubtables::MarkToBase(subtables(alloc, value)?))
        }
        PositioningType::MarkToLigature => {
            Ok(PositioningSubtables::MarkToLigature(subtables(alloc, value)?))
        }
        PositioningType::MarkToMark => {
            Ok(PositioningSubtables::MarkToMark(subtables(alloc, value)?))
        }
        PositioningType::Context => Ok(PositioningSubtables::Context(subtables(alloc, value)?)),
        PositioningType::ChainContext => {
            Ok(PositioningSubtables::ChainContext(subtables(alloc, value)?))
        }
    }
}

impl FromJson for PositioningLookup {
    ghost font_value = { positioning_lookup };

    fn from_json(
        alloc: Global,
        value: &Value,
        limit: usize,
    ) -> Result<PositioningLookup, JsonFault> {
        object(value)?;
        let flags = read_key(value, "flags", 0u16)?;
        let mark_filtering_set = read_optional_at(alloc, value, "set", limit)?;
        let lookup_type = positioning_type(value)?;
        let subtables = read_subtables(alloc, value, lookup_type)?;
        Ok(PositioningLookup::parse(flags, mark_filtering_set, subtables))
    }
}

impl FromJson for PositioningTable {
    ghost font_value = { positioning_table };

    fn from_json(
        alloc: Global,
        value: &Value,
        limit: usize,
    ) -> Result<PositioningTable, JsonFault> {
        object(value)?;
        let inner = read_layout(alloc, value)?;
        let lookups = read_lookups(alloc, value, limit)?;
        Ok(PositioningTable { inner, lookups })
    }
}
