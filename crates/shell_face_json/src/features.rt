//! Reads features, and a table's lists of them.
ghost use Rattle.std.specs.Prelude.{◌≡◌, ◌≢◌, IfOk, IfErr, Ok, Err};
ghost use Rattle.serde_json.specs.View.{view};
ghost use Rattle.shell_face_json.specs.Scripts.{feature, layout_of};

use crate::objects::{count_at, read_in_turn_at};
use crate::rising::read_rising;
use crate::rows::read_row;
use crate::value::FromJson;
use buffer_common::tag::Tag;
use layout_common::array::Array;
use layout_tables::table::{FeatureRecord, ScriptsAndFeatures};
use serde_json::Value;
use shell_json::fault::JsonFault;
use shell_json::items::list_at;
use std::alloc::Global;

impl FromJson for FeatureRecord {
    ghost font_value = { feature };

    fn from_json(alloc: Global, value: &Value, limit: usize) -> Result<FeatureRecord, JsonFault> {
        let (tag, (lookups, ())): (Tag, (Array<u16>, ())) = read_row(alloc, value, limit)?;
        Ok(FeatureRecord::new(tag, lookups.into_vec()))
    }
}

/// Reads the keys `scripts` and `features` of a layout table, whose indices must be below the lengths of its lists
/// `features` and `lookups`.
pub fn read_layout(alloc: Global, value: &Value) -> Result<ScriptsAndFeatures, JsonFault>
    ensures ok { IfOk result (λ t. layout_of (view value.now) ≡ Ok t) }
    ensures refused { IfErr result (λ e. e ≢ JsonFault.OutOfMemory
        → layout_of (view value.now) ≡ Err e) }
{
    let feature_count = count_at(value, "features");
    let lookup_count = count_at(value, "lookups");
    let scripts = read_rising(alloc, list_at(value, "scripts")?, feature_count)?;
    let features: Array<FeatureRecord> = read_in_turn_at(alloc, value, "features", lookup_count)?;
    Ok(ScriptsAndFeatures::new(scripts, features.into_vec()))
}
