//! Names of numbers.
ghost use Rattle.std.specs.Prelude.{◌≡◌};
ghost use Rattle.serde_json.specs.View.{view};
ghost use Rattle.script_categories.specs.Indic.{ot_categories, ot_positions};
ghost use Rattle.script_categories.specs.Joining.{joining_type_names};
ghost use Rattle.script_categories.specs.Shapers.{categories_of, kinds_of};
ghost use Rattle.script_categories.specs.Thai.{thai_actions};
ghost use Rattle.script_categories.specs.Universal.{universal_categories};
ghost use Rattle.shell_tables_json.specs.Rows.{number_of_name};

use script_categories::{
    hb_ot_script_shaper_t, indic_category_number, indic_position_number, joining_type_number,
    thai_action_number, universal_category_number,
};
use serde_json::Value;
use shell_json::fault::JsonFault;
use shell_json::items::text;

/// The number of a joining type, by its name.
pub fn joining_type_of_name(value: &Value) -> Result<u8, JsonFault>
    ensures { result ≡ number_of_name joining_type_names (view value.now) }
{
    joining_type_number(text(value)?).ok_or(JsonFault::UnknownName)
}

/// The number of an Indic syllabic category, by its name.
pub fn indic_category_of_name(value: &Value) -> Result<u8, JsonFault>
    ensures { result ≡ number_of_name ot_categories (view value.now) }
{
    indic_category_number(text(value)?).ok_or(JsonFault::UnknownName)
}

/// The number of an Indic position, by its name.
pub fn indic_position_of_name(value: &Value) -> Result<u8, JsonFault>
    ensures { result ≡ number_of_name ot_positions (view value.now) }
{
    indic_position_number(text(value)?).ok_or(JsonFault::UnknownName)
}

/// The number of a category of the universal shaper, by its name.
pub fn universal_category_of_name(value: &Value) -> Result<u8, JsonFault>
    ensures { result ≡ number_of_name universal_categories (view value.now) }
{
    universal_category_number(text(value)?).ok_or(JsonFault::UnknownName)
}

/// The number of a Thai action, by its name.
pub fn thai_action_of_name(value: &Value) -> Result<u8, JsonFault>
    ensures { result ≡ number_of_name thai_actions (view value.now) }
{
    thai_action_number(text(value)?).ok_or(JsonFault::UnknownName)
}

/// The number of a category of a shaper's syllables, by its name.
pub fn category_of_name(shaper: hb_ot_script_shaper_t, value: &Value) -> Result<u8, JsonFault>
    ensures { result ≡ number_of_name (categories_of shaper) (view value.now) }
{
    shaper
        .category_number(text(value)?)
        .ok_or(JsonFault::UnknownName)
}

/// The number of a kind of a shaper's syllables, by its name.
pub fn kind_of_name(shaper: hb_ot_script_shaper_t, value: &Value) -> Result<u8, JsonFault>
    ensures { result ≡ number_of_name (kinds_of shaper) (view value.now) }
{
    shaper
        .kind_number(text(value)?)
        .ok_or(JsonFault::UnknownName)
}
