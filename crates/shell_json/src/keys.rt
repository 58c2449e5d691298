//! The value of a key of an object.
ghost use Rattle.std.specs.Prelude.{◌≡◌};
ghost use Rattle.serde_json.specs.Find.{get};
ghost use Rattle.serde_json.specs.View.{view};
ghost use Rattle.shell_json.specs.Objects.{read_or};

use crate::cell::Cell;
use crate::fault::JsonFault;
use serde_json::Value;

/// The value of a key, or `missing` where there is no such key.
pub fn read_key<T: Cell>(value: &Value, key: &str, missing: T) -> Result<T, JsonFault>
    ensures { result ≡ read_or missing T.cell (get key.now (view value.now)) }
{
    match value.get(key) {
        Some(value) => T::read(value),
        None => Ok(missing),
    }
}
