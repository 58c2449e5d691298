//! What a reader of JSON values makes of one value.

ghost use Rattle.std.specs.Prelude.{◌≡◌, ◌≢◌, ℕ, IfOk, IfErr, Ok, Err, Result};
ghost use Rattle.serde_json.specs.Data.{Data};
ghost use Rattle.serde_json.specs.View.{view};
ghost use Rattle.shell_json.specs.declared.fault.JsonFault.{JsonFault};
ghost use Rattle.shell_face_json.specs.Lists.{or_null};

use layout_common::digested::{Covers, Digested};
use serde_json::Value;
use shell_json::fault::JsonFault;
use std::alloc::Global;

/// An item of a row, or a row: a number, a text, a list.
pub trait FromJson: Drop {
    ghost font_value: { ℕ → Data → Result Self JsonFault };

    /// Reads a value, in which each index must be below a limit: the length of the list that it points into.
    fn from_json(alloc: Global, value: &Value, limit: usize) -> Result<Self, JsonFault>
        ensures ok { IfOk result (λ p. font_value limit (view value.now) ≡ Ok p) }
        ensures refused { IfErr result (λ e. e ≢ JsonFault.OutOfMemory
            → font_value limit (view value.now) ≡ Err e) };
}

impl<P: FromJson> FromJson for Option<P> {
    ghost font_value = { λ limit. or_null (P.font_value limit) };

    fn from_json(alloc: Global, value: &Value, limit: usize) -> Result<Option<P>, JsonFault> {
        match value {
            Value::Null => Ok(None),
            _ => Ok(Some(P::from_json(alloc, value, limit)?)),
        }
    }
}

/// A subtable with the set of the glyphs at which it can act.
impl<S: FromJson + Covers> FromJson for Digested<S> {
    ghost font_value = { S.font_value };

    fn from_json(alloc: Global, value: &Value, limit: usize) -> Result<Digested<S>, JsonFault> {
        Ok(Digested::new(S::from_json(alloc, value, limit)?))
    }
}
