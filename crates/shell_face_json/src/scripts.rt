//! Reads scripts and language systems.
ghost use Rattle.shell_face_json.specs.Scripts.{lang_sys, lang_sys_entry, script};

use crate::objects::{object, read_list_at, read_optional_at};
use crate::rows::read_row;
use crate::value::FromJson;
use buffer_common::tag::Tag;
use layout_common::array::Array;
use layout_tables::is_rising;
use layout_tables::script::{LangSys, LangSysRecord, ScriptRecord};
use serde_json::Value;
use shell_json::cell::pair;
use shell_json::fault::JsonFault;
use std::alloc::Global;

impl FromJson for LangSys {
    ghost font_value = { lang_sys };

    fn from_json(alloc: Global, value: &Value, limit: usize) -> Result<LangSys, JsonFault> {
        object(value)?;
        let required = read_optional_at::<u16>(alloc, value, "required", limit);
        let (required, features) = pair(required, read_list_at(alloc, value, "features", limit))?;
        Ok(LangSys::new(required, features))
    }
}

impl FromJson for LangSysRecord {
    ghost font_value = { lang_sys_entry };

    fn from_json(alloc: Global, value: &Value, limit: usize) -> Result<LangSysRecord, JsonFault> {
        let (tag, (lang_sys, ())): (Tag, (LangSys, ())) = read_row(alloc, value, limit)?;
        Ok(LangSysRecord::new(tag, lang_sys))
    }
}

impl FromJson for ScriptRecord {
    ghost font_value = { script };

    fn from_json(alloc: Global, value: &Value, limit: usize) -> Result<ScriptRecord, JsonFault> {
        let (tag, (default, (systems, ()))): (Tag, (Option<LangSys>, (Array<LangSysRecord>, ()))) =
            read_row(alloc, value, limit)?;
        let systems = systems.into_vec();
        if !is_rising(&systems) {
            return Err(JsonFault::OutOfOrder);
        }
        Ok(ScriptRecord::new(tag, default, systems))
    }
}
