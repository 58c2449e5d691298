//! Writes scripts, language systems and features.
ghost use Rattle.std.specs.Prelude.{◌≡◌, ◌++◌, OnOk};
ghost use Rattle.shell_print_json.specs.Tokens.{value_tokens};
ghost use Rattle.shell_print_json.specs.Values.{list_of};
ghost use Rattle.shell_face_print.specs.Scripts.{feature_json, lang_sys_entry_json, lang_sys_json, layout_json, script_json};

use crate::lists::{Listed, PrintableRecords};
use crate::objects::{write_object_last1, write_object3};
use crate::rows::{write_row2, write_row3};
use crate::value::ToJson;
use layout_common::array::Array;
use layout_tables::script::{LangSys, LangSysRecord, ScriptRecord};
use layout_tables::table::{FeatureRecord, ScriptsAndFeatures};
use shell_print_json::JsonText;
use std::alloc::AllocError;

impl ToJson for LangSys {
    ghost json = { lang_sys_json };

    fn write(&self, text: &mut JsonText) -> Result<(), AllocError> {
        let features = Listed {
            items: self.features(),
        };
        write_object_last1(
            ("features", &features),
            ("required", &self.required_feature()),
            text,
        )
    }
}

impl ToJson for LangSysRecord {
    ghost json = { lang_sys_entry_json };

    fn write(&self, text: &mut JsonText) -> Result<(), AllocError> {
        write_row2(&self.tag(), self.lang_sys(), text)
    }
}

impl ToJson for ScriptRecord {
    ghost json = { script_json };

    #[tactic(auto, using(crate::proofs::Steps::or_null_copied))]
    fn write(&self, text: &mut JsonText) -> Result<(), AllocError> {
        let systems = PrintableRecords {
            records: self.lang_systems(),
        };
        write_row3(&self.tag(), &self.default_lang_sys(), &systems, text)
    }
}

impl ToJson for FeatureRecord {
    ghost json = { feature_json };

    fn write(&self, text: &mut JsonText) -> Result<(), AllocError> {
        let lookups = Listed {
            items: self.lookups(),
        };
        write_row2(&self.tag(), &lookups, text)
    }
}

/// Appends a layout table.
pub(crate) fn write_layout<L: ToJson>(
    lists: &ScriptsAndFeatures,
    lookups: &Array<L>,
    text: &mut JsonText,
) -> Result<(), AllocError>
    ensures { OnOk result (text.new ≡ text.old ++ value_tokens (layout_json lists.now (list_of L.json lookups.now))) }
{
    let scripts = PrintableRecords {
        records: lists.scripts(),
    };
    let features = Listed {
        items: lists.features(),
    };
    write_object3(
        ("scripts", &scripts),
        ("features", &features),
        ("lookups", lookups),
        text,
    )
}
