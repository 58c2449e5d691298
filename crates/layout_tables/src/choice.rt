//! The script, language system and feature of a layout table that are chosen for a text (rustybuzz: hb/ot_layout.rs,
//! `LayoutTableExt`).
ghost use Rattle.std.specs.Prelude.{◌≡◌};
ghost use Rattle.std.specs.Option.{option_copied, option_map};
ghost use Rattle.layout_tables.specs.Choice.{chosen_lang_sys, chosen_script, language_feature, required_language_feature};
ghost use Rattle.layout_tables.specs.Layout.{LayoutLists};

use crate::script::{LangSys, ScriptRecord};
use crate::table::{ScriptsAndFeatures, SelectedScript};
use buffer_common::tag::Tag;

/// The choices that a table's lists leave to the tags of a text.
pub trait LayoutTableExt {
    ghost lists: { Self → LayoutLists };

    /// The first wanted script that the table has, else the script of the first of the tags `DFLT`, `dflt` and `latn` that
    /// the table has.
    fn select_script(&self, wanted: &[Tag]) -> Option<SelectedScript<'_>>
        ensures { option_map (λ s. record { found = s.found; script = s.script.now }) result
            ≡ chosen_script wanted.now (lists self.now).scripts };

    /// The system of the first wanted language that a script has, else the system tagged `dflt`, else the default system.
    fn select_script_language<'a>(
        &self,
        script: &'a ScriptRecord,
        wanted: &[Tag],
    ) -> Option<&'a LangSys>
        ensures { option_copied result ≡ chosen_lang_sys wanted.now script.now };

    /// The index and the tag of a language system's required feature, where there is one.
    fn get_required_language_feature(&self, system: &LangSys) -> Option<(u16, Tag)>
        ensures { result ≡ required_language_feature system.now (lists self.now).features };

    /// The index of the first feature of a tag that the language system has; its required feature is none of these.
    fn find_language_feature(&self, system: &LangSys, tag: Tag) -> Option<u16>
        ensures { result ≡ language_feature tag system.now (lists self.now).features };
}

impl LayoutTableExt for ScriptsAndFeatures {
    ghost lists = { λ t. t };

    fn select_script(&self, wanted: &[Tag]) -> Option<SelectedScript<'_>> {
        ScriptsAndFeatures::select_script(self, wanted)
    }

    fn select_script_language<'a>(
        &self,
        script: &'a ScriptRecord,
        wanted: &[Tag],
    ) -> Option<&'a LangSys> {
        script.select_script_language(wanted)
    }

    fn get_required_language_feature(&self, system: &LangSys) -> Option<(u16, Tag)> {
        ScriptsAndFeatures::get_required_language_feature(self, system)
    }

    fn find_language_feature(&self, system: &LangSys, tag: Tag) -> Option<u16> {
        ScriptsAndFeatures::find_language_feature(self, system, tag)
    }
}
