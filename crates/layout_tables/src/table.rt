//! The lists of a layout table (OpenType, chapter 2).
//!
//! Rows of other tables have the same form, each with its own key.
ghost use Rattle.std.specs.Prelude.{◌≡◌, None, true, slice_get};
ghost use Rattle.std.specs.Option.{option_copied, option_map};
ghost use Rattle.layout_tables.specs.Choice.{ChosenScript, first_script, default_scripts, chosen_script, has_tag_at, language_feature, required_language_feature};
ghost use Rattle.layout_tables.specs.Keyed.{is_rising};
ghost use Rattle.layout_tables.specs.Layout.{FeatureTable, LayoutLists, script_with};

use crate::keyed::{find_first, find_keyed};
use crate::script::{LangSys, ScriptRecord};
use buffer_common::tag::{Tag, TagExt};
use std::marker::Model;

/// A feature with its tag and its lookups, each by its index in the table's list of lookups.
#[derive(Debug, Drop)]
pub struct FeatureRecord {
    tag: Tag,
    lookups: Vec<u16>,
}

impl Model for FeatureRecord {
    ghost use Rattle.layout_tables.specs.Layout.{FeatureTable};

    ghost Value = { FeatureTable };

    ghost view = { λ f. record { tag = f.tag; lookups = f.lookups.items } };
}

impl FeatureRecord {
    /// A feature with a tag, and with indices in the list of lookups.
    pub fn new(tag: Tag, lookups: Vec<u16>) -> FeatureRecord
        ensures { result ≡ record { tag = tag; lookups = lookups.items } }
    {
        FeatureRecord { tag, lookups }
    }

    /// The tag of the feature.
    pub fn tag(&self) -> Tag
        ensures { result ≡ self.now.tag }
    {
        self.tag
    }

    /// The indices of its lookups.
    pub fn lookups(&self) -> &[u16]
        ensures { result.now ≡ self.now.lookups }
    {
        &self.lookups
    }
}

/// The script of a table that is chosen for a text.
#[derive(Clone, Copy)]
pub struct SelectedScript<'a> {
    /// Whether the script is one of those that were wanted.
    pub found: bool,
    pub script: &'a ScriptRecord,
}

/// A layout table without its lookups: scripts by rising tags, and features in the order of their indices.
#[derive(Debug, Drop)]
pub struct ScriptsAndFeatures {
    scripts: Vec<ScriptRecord>,
    features: Vec<FeatureRecord>,
}

impl Model for ScriptsAndFeatures {
    ghost use Rattle.std.specs.Prelude.{◌≡◌, None, true};
    ghost use Rattle.layout_tables.specs.Keyed.{is_rising};
    ghost use Rattle.layout_tables.specs.Layout.{LayoutLists};

    ghost Value = { LayoutLists };

    ghost view = { λ t. record { scripts = t.scripts.items; features = t.features.items } };

    ghost invariant = { λ t. is_rising (λ s. s.tag.0) None t.scripts.items ≡ true };
}

impl ScriptsAndFeatures {
    /// A table with scripts whose tags rise strictly, as numbers.
    pub fn new(scripts: Vec<ScriptRecord>, features: Vec<FeatureRecord>) -> ScriptsAndFeatures
        requires { is_rising (λ s. s.tag.0) None scripts.items ≡ true }
        ensures { result ≡ record { scripts = scripts.items; features = features.items } }
    {
        ScriptsAndFeatures { scripts, features }
    }

    /// The script of a tag.
    pub fn script(&self, tag: Tag) -> Option<&ScriptRecord>
        ensures { option_copied result ≡ script_with tag self.now.scripts }
    {
        find_keyed(&self.scripts, tag.0)
    }

    /// The scripts, by rising tags.
    pub fn scripts(&self) -> &[ScriptRecord]
        ensures { result.now ≡ self.now.scripts }
    {
        &self.scripts
    }

    /// The features, in the order of their indices.
    pub fn features(&self) -> &[FeatureRecord]
        ensures { result.now ≡ self.now.features }
    {
        &self.features
    }

    /// The feature at an index of the list of features.
    pub fn feature(&self, index: u16) -> Option<&FeatureRecord>
        ensures { option_copied result ≡ slice_get self.now.features index }
    {
        self.features.get(usize::from(index))
    }

    /// The first wanted script that the table has, else the script of the first of the tags `DFLT`, `dflt` and `latn` that
    /// the table has.
    pub fn select_script(&self, wanted: &[Tag]) -> Option<SelectedScript<'_>>
        ensures { option_map (λ s. record { found = s.found; script = s.script.now }) result
            ≡ chosen_script wanted.now self.now.scripts }
    {
        if let Some(script) = self.first_script(wanted) {
            return Some(SelectedScript {
                found: true,
                script,
            });
        }
        let script = self.default_script()?;
        Some(SelectedScript {
            found: false,
            script,
        })
    }

    fn default_script(&self) -> Option<&ScriptRecord>
        ensures { option_copied result ≡ first_script default_scripts self.now.scripts }
    {
        self.first_script(&[
            Tag::default_script(),
            Tag::default_language(),
            Tag::from_bytes(b"latn"),
        ])
    }

    fn first_script(&self, tags: &[Tag]) -> Option<&ScriptRecord>
        ensures { option_copied result ≡ first_script tags.now self.now.scripts }
    {
        find_first(&self.scripts, tags)
    }

    /// The index of the first feature of a tag that the language system has; its required feature is none of these.
    pub fn find_language_feature(&self, system: &LangSys, tag: Tag) -> Option<u16>
        ensures { result ≡ language_feature tag system.now self.now.features }
    {
        system
            .features()
            .iter()
            .copied()
            .find(|index| self.has_tag_at(*index, tag))
    }

    fn has_tag_at(&self, index: u16, tag: Tag) -> bool
        ensures { result ≡ has_tag_at self.now.features tag index }
    {
        match self.feature(index) {
            Some(feature) => feature.tag() == tag,
            None => false,
        }
    }

    /// The index and the tag of a language system's required feature, where there is one.
    pub fn get_required_language_feature(&self, system: &LangSys) -> Option<(u16, Tag)>
        ensures { result ≡ required_language_feature system.now self.now.features }
    {
        let index = system.required_feature()?;
        let feature = self.feature(index)?;
        Some((index, feature.tag()))
    }
}
