//! The script and the language system that are chosen for a text, in each layout table (rustybuzz: hb/ot_map.rs,
//! hb/ot_layout.rs).
ghost use Rattle.std.specs.Prelude.{◌≡◌, ◌==◌, position};
ghost use Rattle.std.specs.Option.{option_and_then, option_copied, option_map};
ghost use Rattle.layout_tables.specs.Choice.{chosen_lang_sys};
ghost use Rattle.layout_map_features.specs.Tables.{for_table};
ghost use Rattle.layout_map.specs.Chosen.{chosen_positioning, chosen_substitution, chosen_table, is_script_found, listed_feature, lookups_at, required_feature, script_of, script_tag, system_feature};

use buffer_common::tag::Tag;
use layout_face::positioning::PositioningTable;
use layout_face::substitution::SubstitutionTable;
use layout_map_features::per_table::TableIndex;
use layout_tables::script::LangSys;
use layout_tables::table::{FeatureRecord, ScriptsAndFeatures, SelectedScript};
use std::marker::Model;

/// A layout table, where the font has it, with the script and the language system that are chosen for a text.
#[derive(Drop)]
pub struct ChosenTable<'a> {
    table: Option<&'a ScriptsAndFeatures>,
    lookup_count: usize,
    script: Option<SelectedScript<'a>>,
    system: Option<&'a LangSys>,
}

impl<'a> Model for ChosenTable<'a> {
    ghost use Rattle.std.specs.Option.{option_copied, option_map};
    ghost use Rattle.layout_map.specs.Chosen.{ChosenTable, features_of};

    ghost Value = { ChosenTable };

    ghost view = { λ t. record {
      script = option_map (λ s. record { found = s.found; script = s.script.now }) t.script;
      system = option_copied t.system;
      features = features_of (option_copied t.table);
      lookup_count = t.lookup_count;
    } };
}

impl<'a> ChosenTable<'a> {
    /// The GSUB table, where a font has it, for the wanted scripts and languages, the best first.
    pub fn of_substitution(
        table: Option<&'a SubstitutionTable>,
        scripts: &[Tag],
        languages: &[Tag],
    ) -> ChosenTable<'a>
        ensures { result ≡ chosen_substitution scripts.now languages.now (option_copied table.entry) }
    {
        match table {
            Some(table) => Self::new(Some(&table.inner), table.lookups.len(), scripts, languages),
            None => Self::new(None, 0, scripts, languages),
        }
    }

    /// The GPOS table, where a font has it, for the wanted scripts and languages, the best first.
    pub fn of_positioning(
        table: Option<&'a PositioningTable>,
        scripts: &[Tag],
        languages: &[Tag],
    ) -> ChosenTable<'a>
        ensures { result ≡ chosen_positioning scripts.now languages.now (option_copied table.entry) }
    {
        match table {
            Some(table) => Self::new(Some(&table.inner), table.lookups.len(), scripts, languages),
            None => Self::new(None, 0, scripts, languages),
        }
    }

    fn new(
        table: Option<&'a ScriptsAndFeatures>,
        lookup_count: usize,
        scripts: &[Tag],
        languages: &[Tag],
    ) -> ChosenTable<'a>
        ensures { result ≡ chosen_table scripts.now languages.now (option_copied table.entry) lookup_count }
    {
        let script = selected_script(table, scripts);
        ChosenTable {
            table,
            lookup_count,
            script,
            system: selected_system(script, languages),
        }
    }

    /// Whether the script is one of those that were wanted.
    pub fn found_script(&self) -> bool
        ensures { result ≡ is_script_found self.now }
    {
        match self.script {
            Some(selected) => selected.found,
            None => false,
        }
    }

    /// The tag of the script.
    pub fn chosen_script(&self) -> Option<Tag>
        ensures { result ≡ script_tag self.now }
    {
        let selected = self.script?;
        Some(selected.script.tag())
    }

    #[tactic(auto, using(crate::proofs::Listed::no_system_feature))]
    /// The index of the feature of a tag that the language system has.
    pub fn find_feature(&self, tag: Tag) -> Option<u16>
        ensures { result ≡ system_feature tag self.now }
    {
        self.table?.find_language_feature(self.system?, tag)
    }

    /// The index of the first feature of a tag in the table's list.
    pub fn find_listed_feature(&self, tag: Tag) -> Option<u16>
        ensures { result ≡ listed_feature tag self.now }
    {
        let index = first_of_tag(self.table?.features(), tag)?;
        u16::try_from(index).ok()
    }

    /// The index and the tag of the language system's required feature.
    pub fn required_feature(&self) -> Option<(u16, Tag)>
        ensures { result ≡ required_feature self.now }
    {
        self.table?.get_required_language_feature(self.system?)
    }

    /// The lookups of the feature at an index.
    pub fn feature_lookups(&self, index: u16) -> &[u16]
        ensures { result.now ≡ lookups_at self.now index }
    {
        let feature = match self.table {
            Some(table) => table.feature(index),
            None => None,
        };
        match feature {
            Some(feature) => feature.lookups(),
            None => &[],
        }
    }

    /// How many lookups the table has.
    pub fn lookup_count(&self) -> usize
        ensures { result ≡ self.now.lookup_count }
    {
        self.lookup_count
    }
}

fn first_of_tag(features: &[FeatureRecord], tag: Tag) -> Option<usize>
    ensures { result ≡ position (λ f. f.tag.0 == tag.0) features.now }
{
    features.iter().position(|feature| feature.tag() == tag)
}

fn selected_script<'a>(
    table: Option<&'a ScriptsAndFeatures>,
    scripts: &[Tag],
) -> Option<SelectedScript<'a>>
    ensures { option_map (λ s. record { found = s.found; script = s.script.now }) result
        ≡ script_of scripts.now (option_copied table.entry) }
{
    table?.select_script(scripts)
}

fn selected_system<'a>(script: Option<SelectedScript<'a>>, languages: &[Tag]) -> Option<&'a LangSys>
    ensures { option_copied result ≡ option_and_then (λ s. chosen_lang_sys languages.now s.script.now) script.entry }
{
    script?.script.select_script_language(languages)
}

/// The two layout tables of a font, each with the script and the language system that are chosen for a text.
#[derive(Drop)]
pub struct FontTables<'a> {
    pub gsub: ChosenTable<'a>,
    pub gpos: ChosenTable<'a>,
}

impl<'a> Model for FontTables<'a> {
    ghost use Rattle.layout_map_features.specs.declared.per_table.PerTable.{PerTable};
    ghost use Rattle.layout_map.specs.Chosen.{ChosenTable};

    ghost Value = { PerTable ChosenTable };

    ghost view = { λ t. record { gsub = t.gsub; gpos = t.gpos } };
}

impl<'a> FontTables<'a> {
    /// One of the two tables.
    pub fn get(&self, table: TableIndex) -> &ChosenTable<'a>
        ensures { result.now ≡ for_table table self.now }
    {
        match table {
            TableIndex::GSUB => &self.gsub,
            TableIndex::GPOS => &self.gpos,
        }
    }
}
