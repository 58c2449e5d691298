//! Whether the indices of a layout table stay within their lists.
ghost use Rattle.std.specs.Prelude.{◌≡◌, true, nat_lt};
ghost use Rattle.std.specs.List.{list_all};
ghost use Rattle.std.specs.Option.{option_copied, option_map_or};
ghost use Rattle.layout_tables.specs.Indices.{all_below, context_fits, records_fit, system_fits, script_fits, indices_fit};

use crate::context::{ContextSubtable, SequenceLookupRecord, SequenceRule};
use crate::item_rule::ItemRule;
use crate::script::{LangSys, LangSysRecord, ScriptRecord};
use crate::table::{FeatureRecord, ScriptsAndFeatures};

impl ScriptsAndFeatures {
    /// Whether all features of each language system, and all lookups of each feature, exist, in a table of `lookup_count`
    /// lookups.
    pub fn indices_fit(&self, lookup_count: usize) -> bool
        ensures { result ≡ indices_fit lookup_count self.now }
    {
        scripts_fit(self.features().len(), self.scripts())
            && features_fit(lookup_count, self.features())
    }
}

impl ContextSubtable {
    /// Whether the lookup of each record of the rules exists, in a table of `lookup_count` lookups.
    pub fn lookups_fit(&self, lookup_count: usize) -> bool
        ensures { result ≡ context_fits lookup_count self.now }
    {
        match self {
            ContextSubtable::Glyphs(rules) => item_rules_fit(lookup_count, rules.as_slice()),
            ContextSubtable::Classes(rules) => {
                item_rules_fit(lookup_count, rules.rules.as_slice())
            }
            ContextSubtable::Coverage(rules) => rules_fit(lookup_count, rules.as_slice()),
        }
    }
}

fn item_rules_fit(count: usize, rules: &[ItemRule]) -> bool
    ensures { result ≡ list_all (λ r. records_fit count r.records) rules.now }
{
    rules.iter().all(|rule| records_fit(count, rule.records()))
}

fn rules_fit<I>(count: usize, rules: &[SequenceRule<I>]) -> bool
    ensures { result ≡ list_all (λ r. records_fit count r.records) rules.now }
{
    rules
        .iter()
        .all(|rule| records_fit(count, rule.records.as_slice()))
}

fn records_fit(count: usize, records: &[SequenceLookupRecord]) -> bool
    ensures { result ≡ records_fit count records.now }
{
    records
        .iter()
        .all(|record| usize::from(record.lookup_index) < count)
}

fn scripts_fit(count: usize, scripts: &[ScriptRecord]) -> bool
    ensures { result ≡ list_all (λ s. script_fits count s) scripts.now }
{
    scripts.iter().all(|script| script_fits(count, script))
}

fn features_fit(count: usize, features: &[FeatureRecord]) -> bool
    ensures { result ≡ list_all (λ f. all_below count f.lookups) features.now }
{
    features
        .iter()
        .all(|feature| all_below(count, feature.lookups()))
}

fn script_fits(count: usize, script: &ScriptRecord) -> bool
    ensures { result ≡ script_fits count script.now }
{
    default_fits(count, script.default_lang_sys()) && systems_fit(count, script.lang_systems())
}

fn systems_fit(count: usize, systems: &[LangSysRecord]) -> bool
    ensures { result ≡ list_all (λ s. system_fits count s.lang_sys) systems.now }
{
    systems
        .iter()
        .all(|record| system_fits(count, record.lang_sys()))
}

fn system_fits(count: usize, system: &LangSys) -> bool
    ensures { result ≡ system_fits count system.now }
{
    required_fits(count, system.required_feature()) && all_below(count, system.features())
}

fn default_fits(count: usize, system: Option<&LangSys>) -> bool
    ensures { result ≡ option_map_or (λ s. system_fits count s) (option_copied system.entry) true }
{
    match system {
        Some(system) => system_fits(count, system),
        None => true,
    }
}

fn required_fits(count: usize, index: Option<u16>) -> bool
    ensures { result ≡ option_map_or (λ i. nat_lt i count) index true }
{
    match index {
        Some(index) => usize::from(index) < count,
        None => true,
    }
}

fn all_below(count: usize, indices: &[u16]) -> bool
    ensures { result ≡ all_below count indices.now }
{
    indices.iter().all(|index| usize::from(*index) < count)
}
