//! Scripts and language systems of a layout table (OpenType, chapter 2).
ghost use Rattle.std.specs.Prelude.{◌≡◌, None, true};
ghost use Rattle.std.specs.Option.{option_copied};
ghost use Rattle.layout_tables.specs.Choice.{first_lang_sys, chosen_lang_sys};
ghost use Rattle.layout_tables.specs.Keyed.{is_rising};
ghost use Rattle.layout_tables.specs.Layout.{LangSysEntry, lang_sys_with};

use crate::keyed::{find_first, find_keyed};
use buffer_common::tag::{Tag, TagExt};
use buffer_rows::Keyed;
use std::marker::Model;

/// A language system: its features, each by its index in the table's list of features.
#[derive(Debug, Drop)]
pub struct LangSys {
    required_feature: Option<u16>,
    features: Vec<u16>,
}

impl Model for LangSys {
    ghost use Rattle.layout_tables.specs.Layout.{LangSysTable};

    ghost Value = { LangSysTable };

    ghost view = { λ s. record { required_feature = s.required_feature; features = s.features.items } };
}

impl LangSys {
    /// A language system with these indices in the list of features.
    pub fn new(required_feature: Option<u16>, features: Vec<u16>) -> LangSys
        ensures { result ≡ record { required_feature = required_feature; features = features.items } }
    {
        LangSys {
            required_feature,
            features,
        }
    }

    /// The index of the required feature, which is always on, where there is one.
    pub fn required_feature(&self) -> Option<u16>
        ensures { result ≡ self.now.required_feature }
    {
        self.required_feature
    }

    /// The indices of the features that may be requested.
    pub fn features(&self) -> &[u16]
        ensures { result.now ≡ self.now.features }
    {
        &self.features
    }
}

/// A language system with its tag.
#[derive(Debug, Drop)]
pub struct LangSysRecord {
    tag: Tag,
    lang_sys: LangSys,
}

impl Model for LangSysRecord {
    ghost use Rattle.layout_tables.specs.Layout.{LangSysEntry};

    ghost Value = { LangSysEntry };

    ghost view = { λ r. record { tag = r.tag; lang_sys = r.lang_sys } };
}

impl Keyed for LangSysRecord {
    type Key = u32;

    ghost key_of = { λ r. r.tag.0 };

    fn key(&self) -> u32 {
        self.tag.0
    }
}

impl LangSysRecord {
    /// A record of a language system's tag and the system.
    pub fn new(tag: Tag, lang_sys: LangSys) -> LangSysRecord
        ensures { result ≡ record { tag = tag; lang_sys = lang_sys } }
    {
        LangSysRecord { tag, lang_sys }
    }

    /// The tag of the language system.
    pub fn tag(&self) -> Tag
        ensures { result ≡ self.now.tag }
    {
        self.tag
    }

    /// The language system itself.
    pub fn lang_sys(&self) -> &LangSys
        ensures { result.now ≡ self.now.lang_sys }
    {
        &self.lang_sys
    }
}

/// A script with its language systems, by rising tags.
#[derive(Debug, Drop)]
pub struct ScriptRecord {
    tag: Tag,
    default_lang_sys: Option<LangSys>,
    lang_systems: Vec<LangSysRecord>,
}

impl Model for ScriptRecord {
    ghost use Rattle.std.specs.Prelude.{◌≡◌, None, true};
    ghost use Rattle.layout_tables.specs.Keyed.{is_rising};
    ghost use Rattle.layout_tables.specs.Layout.{ScriptTable};

    ghost Value = { ScriptTable };

    ghost view = { λ s. record {
      tag = s.tag;
      default_lang_sys = s.default_lang_sys;
      lang_systems = s.lang_systems.items;
    } };

    ghost invariant = { λ s. is_rising (λ r. r.tag.0) None s.lang_systems.items ≡ true };
}

impl Keyed for ScriptRecord {
    type Key = u32;

    ghost key_of = { λ s. s.tag.0 };

    fn key(&self) -> u32 {
        self.tag.0
    }
}

impl ScriptRecord {
    /// A script with language systems whose tags rise strictly, as numbers.
    pub fn new(
        tag: Tag,
        default_lang_sys: Option<LangSys>,
        lang_systems: Vec<LangSysRecord>,
    ) -> ScriptRecord
        requires { is_rising (λ r. r.tag.0) None lang_systems.items ≡ true }
        ensures { result
            ≡ record { tag = tag; default_lang_sys = default_lang_sys; lang_systems = lang_systems.items } }
    {
        ScriptRecord {
            tag,
            default_lang_sys,
            lang_systems,
        }
    }

    /// The tag of the script.
    pub fn tag(&self) -> Tag
        ensures { result ≡ self.now.tag }
    {
        self.tag
    }

    /// The default language system, for languages without a system of their own, where there is one.
    pub fn default_lang_sys(&self) -> Option<&LangSys>
        ensures { option_copied result ≡ self.now.default_lang_sys }
    {
        self.default_lang_sys.as_ref()
    }

    /// The language systems, by rising tags.
    pub fn lang_systems(&self) -> &[LangSysRecord]
        ensures { result.now ≡ self.now.lang_systems }
    {
        &self.lang_systems
    }

    /// The language system of a tag.
    pub fn lang_sys(&self, tag: Tag) -> Option<&LangSysRecord>
        ensures { option_copied result ≡ lang_sys_with tag self.now.lang_systems }
    {
        find_keyed(&self.lang_systems, tag.0)
    }

    /// The system of the first wanted language that the script has, else the system tagged `dflt`, else the default
    /// system.
    pub fn select_script_language(&self, wanted: &[Tag]) -> Option<&LangSys>
        ensures { option_copied result ≡ chosen_lang_sys wanted.now self.now }
    {
        if let Some(system) = self.first_lang_sys(wanted) {
            return Some(system);
        }
        match self.first_lang_sys(&[Tag::default_language()]) {
            Some(system) => Some(system),
            None => self.default_lang_sys(),
        }
    }

    fn first_lang_sys(&self, tags: &[Tag]) -> Option<&LangSys>
        ensures { option_copied result ≡ first_lang_sys tags.now self.now }
    {
        let record = find_first(&self.lang_systems, tags)?;
        Some(record.lang_sys())
    }
}
