//! The shapers of scripts, with the categories and syllable kinds of those that find syllables.
ghost use Rattle.std.specs.Prelude.{◌≡◌, nat_lt, length};
ghost use Rattle.script_categories.specs.Names.{number_of};
ghost use Rattle.script_categories.specs.Shapers.{categories_of, kinds_of, non_kind_of, is_reordered, machine_shaper, universal_kinds, KindsAreNumbered};

use crate::names::number_of;
use crate::syllable_kinds::{indic, khmer, myanmar, universal};
use crate::{category, ot_category_t};

/// The shapers that are made for scripts.
#[derive(Clone, Copy, PartialEq, Eq, Debug)]
pub enum hb_ot_script_shaper_t {
    ARABIC_SHAPER,
    HANGUL_SHAPER,
    HEBREW_SHAPER,
    INDIC_SHAPER,
    KHMER_SHAPER,
    MYANMAR_SHAPER,
    MYANMAR_ZAWGYI_SHAPER,
    THAI_SHAPER,
    UNIVERSAL_SHAPER,
}

use hb_ot_script_shaper_t::{INDIC_SHAPER, KHMER_SHAPER, MYANMAR_SHAPER, UNIVERSAL_SHAPER};

/// The shaper of a machine's name: indic, khmer, myanmar or universal.
pub fn machine_shaper(name: &str) -> Option<hb_ot_script_shaper_t>
    ensures { result ≡ machine_shaper name.now }
{
    if name == "indic" {
        Some(INDIC_SHAPER)
    } else if name == "khmer" {
        Some(KHMER_SHAPER)
    } else if name == "myanmar" {
        Some(MYANMAR_SHAPER)
    } else if name == "universal" {
        Some(UNIVERSAL_SHAPER)
    } else {
        None
    }
}

impl hb_ot_script_shaper_t {
    /// The number of a category's name, in the shaper's categories; `None` where the shaper finds no syllables.
    pub fn category_number(self, name: &str) -> Option<u8>
        ensures { result ≡ number_of (categories_of self) name.now }
    {
        match self {
            INDIC_SHAPER | KHMER_SHAPER | MYANMAR_SHAPER => {
                ot_category_t::indic_category_number(name)
            }
            UNIVERSAL_SHAPER => category::universal_category_number(name),
            _ => None,
        }
    }

    /// The number of a syllable kind's name; `None` where the shaper finds no syllables.
    pub fn kind_number(self, name: &str) -> Option<u8>
        ensures { result ≡ number_of (kinds_of self) name.now }
    {
        match self {
            INDIC_SHAPER => number_of(&indic::NAMES, name),
            KHMER_SHAPER => number_of(&khmer::NAMES, name),
            MYANMAR_SHAPER => number_of(&myanmar::NAMES, name),
            UNIVERSAL_SHAPER => universal_kind_number(name),
            _ => None,
        }
    }

    /// Whether the shaper has a kind of syllables with this number.
    pub fn has_kind(self, kind: u8) -> bool
        ensures { result ≡ nat_lt kind (length (kinds_of self)) }
    {
        match self {
            INDIC_SHAPER => kind <= indic::NON_INDIC_CLUSTER,
            KHMER_SHAPER => kind <= khmer::NON_KHMER_CLUSTER,
            MYANMAR_SHAPER => kind <= myanmar::NON_MYANMAR_CLUSTER,
            UNIVERSAL_SHAPER => kind <= universal::NON_CLUSTER,
            _ => false,
        }
    }

    /// The kind of non-clusters, 0 where the shaper finds no syllables.
    pub fn non_cluster_kind(self) -> u8
        ensures { result ≡ non_kind_of self }
    {
        match self {
            INDIC_SHAPER => indic::NON_INDIC_CLUSTER,
            KHMER_SHAPER => khmer::NON_KHMER_CLUSTER,
            MYANMAR_SHAPER => myanmar::NON_MYANMAR_CLUSTER,
            UNIVERSAL_SHAPER => universal::NON_CLUSTER,
            _ => 0,
        }
    }

    /// Whether the shaper reorders syllables of the kind.
    pub fn is_reordered(self, kind: u8) -> bool
        ensures { result ≡ is_reordered self kind }
    {
        match self {
            INDIC_SHAPER => matches!(
                kind,
                indic::CONSONANT_SYLLABLE
                    | indic::VOWEL_SYLLABLE
                    | indic::STANDALONE_CLUSTER
                    | indic::BROKEN_CLUSTER
            ),
            KHMER_SHAPER => matches!(kind, khmer::CONSONANT_SYLLABLE | khmer::BROKEN_CLUSTER),
            MYANMAR_SHAPER => matches!(kind, myanmar::CONSONANT_SYLLABLE | myanmar::BROKEN_CLUSTER),
            UNIVERSAL_SHAPER => matches!(
                kind,
                universal::VIRAMA_TERMINATED_CLUSTER
                    | universal::SAKOT_TERMINATED_CLUSTER
                    | universal::STANDARD_CLUSTER
                    | universal::SYMBOL_CLUSTER
                    | universal::BROKEN_CLUSTER
            ),
            _ => false,
        }
    }
}

fn universal_kind_number(name: &str) -> Option<u8>
    ensures { result ≡ number_of universal_kinds name.now }
{
    number_of(&universal::NAMES, name)
}

/// The kinds of each shaper are numbered from 0 on, without gaps, and each has a name of its own.
#[tactic(auto, using(crate::proofs::Tables::kinds_are_numbered))]
pub fn law_kinds_are_numbered()
    ensures { KindsAreNumbered }
{}
