//! The joining types of Arabic-like scripts (rustybuzz: hb/ot_shaper_arabic.rs).
ghost use Rattle.std.specs.Prelude.{◌≡◌, Some, slice_get};
ghost use Rattle.script_categories.specs.Joining.{joining_types, joining_type_names, JoiningTypesAreNumbered};
ghost use Rattle.script_categories.specs.Names.{number_of};

use crate::names::number_of;

/// The joining types of letters (ArabicShaping.txt), with those of Syriac.
#[derive(Clone, Copy, PartialEq, Eq, Debug)]
pub enum hb_arabic_joining_type_t {
    /// Non-joining.
    U,
    /// Left-joining: joins to the next letter.
    L,
    /// Right-joining: joins to the previous letter.
    R,
    /// Dual-joining: joins to both.
    D,
    /// Right-joining, Syriac Alaph.
    GroupAlaph,
    /// Right-joining, Syriac Dalath and Rish.
    GroupDalathRish,
    /// Transparent: the letters on both sides join to each other.
    T,
    /// Without a row in the tables.
    X,
}

const ALL: [hb_arabic_joining_type_t; 8] = [
    hb_arabic_joining_type_t::U,
    hb_arabic_joining_type_t::L,
    hb_arabic_joining_type_t::R,
    hb_arabic_joining_type_t::D,
    hb_arabic_joining_type_t::GroupAlaph,
    hb_arabic_joining_type_t::GroupDalathRish,
    hb_arabic_joining_type_t::T,
    hb_arabic_joining_type_t::X,
];

/// The names of the types that a table row may have.
const NAMES: [(&str, u8); 7] = [
    ("U", 0),
    ("L", 1),
    ("R", 2),
    ("D", 3),
    ("ALAPH", 4),
    ("DALATH_RISH", 5),
    ("T", 6),
];

/// The number of a joining type's name.
pub fn joining_type_number(name: &str) -> Option<u8>
    ensures { result ≡ number_of joining_type_names name.now }
{
    number_of(&NAMES, name)
}

/// The joining type of a number.
pub fn joining_type_of_number(number: u8) -> Option<hb_arabic_joining_type_t>
    ensures { result ≡ slice_get joining_types number }
{
    ALL.get(number as usize).copied()
}

/// The joining types are numbered from 0 on, without gaps, and each but the last has a name of its own.
#[tactic(auto, using(crate::proofs::Tables::joining_types_are_numbered))]
pub fn law_joining_types_are_numbered()
    ensures { JoiningTypesAreNumbered }
{}
