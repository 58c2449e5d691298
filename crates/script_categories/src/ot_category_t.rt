//! The categories of characters in Indic, Khmer and Myanmar syllables (rustybuzz: hb/ot_shaper_indic.rs).
//!
//! Other lists of numbered names have the same form; each has its own type.
ghost use Rattle.std.specs.Prelude.{◌≡◌};
ghost use Rattle.script_categories.specs.Indic.{ot_categories, CategoriesAreNumbered};
ghost use Rattle.script_categories.specs.Names.{number_of};

use crate::names::number_of;

/// A category of the Indic, Khmer and Myanmar shapers, by its number.
pub type Category = u8;

/// Other.
pub const OT_X: Category = 0;

/// Consonant.
pub const OT_C: Category = 1;

/// Independent vowel.
pub const OT_V: Category = 2;

/// Nukta.
pub const OT_N: Category = 3;

/// Halant.
pub const OT_H: Category = 4;

/// Zero width non-joiner.
pub const OT_ZWNJ: Category = 5;

/// Zero width joiner.
pub const OT_ZWJ: Category = 6;

/// Matra.
pub const OT_M: Category = 7;

/// Syllable modifier.
pub const OT_SM: Category = 8;

/// Vedic sign, or Myanmar anusvara.
pub const OT_A: Category = 9;

/// Vedic sign.
pub const OT_VD: Category = 10;

/// Placeholder for a consonant.
pub const OT_PLACEHOLDER: Category = 11;

/// Dotted circle.
pub const OT_DOTTEDCIRCLE: Category = 12;

/// Register shifter of Khmer.
pub const OT_RS: Category = 13;

pub const OT_MPst: Category = 14;

/// Repha as a character of its own.
pub const OT_Repha: Category = 15;

/// Ra.
pub const OT_Ra: Category = 16;

/// Medial consonant.
pub const OT_CM: Category = 17;

/// Symbol that may take marks, as avagraha.
pub const OT_Symbol: Category = 18;

/// Consonant with stacker.
pub const OT_CS: Category = 19;

/// Vowel, above.
pub const OT_VAbv: Category = 20;

/// Vowel, below.
pub const OT_VBlw: Category = 21;

/// Vowel, before.
pub const OT_VPre: Category = 22;

/// Vowel, after.
pub const OT_VPst: Category = 23;

/// Robat and other Khmer signs.
pub const OT_Robatic: Category = 24;

/// Khmer signs of the X group.
pub const OT_Xgroup: Category = 25;

/// Khmer signs of the Y group.
pub const OT_Ygroup: Category = 26;

/// Asat of Myanmar.
pub const OT_As: Category = 27;

/// Medial Ha of Myanmar.
pub const OT_MH: Category = 28;

/// Medial Ra of Myanmar.
pub const OT_MR: Category = 29;

/// Medial Wa of Myanmar.
pub const OT_MW: Category = 30;

/// Medial Ya of Myanmar.
pub const OT_MY: Category = 31;

/// Tone of Pwo Karen and others.
pub const OT_PT: Category = 32;

/// Variation selector.
pub const OT_VS: Category = 33;

/// Medial La of Mon.
pub const OT_ML: Category = 34;

/// Another name of the placeholder category.
pub const OT_GB: Category = OT_PLACEHOLDER;

/// An independent vowel.
pub const IV: Category = OT_V;

/// The names of the categories.
const NAMES: [(&str, u8); 35] = [
    ("X", OT_X),
    ("C", OT_C),
    ("V", OT_V),
    ("N", OT_N),
    ("H", OT_H),
    ("ZWNJ", OT_ZWNJ),
    ("ZWJ", OT_ZWJ),
    ("M", OT_M),
    ("SM", OT_SM),
    ("A", OT_A),
    ("VD", OT_VD),
    ("PLACEHOLDER", OT_PLACEHOLDER),
    ("DOTTEDCIRCLE", OT_DOTTEDCIRCLE),
    ("RS", OT_RS),
    ("MPst", OT_MPst),
    ("Repha", OT_Repha),
    ("Ra", OT_Ra),
    ("CM", OT_CM),
    ("Symbol", OT_Symbol),
    ("CS", OT_CS),
    ("VAbv", OT_VAbv),
    ("VBlw", OT_VBlw),
    ("VPre", OT_VPre),
    ("VPst", OT_VPst),
    ("Robatic", OT_Robatic),
    ("Xgroup", OT_Xgroup),
    ("Ygroup", OT_Ygroup),
    ("As", OT_As),
    ("MH", OT_MH),
    ("MR", OT_MR),
    ("MW", OT_MW),
    ("MY", OT_MY),
    ("PT", OT_PT),
    ("VS", OT_VS),
    ("ML", OT_ML),
];

/// The category of a name.
pub fn indic_category_number(name: &str) -> Option<Category>
    ensures { result ≡ number_of ot_categories name.now }
{
    number_of(&NAMES, name)
}

/// The categories are numbered from 0 on, without gaps, and each has a name of its own.
#[tactic(auto, using(crate::proofs::Tables::categories_are_numbered))]
pub fn law_categories_are_numbered()
    ensures { CategoriesAreNumbered }
{}
