//! The universal shaper's categories of characters (rustybuzz: hb/ot_shaper_use.rs).
//!
//! Other lists of numbered names have the same form; each has its own type.
ghost use Rattle.std.specs.Prelude.{◌≡◌};
ghost use Rattle.script_categories.specs.Universal.{universal_categories, UniversalCategoriesAreNumbered};
ghost use Rattle.script_categories.specs.Names.{number_of};

use crate::names::number_of;

/// A category of the universal shaper, by its number (OpenType specification, Universal Shaping Engine).
pub type Category = u8;

/// Other.
pub const O: Category = 0;

/// Base.
pub const B: Category = 1;

/// Base: number.
pub const N: Category = 2;

/// Base: other.
pub const GB: Category = 3;

/// Combining grapheme joiner.
pub const CGJ: Category = 4;

/// Subjoined consonant.
pub const SUB: Category = 5;

/// Halant.
pub const H: Category = 6;

/// Number joiner (halant of numbers).
pub const HN: Category = 7;

/// Zero width non-joiner.
pub const ZWNJ: Category = 8;

/// Word joiner.
pub const WJ: Category = 9;

/// Reserved.
pub const RSV: Category = 10;

/// Repha.
pub const R: Category = 11;

/// Symbol.
pub const S: Category = 12;

/// Consonant with stacker.
pub const CS: Category = 13;

/// Invisible stacker.
pub const IS: Category = 14;

/// Sakot.
pub const Sk: Category = 15;

/// Final consonant, above.
pub const FAbv: Category = 16;

/// Final consonant, below.
pub const FBlw: Category = 17;

/// Final consonant, after.
pub const FPst: Category = 18;

/// Medial consonant, above.
pub const MAbv: Category = 19;

/// Medial consonant, below.
pub const MBlw: Category = 20;

/// Medial consonant, after.
pub const MPst: Category = 21;

/// Medial consonant, before.
pub const MPre: Category = 22;

/// Consonant modifier, above.
pub const CMAbv: Category = 23;

/// Consonant modifier, below.
pub const CMBlw: Category = 24;

/// Vowel, above.
pub const VAbv: Category = 25;

/// Vowel, below.
pub const VBlw: Category = 26;

/// Vowel, after.
pub const VPst: Category = 27;

/// Vowel, before.
pub const VPre: Category = 28;

/// Vowel modifier, above.
pub const VMAbv: Category = 29;

/// Vowel modifier, below.
pub const VMBlw: Category = 30;

/// Vowel modifier, after.
pub const VMPst: Category = 31;

/// Vowel modifier, before.
pub const VMPre: Category = 32;

/// Symbol modifier, above.
pub const SMAbv: Category = 33;

/// Symbol modifier, below.
pub const SMBlw: Category = 34;

/// Final modifier, above.
pub const FMAbv: Category = 35;

/// Final modifier, below.
pub const FMBlw: Category = 36;

/// Final modifier, after.
pub const FMPst: Category = 37;

/// Hieroglyph.
pub const G: Category = 38;

/// Hieroglyph joiner.
pub const J: Category = 39;

/// Hieroglyph segment begin.
pub const SB: Category = 40;

/// Hieroglyph segment end.
pub const SE: Category = 41;

/// Halant or vowel modifier.
pub const HVM: Category = 42;

/// Hieroglyph modifier.
pub const HM: Category = 43;

/// Hieroglyph mirror.
pub const HR: Category = 44;

/// The names of the categories.
const NAMES: [(&str, u8); 45] = [
    ("O", O),
    ("B", B),
    ("N", N),
    ("GB", GB),
    ("CGJ", CGJ),
    ("SUB", SUB),
    ("H", H),
    ("HN", HN),
    ("ZWNJ", ZWNJ),
    ("WJ", WJ),
    ("RSV", RSV),
    ("R", R),
    ("S", S),
    ("CS", CS),
    ("IS", IS),
    ("Sk", Sk),
    ("FAbv", FAbv),
    ("FBlw", FBlw),
    ("FPst", FPst),
    ("MAbv", MAbv),
    ("MBlw", MBlw),
    ("MPst", MPst),
    ("MPre", MPre),
    ("CMAbv", CMAbv),
    ("CMBlw", CMBlw),
    ("VAbv", VAbv),
    ("VBlw", VBlw),
    ("VPst", VPst),
    ("VPre", VPre),
    ("VMAbv", VMAbv),
    ("VMBlw", VMBlw),
    ("VMPst", VMPst),
    ("VMPre", VMPre),
    ("SMAbv", SMAbv),
    ("SMBlw", SMBlw),
    ("FMAbv", FMAbv),
    ("FMBlw", FMBlw),
    ("FMPst", FMPst),
    ("G", G),
    ("J", J),
    ("SB", SB),
    ("SE", SE),
    ("HVM", HVM),
    ("HM", HM),
    ("HR", HR),
];

/// The category of a name.
pub fn universal_category_number(name: &str) -> Option<Category>
    ensures { result ≡ number_of universal_categories name.now }
{
    number_of(&NAMES, name)
}

/// The categories are numbered from 0 on, without gaps, and each has a name of its own.
#[tactic(auto, using(crate::proofs::Tables::universal_categories_are_numbered))]
pub fn law_universal_categories_are_numbered()
    ensures { UniversalCategoriesAreNumbered }
{}
