//! How the shapers of syllables compose characters (rustybuzz: hb/ot_shaper_indic.rs, hb/ot_shaper_khmer.rs and
//! hb/ot_shaper_use.rs, compose).
ghost use Rattle.std.specs.Prelude.{◌≡◌};
ghost use Rattle.script_syllabic.specs.Characters.{unmarked_pair};

use buffer_unicode::{CharExt, GeneralCategoryExt};
use buffer_unicode_tables::UnicodeTables;

/// The composition of two characters, the first of which is no mark (`compose`).
pub fn compose(tables: &UnicodeTables, a: char, b: char) -> Option<char>
    ensures { result ≡ unmarked_pair tables.now a b }
{
    if a.general_category().is_mark() {
        None
    } else {
        buffer_unicode_tables::compose(tables, a, b)
    }
}
