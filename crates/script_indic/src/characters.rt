//! How the Indic shaper decomposes and composes characters (rustybuzz: hb/ot_shaper_indic.rs).
ghost use Rattle.std.specs.Prelude.{◌≡◌};
ghost use Rattle.script_indic.specs.Characters.{indic_pair, indic_split};

use buffer_unicode_tables::UnicodeTables;

/// The decomposition of a character (`decompose`): four letters that fonts have as one glyph do not decompose, all others
/// decompose as in Unicode.
pub fn decompose(tables: &UnicodeTables, ab: char) -> Option<(char, char)>
    ensures { result ≡ indic_split tables.now ab }
{
    match ab {
        '\u{0931}' | '\u{09DC}' | '\u{09DD}' | '\u{0B94}' => None,
        _ => buffer_unicode_tables::decompose(tables, ab),
    }
}

/// The composition of two characters (`compose`): none on a mark; U+09AF and U+09BC compose, though Unicode excludes
/// U+09DF from composition.
pub fn compose(tables: &UnicodeTables, a: char, b: char) -> Option<char>
    ensures { result ≡ indic_pair tables.now a b }
{
    if a == '\u{09AF}' && b == '\u{09BC}' {
        return Some('\u{09DF}');
    }
    script_syllabic::characters::compose(tables, a, b)
}
