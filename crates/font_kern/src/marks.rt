//! Marks that lose their positions where a font without GPOS gets one.
ghost use Rattle.std.specs.Prelude.{◌≡◌};
ghost use Rattle.font_kern.specs.Marks.{is_nonspacing, is_other_mark, loses_marks};

use buffer_unicode::character::CharExt;
use layout_face::parts::CharacterRow;
use unicode::properties::GeneralCategory;

fn is_nonspacing(category: GeneralCategory) -> bool
    ensures { result ≡ is_nonspacing category }
{
    matches!(category, GeneralCategory::NonspacingMark)
}

/// Whether a character is a nonspacing mark of other blocks than those of combining marks, as an Arabic vowel.
fn is_other_mark(c: char) -> bool
    ensures { result ≡ is_other_mark c }
{
    is_nonspacing(c.general_category())
        && !matches!(
            c,
            '\u{300}'..='\u{36F}'
                | '\u{483}'..='\u{489}'
                | '\u{1AB0}'..='\u{1AFF}'
                | '\u{1DC0}'..='\u{1DFF}'
                | '\u{20D0}'..='\u{20FF}'
                | '\u{FE20}'..='\u{FE2F}'
                | '\u{3099}'..='\u{309A}'
        )
        && !c.is_variation_selector()
}

/// Whether a font has such a mark: without GPOS a shaper positions its marks by their boxes, and with one it would not.
pub fn loses_marks(characters: &[CharacterRow]) -> bool
    ensures { result ≡ loses_marks characters.now }
{
    characters.iter().any(|row| is_other_mark(row.character))
}
