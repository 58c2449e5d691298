//! The general category in a glyph record's property word (rustybuzz: hb/ot_layout.rs).
ghost use Rattle.std.specs.Prelude.{◌≡◌, [], ◌∷◌};
ghost use Rattle.ucd_category.specs.declared.GeneralCategory.{GeneralCategory};
ghost use Rattle.buffer_glyphs.specs.Items.{item_of};
ghost use Rattle.buffer_properties.specs.Characters.{is_mark, is_space};
ghost use Rattle.buffer_properties.specs.Categories.{has_category, is_decimal_number, is_letter, is_nonspacing_mark};

use buffer_glyphs::info::hb_glyph_info_t;
use buffer_unicode::category::GeneralCategoryExt;
use unicode::properties::GeneralCategory;

fn has_category(category: GeneralCategory, glyph: &hb_glyph_info_t) -> bool
    ensures { result ≡ has_category category (item_of glyph.now) }
{
    u32::from(glyph.unicode_props.0 & 0x1F) == category.to_rb()
}

/// Whether the character is a combining mark (general category Mc, Me or Mn).
pub fn is_mark(glyph: &hb_glyph_info_t) -> bool
    ensures { result ≡ is_mark (item_of glyph.now) }
{
    has_category(GeneralCategory::SpacingMark, glyph)
        || has_category(GeneralCategory::EnclosingMark, glyph)
        || has_category(GeneralCategory::NonspacingMark, glyph)
}

/// Whether the character is a letter (general category L*).
pub fn is_letter(glyph: &hb_glyph_info_t) -> bool
    ensures { result ≡ is_letter (item_of glyph.now) }
{
    has_category(GeneralCategory::UppercaseLetter, glyph)
        || has_category(GeneralCategory::LowercaseLetter, glyph)
        || has_category(GeneralCategory::TitlecaseLetter, glyph)
        || has_category(GeneralCategory::ModifierLetter, glyph)
        || has_category(GeneralCategory::OtherLetter, glyph)
}

/// Whether the character is a decimal number (general category Nd).
pub fn is_decimal_number(glyph: &hb_glyph_info_t) -> bool
    ensures { result ≡ is_decimal_number (item_of glyph.now) }
{
    has_category(GeneralCategory::DecimalNumber, glyph)
}

/// Whether the character is a non-spacing mark (general category Mn).
pub fn is_nonspacing_mark(glyph: &hb_glyph_info_t) -> bool
    ensures { result ≡ is_nonspacing_mark (item_of glyph.now) }
{
    has_category(GeneralCategory::NonspacingMark, glyph)
}

/// Whether the character is a space (general category Zs).
pub fn is_space(glyph: &hb_glyph_info_t) -> bool
    ensures { result ≡ is_space (item_of glyph.now) }
{
    has_category(GeneralCategory::SpaceSeparator, glyph)
}
