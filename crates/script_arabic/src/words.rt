//! Tiles, and the Arabic words that they are laid over.
ghost use Rattle.std.specs.Prelude.{◌≡◌};
ghost use Rattle.buffer_glyphs.specs.Items.{item_of};
ghost use Rattle.script_arabic.specs.Tiles.{is_fixed, is_repeating, is_tile};
ghost use Rattle.script_arabic.specs.Words.{has_word_category, is_of_word, is_word_category};

use buffer_glyphs::info::hb_glyph_info_t;
use buffer_glyphs::property_words::_hb_glyph_info_is_default_ignorable;
use buffer_unicode::category::GeneralCategoryExt;
use script_categories::arabic_action_t::{STRETCHING_FIXED, STRETCHING_REPEATING};
use unicode::properties::GeneralCategory;

const WORD_CATEGORIES: [GeneralCategory; 14] = [
    GeneralCategory::Unassigned,
    GeneralCategory::PrivateUse,
    GeneralCategory::ModifierLetter,
    GeneralCategory::OtherLetter,
    GeneralCategory::SpacingMark,
    GeneralCategory::EnclosingMark,
    GeneralCategory::NonspacingMark,
    GeneralCategory::DecimalNumber,
    GeneralCategory::LetterNumber,
    GeneralCategory::OtherNumber,
    GeneralCategory::CurrencySymbol,
    GeneralCategory::ModifierSymbol,
    GeneralCategory::MathSymbol,
    GeneralCategory::OtherSymbol,
];

/// Whether a glyph is a fixed tile.
pub fn is_fixed(glyph: &hb_glyph_info_t) -> bool
    ensures { result ≡ is_fixed (item_of glyph.now) }
{
    glyph.auxiliary == STRETCHING_FIXED
}

/// Whether a glyph is a repeating tile.
pub fn is_repeating(glyph: &hb_glyph_info_t) -> bool
    ensures { result ≡ is_repeating (item_of glyph.now) }
{
    glyph.auxiliary == STRETCHING_REPEATING
}

/// Whether a glyph is a tile.
pub fn is_tile(glyph: &hb_glyph_info_t) -> bool
    ensures { result ≡ is_tile (item_of glyph.now) }
{
    is_fixed(glyph) || is_repeating(glyph)
}

/// Whether a glyph belongs to a word that tiles are laid over: default ignorables, letters without case, marks, numbers
/// and symbols.
pub fn is_of_word(glyph: &hb_glyph_info_t) -> bool
    ensures { result ≡ is_of_word (item_of glyph.now) }
{
    _hb_glyph_info_is_default_ignorable(glyph) || has_word_category(glyph)
}

fn has_word_category(glyph: &hb_glyph_info_t) -> bool
    ensures { result ≡ has_word_category (item_of glyph.now) }
{
    is_word_category(u32::from(glyph.unicode_props.0 & 0x1F))
}

fn is_word_category(category: u32) -> bool
    ensures { result ≡ is_word_category category }
{
    WORD_CATEGORIES.iter().any(|it| category == it.to_rb())
}
