//! The property word and the class of a glyph record, read and written (rustybuzz: hb/ot_layout.rs, `_hb_glyph_info_`).
ghost use Rattle.std.specs.Prelude.{◌≡◌, ◌<◌};
ghost use Rattle.buffer_glyphs.specs.Items.{item_of};
ghost use Rattle.buffer_unicode.specs.Category.{category_of_number};
ghost use Rattle.buffer_properties.specs.Characters.{category_of, is_mark, is_space, mark_class};
ghost use Rattle.buffer_properties.specs.Categories.{has_category};
ghost use Rattle.ucd_category.specs.declared.GeneralCategory.TheVariants.{Format};
ghost use Rattle.buffer_properties.specs.GlyphWords.{is_continuation, is_unjoined_selector, is_zwj, is_zwnj, recategorized_word, selector_word, space_type, with_continuation, with_mark_class, with_properties, with_space_type, without_ignorable};

use crate::categories;
use buffer_glyphs::flags::UnicodeProps;
use buffer_glyphs::info::hb_glyph_info_t;
pub use buffer_glyphs::property_words::_hb_glyph_info_is_default_ignorable;
use buffer_unicode::category::{
    GeneralCategoryExt, RB_UNICODE_GENERAL_CATEGORY_FORMAT, hb_unicode_general_category_t,
};
use buffer_unicode::space::{NOT_SPACE, space_t};

/// The general category of the character; its number in the property word has to be one of a category, below 30.
pub fn _hb_glyph_info_get_general_category(info: &hb_glyph_info_t) -> hb_unicode_general_category_t
    requires { category_of (item_of info.now) < 30 }
    ensures { result ≡ category_of_number (category_of (item_of info.now)) }
{
    hb_unicode_general_category_t::from_rb(u32::from(
        info.unicode_props.0 & UnicodeProps::GENERAL_CATEGORY.0,
    ))
}

/// Gives the character another general category. It is no joiner, non-joiner or variation selector any longer; whether
/// it is ignorable, hidden or a continuation stays.
pub fn _hb_glyph_info_set_general_category(
    info: &mut hb_glyph_info_t,
    gen_cat: hb_unicode_general_category_t,
)
    ensures { info.new ≡ with_properties (recategorized_word gen_cat info.old.unicode_props.0) info.old }
{
    info.unicode_props = recategorized(info.unicode_props, gen_cat);
}

/// The modified combining class of a combining mark, 0 for all other characters.
pub fn _hb_glyph_info_get_modified_combining_class(info: &hb_glyph_info_t) -> u8
    ensures { result ≡ mark_class (item_of info.now) }
{
    if _hb_glyph_info_is_unicode_mark(info) {
        info.modified_combining_class
    } else {
        0
    }
}

/// Gives a combining mark another modified combining class; other characters have none, and stay as they are.
pub fn _hb_glyph_info_set_modified_combining_class(info: &mut hb_glyph_info_t, modified_class: u8)
    ensures { info.new ≡ with_mark_class modified_class info.old }
{
    if _hb_glyph_info_is_unicode_mark(info) {
        info.modified_combining_class = modified_class;
    }
}

/// The type of a space (Zs), `NOT_SPACE` for all other characters.
pub fn _hb_glyph_info_get_unicode_space_fallback_type(info: &hb_glyph_info_t) -> space_t
    ensures { result ≡ space_type (item_of info.now) }
{
    if _hb_glyph_info_is_unicode_space(info) {
        info.modified_combining_class
    } else {
        NOT_SPACE
    }
}

/// Gives a space (Zs) another type; other characters have none, and stay as they are.
pub fn _hb_glyph_info_set_unicode_space_fallback_type(info: &mut hb_glyph_info_t, s: space_t)
    ensures { info.new ≡ with_space_type s info.old }
{
    if _hb_glyph_info_is_unicode_space(info) {
        info.modified_combining_class = s;
    }
}

/// Whether the character is a combining mark (general category Mc, Me or Mn).
pub fn _hb_glyph_info_is_unicode_mark(info: &hb_glyph_info_t) -> bool
    ensures { result ≡ is_mark (item_of info.now) }
{
    categories::is_mark(info)
}

/// Whether the character is a space (general category Zs).
pub fn _hb_glyph_info_is_unicode_space(info: &hb_glyph_info_t) -> bool
    ensures { result ≡ is_space (item_of info.now) }
{
    categories::is_space(info)
}

/// Whether the character is the joiner U+200D.
pub fn _hb_glyph_info_is_zwj(info: &hb_glyph_info_t) -> bool
    ensures { result ≡ is_zwj (item_of info.now) }
{
    is_format(info) && info.unicode_props.0 & UnicodeProps::CF_ZWJ.0 != 0
}

/// Whether the character is the non-joiner U+200C.
pub fn _hb_glyph_info_is_zwnj(info: &hb_glyph_info_t) -> bool
    ensures { result ≡ is_zwnj (item_of info.now) }
{
    is_format(info) && info.unicode_props.0 & UnicodeProps::CF_ZWNJ.0 != 0
}

/// Whether the character belongs to the grapheme of the character before it.
pub fn _hb_glyph_info_is_continuation(info: &hb_glyph_info_t) -> bool
    ensures { result ≡ is_continuation (item_of info.now) }
{
    info.unicode_props.0 & UnicodeProps::CONTINUATION.0 != 0
}

/// Makes the character belong to the grapheme of the character before it.
pub fn _hb_glyph_info_set_continuation(info: &mut hb_glyph_info_t)
    ensures { info.new ≡ with_continuation info.old }
{
    info.unicode_props = UnicodeProps(info.unicode_props.0 | UnicodeProps::CONTINUATION.0);
}

/// Makes the character no default ignorable.
pub fn _hb_glyph_info_clear_default_ignorable(info: &mut hb_glyph_info_t)
    ensures { info.new ≡ without_ignorable info.old }
{
    let props = info.unicode_props.0;
    info.unicode_props = UnicodeProps(props - (props & UnicodeProps::IGNORABLE.0));
}

/// Whether the character is a variation selector that the font didn't join with the character before it.
pub fn _hb_glyph_info_is_variation_selector(info: &hb_glyph_info_t) -> bool
    ensures { result ≡ is_unjoined_selector (item_of info.now) }
{
    is_format(info) && info.unicode_props.0 & UnicodeProps::CF_VS.0 != 0
}

/// Makes the character, a variation selector, one that the font didn't join with the character before it, of category
/// Format (Cf); without `customize` it is the non-spacing mark (Mn) again that it is by itself.
pub fn _hb_glyph_info_set_variation_selector(info: &mut hb_glyph_info_t, customize: bool)
    ensures { info.new ≡ with_properties (selector_word customize info.old.unicode_props.0) info.old }
{
    info.unicode_props = selector(info.unicode_props, customize);
}

fn is_format(info: &hb_glyph_info_t) -> bool
    ensures { result ≡ has_category Format (item_of info.now) }
{
    u32::from(info.unicode_props.0 & UnicodeProps::GENERAL_CATEGORY.0)
        == RB_UNICODE_GENERAL_CATEGORY_FORMAT
}

fn recategorized(props: UnicodeProps, gen_cat: hb_unicode_general_category_t) -> UnicodeProps
    ensures { result.0 ≡ recategorized_word gen_cat props.0 }
{
    UnicodeProps((props.0 & 0xE0) + gen_cat.to_rb() as u16)
}

fn selector(props: UnicodeProps, customize: bool) -> UnicodeProps
    ensures { result.0 ≡ selector_word customize props.0 }
{
    if customize {
        let format = recategorized(props, hb_unicode_general_category_t::Format);
        return UnicodeProps(format.0 | UnicodeProps::CF_VS.0);
    }
    recategorized(props, hb_unicode_general_category_t::NonspacingMark)
}
