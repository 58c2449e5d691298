//! Which characters continue the grapheme of the one before (UAX 29 GB9 and GB9a, and GB11 to GB13 in part), as far as
//! shaping requires (rustybuzz: hb/ot_shape.rs, set_unicode_props).
ghost use Rattle.std.specs.Prelude.{◌≡◌};
ghost use Rattle.unicode.specs.GeneralCategory.{general_category};
ghost use Rattle.shape_text.specs.Graphemes.{continues, is_emoji_modifier, is_extender, is_joined, is_other_extender, is_regional_indicator};

use buffer_unicode::GeneralCategoryExt;
use buffer_unicode::category::hb_unicode_general_category_t;
use buffer_unicode_tables::{CharTablesExt, UnicodeTables};
use unicode::properties::GeneralCategory;

/// The previous character, and whether it continues a grapheme.
#[derive(Clone, Copy)]
pub struct Before {
    pub character: char,
    pub continues: bool,
}

/// Whether a character of that general category continues the grapheme of the one before (`set_unicode_props`): marks,
/// emoji modifiers, joiners and extenders do (UAX 29 GB9, GB9a); so do the second of two regional indicators (GB12,
/// GB13), and a pictographic character after a joiner (GB11).
pub(crate) fn continues(
    tables: &UnicodeTables,
    category: hb_unicode_general_category_t,
    before: Option<Before>,
    u: char,
) -> bool
    requires { category ≡ general_category u }
    ensures { result ≡ continues tables.now before u }
{
    extender_continues(tables, is_extender(category, u), before, u)
}

/// `continues`, where it is known whether the character continues any grapheme.
pub(crate) fn extender_continues(
    tables: &UnicodeTables,
    extends: bool,
    before: Option<Before>,
    u: char,
) -> bool
    requires { extends ≡ is_extender u }
    ensures { result ≡ continues tables.now before u }
{
    match before {
        None => extends,
        Some(before) => extends || is_joined(tables, before, u),
    }
}

pub(crate) fn is_extender(category: hb_unicode_general_category_t, u: char) -> bool
    requires { category ≡ general_category u }
    ensures { result ≡ is_extender u }
{
    category.is_mark() || is_emoji_modifier(category, u) || u == '\u{200D}' || is_other_extender(u)
}

fn is_emoji_modifier(category: hb_unicode_general_category_t, u: char) -> bool
    requires { category ≡ general_category u }
    ensures { result ≡ is_emoji_modifier u }
{
    matches!(u, '\u{1F3FB}'..='\u{1F3FF}') && matches!(category, GeneralCategory::ModifierSymbol)
}

fn is_other_extender(u: char) -> bool
    ensures { result ≡ is_other_extender u }
{
    matches!(u, '\u{FF9E}'..='\u{FF9F}' | '\u{E0020}'..='\u{E007F}')
}

fn is_joined(tables: &UnicodeTables, before: Before, u: char) -> bool
    ensures { result ≡ is_joined tables.now before u }
{
    let joins_region = is_regional_indicator(u)
        && is_regional_indicator(before.character)
        && !before.continues;
    joins_region || before.character == '\u{200D}' && u.is_emoji_extended_pictographic(tables)
}

pub(crate) fn is_regional_indicator(u: char) -> bool
    ensures { result ≡ is_regional_indicator u }
{
    matches!(u, '\u{1F1E6}'..='\u{1F1FF}')
}
