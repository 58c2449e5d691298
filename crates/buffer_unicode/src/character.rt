//! Properties of a character that need no tables (rustybuzz: hb/unicode.rs, `CharExt`).
//!
//! Its calls have clauses of one form, each by its own definition.
ghost use Rattle.std.specs.Prelude.{◌≡◌, ℕ, Bool};
ghost use Rattle.unicode.specs.GeneralCategory.{general_category};
ghost use Rattle.ucd_category.specs.declared.GeneralCategory.{GeneralCategory};
ghost use Rattle.buffer_common.specs.declared.script.Script.{Script};
ghost use Rattle.buffer_unicode.specs.Character.{is_default_ignorable_character, is_variation_selector_character, space_fallback_of};
ghost use Rattle.buffer_unicode.specs.Scripts.{script_of};

use crate::category::hb_unicode_general_category_t;
use crate::scripts::script_named;
use crate::space;
use crate::space::space_t;
use buffer_common::script::Script;
use unicode::properties::{GeneralCategory, Script as UnicodeScript};

/// The properties of a character that need no tables.
pub trait CharExt: Sized {
    ghost script_gives: { Self → Script };

    ghost category_gives: { Self → GeneralCategory };

    ghost space_gives: { Self → ℕ };

    ghost ignorable: { Self → Bool };

    ghost selector: { Self → Bool };

    /// Its script by Unicode's long name (UAX 24), `UNKNOWN` where the shaper has no constant of that name.
    fn script(self) -> Script
        ensures { result ≡ script_gives self };

    /// Its general category (UAX 44).
    fn general_category(self) -> hb_unicode_general_category_t
        ensures { result ≡ category_gives self };

    /// The type of the space that it is, `NOT_SPACE` for all other characters.
    fn space_fallback(self) -> space_t
        ensures { result ≡ space_gives self };

    /// Whether it is hidden where the font has no rule for it (HarfBuzz: `is_default_ignorable`).
    fn is_default_ignorable(self) -> bool
        ensures { result ≡ ignorable self };

    /// Whether it is a variation selector, which chooses a variant of the character before it.
    fn is_variation_selector(self) -> bool
        ensures { result ≡ selector self };
}

impl CharExt for char {
    ghost script_gives = { script_of };

    ghost category_gives = { general_category };

    ghost space_gives = { space_fallback_of };

    ghost ignorable = { is_default_ignorable_character };

    ghost selector = { is_variation_selector_character };

    fn script(self) -> Script
        ensures { result ≡ script_of self }
    {
        script_named(UnicodeScript::for_char(self))
    }

    fn general_category(self) -> hb_unicode_general_category_t
        ensures { result ≡ general_category self }
    {
        GeneralCategory::for_char(self)
    }

    fn space_fallback(self) -> space_t
        ensures { result ≡ space_fallback_of self }
    {
        match self {
            '\u{0020}' | '\u{00A0}' => space::SPACE,
            '\u{2000}' | '\u{2002}' => space::SPACE_EM_2,
            '\u{2001}' | '\u{2003}' | '\u{3000}' => space::SPACE_EM,
            '\u{2004}' => space::SPACE_EM_3,
            '\u{2005}' => space::SPACE_EM_4,
            '\u{2006}' => space::SPACE_EM_6,
            '\u{2007}' => space::SPACE_FIGURE,
            '\u{2008}' => space::SPACE_PUNCTUATION,
            '\u{2009}' => space::SPACE_EM_5,
            '\u{200A}' => space::SPACE_EM_16,
            '\u{202F}' => space::SPACE_NARROW,
            '\u{205F}' => space::SPACE_4_EM_18,
            _ => space::NOT_SPACE,
        }
    }

    fn is_default_ignorable(self) -> bool
        ensures { result ≡ is_default_ignorable_character self }
    {
        matches!(
            self,
            '\u{00AD}'
                | '\u{034F}'
                | '\u{061C}'
                | '\u{17B4}'..='\u{17B5}'
                | '\u{180B}'..='\u{180F}'
                | '\u{200B}'..='\u{200F}'
                | '\u{202A}'..='\u{202E}'
                | '\u{2060}'..='\u{206F}'
                | '\u{FE00}'..='\u{FE0F}'
                | '\u{FEFF}'
                | '\u{FFF0}'..='\u{FFF8}'
                | '\u{1D173}'..='\u{1D17A}'
                | '\u{E0000}'..='\u{E0FFF}'
        )
    }

    fn is_variation_selector(self) -> bool
        ensures { result ≡ is_variation_selector_character self }
    {
        matches!(self, '\u{FE00}'..='\u{FE0F}' | '\u{E0100}'..='\u{E01EF}')
    }
}
