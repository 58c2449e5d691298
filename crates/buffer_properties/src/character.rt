//! The properties of a character as numbers (rustybuzz: hb/unicode.rs, hb/buffer.rs, `init_unicode_props`).
ghost use Rattle.std.specs.Prelude.{◌≡◌, ◌≤◌, ◌<◌};
ghost use Rattle.unicode.specs.GeneralCategory.{general_category};
ghost use Rattle.buffer_unicode.specs.Category.{category_number};
ghost use Rattle.buffer_properties.specs.Properties.{bit_if, is_hidden_character, is_mark_character, properties_of, text_properties_of, character_class, scratch_flags_of};

use buffer_common::constants::{
    HB_BUFFER_SCRATCH_FLAG_HAS_CGJ, HB_BUFFER_SCRATCH_FLAG_HAS_DEFAULT_IGNORABLES,
    HB_BUFFER_SCRATCH_FLAG_HAS_NON_ASCII, hb_buffer_scratch_flags_t,
};
use buffer_glyphs::flags::UnicodeProps;
use buffer_unicode::category::GeneralCategoryExt;
use buffer_unicode::character::CharExt;
use buffer_unicode_tables::{CharTablesExt, UnicodeTables};

/// The property word that a character has in an item: its general category, and whether it is ignorable, hidden, a
/// joiner or a non-joiner.
#[tactic(auto, unfolding(crate::specs::Properties::properties_of))]
pub fn properties_of(u: char) -> u16
    ensures value { result ≡ properties_of u }
    ensures below { result < 0x400 }
{
    category_of(u)
        + (bit_if(u.is_default_ignorable(), UnicodeProps::IGNORABLE)
            + (bit_if(is_hidden(u), UnicodeProps::HIDDEN)
                + (bit_if(u == '\u{200D}', UnicodeProps::CF_ZWJ)
                    + bit_if(u == '\u{200C}', UnicodeProps::CF_ZWNJ))))
}

/// The property word of a character of a text before its graphemes are known: a combining mark is flagged as a
/// continuation.
pub(crate) fn text_properties_of(u: char) -> u16
    ensures { result ≡ text_properties_of u }
{
    properties_of(u) + bit_if(is_mark(u), UnicodeProps::CONTINUATION)
}

/// The modified combining class of a combining mark, 0 for all other characters.
#[tactic(auto, unfolding(crate::specs::Properties::character_class))]
pub fn character_class(tables: &UnicodeTables, u: char) -> u8
    ensures { result ≡ character_class tables.now u }
{
    if is_mark(u) {
        u.modified_combining_class(tables)
    } else {
        0
    }
}

/// The scratch flags that a character sets.
pub(crate) fn scratch_flags_of(u: char) -> hb_buffer_scratch_flags_t
    ensures { result ≡ scratch_flags_of u }
{
    flag_if('\u{80}' <= u, HB_BUFFER_SCRATCH_FLAG_HAS_NON_ASCII)
        + (flag_if(
            u.is_default_ignorable(),
            HB_BUFFER_SCRATCH_FLAG_HAS_DEFAULT_IGNORABLES,
        ) + flag_if(u == '\u{34F}', HB_BUFFER_SCRATCH_FLAG_HAS_CGJ))
}

fn is_mark(u: char) -> bool
    ensures { result ≡ is_mark_character u }
{
    u.general_category().is_mark()
}

/// Whether a character is a default ignorable that stays hidden where the font shows other ignorables.
fn is_hidden(u: char) -> bool
    ensures { result ≡ is_hidden_character u }
{
    matches!(u, '\u{180B}'..='\u{180D}' | '\u{180F}' | '\u{E0020}'..='\u{E007F}' | '\u{34F}')
}

fn bit_if(b: bool, bit: UnicodeProps) -> u16
    ensures value { result ≡ bit_if b bit.0 }
    ensures below { result ≤ bit.0 }
{
    if b { bit.0 } else { 0 }
}

fn flag_if(b: bool, flag: hb_buffer_scratch_flags_t) -> hb_buffer_scratch_flags_t
    ensures value { result ≡ bit_if b flag }
    ensures below { result ≤ flag }
{
    if b { flag } else { 0 }
}

/// The number of a character's general category.
#[tactic(auto, using(crate::proofs::PropertyWords::category_fits))]
fn category_of(u: char) -> u16
    ensures value { result ≡ category_number (general_category u) }
    ensures below { result < 32 }
{
    u.general_category().to_rb() as u16
}
