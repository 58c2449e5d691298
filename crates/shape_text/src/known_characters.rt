//! What a text's characters have again and again, which is remembered while their properties are set.
ghost use Rattle.std.specs.Prelude.{◌≡◌};
ghost use Rattle.shape_text.specs.KnownCharacters.{AreKnown, known_character};

use crate::graphemes::is_extender;
use crate::properties::{class_of, property_word, scratch_flags_of};
use buffer_common::constants::hb_buffer_scratch_flags_t;
use buffer_unicode::CharExt;
use buffer_unicode_tables::UnicodeTables;

/// How many characters are remembered at once: those of a script mostly have rows of their own.
pub(crate) const ROWS: usize = 128;

/// What is known of a character, whatever is before it. It only saves time: the same would be found again.
#[derive(Clone, Copy)]
pub(crate) struct KnownCharacter {
    pub character: char,
    /// The scratch flags that it sets.
    pub scratch_flags: hb_buffer_scratch_flags_t,
    /// The property word, without the bit of a continuation.
    pub word: u16,
    /// The modified combining class.
    pub class: u8,
    /// Whether it continues any grapheme.
    pub extends: bool,
}

pub(crate) fn known_of(tables: &UnicodeTables, u: char) -> KnownCharacter
    ensures { result ≡ known_character tables.now u }
{
    let category = u.general_category();
    let is_ignorable = u.is_default_ignorable();
    KnownCharacter {
        character: u,
        scratch_flags: scratch_flags_of(is_ignorable, u),
        word: property_word(category, is_ignorable, u),
        class: class_of(tables, category, u),
        extends: is_extender(category, u),
    }
}

/// What is known of a character: remembered, or found and remembered from now on.
#[tactic(auto, using(crate::proofs::KnownCharacters::row_known, crate::proofs::KnownCharacters::row_made))]
pub(crate) fn remembered(
    tables: &UnicodeTables,
    u: char,
    rows: &mut [KnownCharacter; ROWS],
) -> KnownCharacter
    requires { AreKnown tables.now rows.old }
    ensures row { result ≡ known_character tables.now u }
    ensures known { AreKnown tables.now rows.new }
{
    let at = u as usize % ROWS;
    let row = rows[at];
    if row.character == u {
        return row;
    }
    let found = known_of(tables, u);
    rows[at] = found;
    found
}
