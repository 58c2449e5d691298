//! The properties of a text's characters, set_unicode_props (rustybuzz: hb/ot_shape.rs).
ghost use Rattle.std.specs.Prelude.{◌≡◌, ◌≤◌, ◌+◌, ◌==◌, nat_le, true, None, if◌then◌else◌};
ghost use Rattle.std.specs.Char.{IsScalar};
ghost use Rattle.unicode.specs.GeneralCategory.{general_category};
ghost use Rattle.buffer_unicode.specs.Character.{is_default_ignorable_character};
ghost use Rattle.buffer_properties.specs.Properties.{CONTINUATION, bit_if, character_class, properties_of, scratch_flags_of};
ghost use Rattle.std.specs.Int.RustNames.{bit_or};
ghost use Rattle.buffer_glyphs.specs.Items.{strip};
ghost use Rattle.buffer_core.specs.Readings.{always};
ghost use Rattle.shape_text.specs.KnownCharacters.{AreKnown};
ghost use Rattle.shape_text.specs.Properties.{are_characters, glyph_prepared, glyphs_prepared, scratch_flags_of_glyphs, with_properties, HoldsCharacters};
ghost use Rattle.buffer_stages.specs.Stages.{IsFollowed};

use crate::graphemes::{Before, continues, extender_continues};
use crate::known_characters::{KnownCharacter, ROWS, known_of, remembered};
use buffer_common::constants::{
    HB_BUFFER_SCRATCH_FLAG_HAS_CGJ, HB_BUFFER_SCRATCH_FLAG_HAS_DEFAULT_IGNORABLES,
    HB_BUFFER_SCRATCH_FLAG_HAS_NON_ASCII, hb_buffer_scratch_flags_t,
};
use buffer_core::buffer::hb_buffer_t;
use buffer_glyphs::flags::UnicodeProps;
use buffer_glyphs::info::hb_glyph_info_t;
use buffer_properties::character::properties_of;
use buffer_unicode::category::hb_unicode_general_category_t;
use buffer_unicode::{CharExt, GeneralCategoryExt};
use buffer_unicode_tables::{CharTablesExt, UnicodeTables};

/// Sets the property word and the combining class of each character, by Unicode and the tables, and the buffer's
/// scratch flags (`set_unicode_props`). The property word says whether a character continues the grapheme of the one
/// before.
pub fn set_unicode_props(tables: &UnicodeTables, buffer: &mut hb_buffer_t)
    requires characters { HoldsCharacters buffer.old }
    ensures { IsFollowed (always (with_properties tables.now)) buffer.old buffer.new }
{
    let mut scratch_flags = buffer.scratch_flags();
    let known = buffer.known_order();
    prepare_text(tables, buffer.info_slice_mut(), &mut scratch_flags);
    buffer.keep_order(known);
    buffer.set_scratch_flags(scratch_flags);
}

/// Prepares each character; those of a long text are remembered, since few different ones make it up.
fn prepare_text(
    tables: &UnicodeTables,
    glyphs: &mut [hb_glyph_info_t],
    scratch_flags: &mut hb_buffer_scratch_flags_t,
)
    requires { are_characters (strip glyphs.old) ≡ true }
    ensures glyphs { glyphs.new ≡ glyphs_prepared tables.now None glyphs.old }
    ensures scratch_flags { scratch_flags.new ≡ scratch_flags_of_glyphs glyphs.old scratch_flags.old }
{
    // To fill the rows costs more than they save in a shorter text.
    if glyphs.len() < ROWS {
        prepare(tables, glyphs, scratch_flags);
        return;
    }
    let first = known_of(tables, '\0');
    let mut rows = [first; ROWS];
    prepare_by_rows(tables, &mut rows, glyphs, scratch_flags);
}

#[tactic(auto, using(crate::proofs::Prepared::none_prepared, crate::proofs::Prepared::next_character, crate::proofs::Prepared::next_prepared, crate::proofs::Prepared::all_prepared))]
fn prepare_by_rows(
    tables: &UnicodeTables,
    rows: &mut [KnownCharacter; ROWS],
    glyphs: &mut [hb_glyph_info_t],
    scratch_flags: &mut hb_buffer_scratch_flags_t,
)
    requires characters { are_characters (strip glyphs.old) ≡ true }
    requires known { AreKnown tables.now rows.old }
    ensures glyphs { glyphs.new ≡ glyphs_prepared tables.now None glyphs.old }
    ensures scratch_flags { scratch_flags.new ≡ scratch_flags_of_glyphs glyphs.old scratch_flags.old }
{
    let mut before = None;
    for glyph in glyphs.iter_mut() {
        let u = glyph.as_char();
        let row = remembered(tables, u, rows);
        let is_continuation = extender_continues(tables, row.extends, before, u);
        glyph.unicode_props = UnicodeProps(with_continuation(is_continuation, row.word));
        glyph.modified_combining_class = row.class;
        *scratch_flags |= row.scratch_flags;
        before = Some(Before {
            character: u,
            continues: is_continuation,
        });
    }
}

#[tactic(auto, using(crate::proofs::Prepared::none_prepared, crate::proofs::Prepared::next_character, crate::proofs::Prepared::next_prepared, crate::proofs::Prepared::all_prepared))]
fn prepare(
    tables: &UnicodeTables,
    glyphs: &mut [hb_glyph_info_t],
    scratch_flags: &mut hb_buffer_scratch_flags_t,
)
    requires { are_characters (strip glyphs.old) ≡ true }
    ensures glyphs { glyphs.new ≡ glyphs_prepared tables.now None glyphs.old }
    ensures scratch_flags { scratch_flags.new ≡ scratch_flags_of_glyphs glyphs.old scratch_flags.old }
{
    let mut before = None;
    for glyph in glyphs.iter_mut() {
        let u = glyph.as_char();
        let category = u.general_category();
        let is_continuation = continues(tables, category, before, u);
        prepare_glyph(tables, category, is_continuation, glyph, scratch_flags);
        before = Some(Before {
            character: u,
            continues: is_continuation,
        });
    }
}

/// Sets the property word and the combining class of one character of that general category.
fn prepare_glyph(
    tables: &UnicodeTables,
    category: hb_unicode_general_category_t,
    is_continuation: bool,
    glyph: &mut hb_glyph_info_t,
    scratch_flags: &mut hb_buffer_scratch_flags_t,
)
    requires character { IsScalar glyph.old.glyph_id }
    requires category { category ≡ general_category glyph.old.glyph_id }
    ensures glyph { glyph.new ≡ glyph_prepared tables.now is_continuation glyph.old }
    ensures scratch_flags { scratch_flags.new ≡ bit_or scratch_flags.old (scratch_flags_of glyph.old.glyph_id) }
{
    let u = glyph.as_char();
    let is_ignorable = u.is_default_ignorable();
    let word = property_word(category, is_ignorable, u);
    glyph.unicode_props = UnicodeProps(with_continuation(is_continuation, word));
    glyph.modified_combining_class = class_of(tables, category, u);
    *scratch_flags |= scratch_flags_of(is_ignorable, u);
}

/// The property word of a character of that general category: all bits above the category belong to default ignorables.
#[tactic(auto, using(crate::proofs::Words::plain_word))]
pub(crate) fn property_word(
    category: hb_unicode_general_category_t,
    is_ignorable: bool,
    u: char,
) -> u16
    requires category { category ≡ general_category u }
    requires ignorable { is_ignorable ≡ is_default_ignorable_character u }
    ensures { result ≡ properties_of u }
{
    if is_ignorable {
        properties_of(u)
    } else {
        category.to_rb() as u16
    }
}

fn with_continuation(is_continuation: bool, word: u16) -> u16
    ensures { result ≡ (if is_continuation then bit_or word CONTINUATION else word) }
{
    if is_continuation {
        word | UnicodeProps::CONTINUATION.0
    } else {
        word
    }
}

/// The modified combining class of a character of that general category, 0 for one that is no combining mark.
#[tactic(auto, unfolding(buffer_properties::specs::Properties::character_class))]
pub(crate) fn class_of(
    tables: &UnicodeTables,
    category: hb_unicode_general_category_t,
    u: char,
) -> u8
    requires { category ≡ general_category u }
    ensures { result ≡ character_class tables.now u }
{
    if category.is_mark() {
        u.modified_combining_class(tables)
    } else {
        0
    }
}

/// The scratch flags that a character sets.
#[tactic(auto, using(crate::proofs::Words::plain_flags, crate::proofs::Words::ignorable_flags))]
pub(crate) fn scratch_flags_of(is_ignorable: bool, u: char) -> hb_buffer_scratch_flags_t
    requires { is_ignorable ≡ is_default_ignorable_character u }
    ensures { result ≡ scratch_flags_of u }
{
    if is_ignorable {
        ignorable_flags(u)
    } else {
        non_ascii_flag(u)
    }
}

fn non_ascii_flag(u: char) -> hb_buffer_scratch_flags_t
    ensures value { result ≡ bit_if (nat_le 0x80 u) HB_BUFFER_SCRATCH_FLAG_HAS_NON_ASCII }
    ensures below { result ≤ HB_BUFFER_SCRATCH_FLAG_HAS_NON_ASCII }
{
    if '\u{80}' <= u {
        HB_BUFFER_SCRATCH_FLAG_HAS_NON_ASCII
    } else {
        0
    }
}

fn ignorable_flags(u: char) -> hb_buffer_scratch_flags_t
    ensures { result ≡ bit_if (nat_le 0x80 u) HB_BUFFER_SCRATCH_FLAG_HAS_NON_ASCII
        + (HB_BUFFER_SCRATCH_FLAG_HAS_DEFAULT_IGNORABLES + bit_if (u == 0x034F) HB_BUFFER_SCRATCH_FLAG_HAS_CGJ) }
{
    let joiner = if u == '\u{34F}' {
        HB_BUFFER_SCRATCH_FLAG_HAS_CGJ
    } else {
        0
    };
    non_ascii_flag(u) + (HB_BUFFER_SCRATCH_FLAG_HAS_DEFAULT_IGNORABLES + joiner)
}
