//! The joining type of a character (rustybuzz: hb/ot_shaper_arabic.rs).
ghost use Rattle.std.specs.Prelude.{◌≡◌, find};
ghost use Rattle.std.specs.Option.{option_map};
ghost use Rattle.buffer_glyphs.specs.Items.{item_of};
ghost use Rattle.script_joining.specs.Glyphs.{item_typed, number_of, type_kept, type_numbered};
ghost use Rattle.script_joining.specs.Joining.{is_letter, nearest, nearest_past, types_of_characters};
ghost use Rattle.script_joining.specs.Types.{joining_type, listed_type, type_of_category, type_of_character, type_of_item};
ghost use Rattle.buffer_glyphs.specs.Origins.{origin_of};

use buffer_glyphs::info::hb_glyph_info_t;
use buffer_unicode::{CharExt, GeneralCategoryExt};
use buffer_unicode_tables::UnicodeTables;
use script_categories::{hb_arabic_joining_type_t, joining_type_of_number};
use unicode::properties::GeneralCategory;

/// The joining type of a character of a general category (`get_joining_type`): that of its row in the tables; without a
/// row, transparent for Mn, Me and Cf, else non-joining.
pub fn joining_type(tables: &UnicodeTables, u: u32, category: u32) -> hb_arabic_joining_type_t
    ensures { result ≡ joining_type tables.now u category }
{
    match listed_type(tables, u) {
        Some(joining) => joining,
        None => type_of_category(category),
    }
}

fn listed_type(tables: &UnicodeTables, u: u32) -> Option<hb_arabic_joining_type_t>
    ensures { result ≡ listed_type tables.now u }
{
    match char::from_u32(u) {
        Some(c) => type_in_row(tables, c),
        None => None,
    }
}

fn type_in_row(tables: &UnicodeTables, c: char) -> Option<hb_arabic_joining_type_t>
    ensures { result ≡ listed_type tables.now c }
{
    match tables.joining(c) {
        Some(number) => joining_type_of_number(number),
        None => None,
    }
}

fn type_of_category(category: u32) -> hb_arabic_joining_type_t
    ensures { result ≡ type_of_category category }
{
    let is_transparent = category == GeneralCategory::NonspacingMark.to_rb()
        || category == GeneralCategory::EnclosingMark.to_rb()
        || category == GeneralCategory::Format.to_rb();
    if is_transparent {
        hb_arabic_joining_type_t::T
    } else {
        hb_arabic_joining_type_t::U
    }
}

/// The joining type of the nearest letter in a context, whose first character is next to the text.
#[tactic(auto, using(crate::proofs::Formed::found_seen))]
pub(crate) fn nearest_in_context(
    tables: &UnicodeTables,
    context: &[char],
) -> hb_arabic_joining_type_t
    ensures { result ≡ nearest (types_of_characters tables.now context.now) }
{
    first_letter(tables, context).unwrap_or(hb_arabic_joining_type_t::U)
}

fn first_letter(tables: &UnicodeTables, context: &[char]) -> Option<hb_arabic_joining_type_t>
    ensures { result
        ≡ option_map (type_of_character tables.now)
        (find (λ u. is_letter (type_of_character tables.now u)) context.now) }
{
    let first = context
        .iter()
        .find(|u| is_letter(type_of_character(tables, **u)))?;
    Some(type_of_character(tables, *first))
}

fn type_of_character(tables: &UnicodeTables, u: char) -> hb_arabic_joining_type_t
    ensures { result ≡ type_of_character tables.now u }
{
    joining_type(tables, u32::from(u), u.general_category().to_rb())
}

/// Stores in a glyph its joining type. No other part of the record is written, which takes less than to copy it.
pub(crate) fn keep_type(tables: &UnicodeTables, glyph: &mut hb_glyph_info_t)
    ensures item { item_of glyph.new ≡ item_typed tables.now (item_of glyph.old) }
    ensures origin { origin_of glyph.new ≡ origin_of glyph.old }
{
    let category = u32::from(glyph.unicode_props.0 & 0x1F);
    glyph.auxiliary = number_of(joining_type(tables, glyph.glyph_id, category));
}

fn number_of(joining: hb_arabic_joining_type_t) -> u8
    ensures { result ≡ number_of joining }
{
    match joining {
        hb_arabic_joining_type_t::U => 0,
        hb_arabic_joining_type_t::L => 1,
        hb_arabic_joining_type_t::R => 2,
        hb_arabic_joining_type_t::D => 3,
        hb_arabic_joining_type_t::GroupAlaph => 4,
        hb_arabic_joining_type_t::GroupDalathRish => 5,
        hb_arabic_joining_type_t::T => 6,
        hb_arabic_joining_type_t::X => 7,
    }
}

/// The joining type that a glyph stores.
pub(crate) fn type_kept(glyph: &hb_glyph_info_t) -> hb_arabic_joining_type_t
    ensures { result ≡ type_kept glyph.now }
{
    joining_type_of_number(glyph.auxiliary).unwrap_or(hb_arabic_joining_type_t::U)
}

/// Whether a character is a letter for its neighbours: all but transparent ones are.
pub(crate) fn is_letter(joining: hb_arabic_joining_type_t) -> bool
    ensures { result ≡ is_letter joining }
{
    !matches!(joining, hb_arabic_joining_type_t::T)
}

/// The type of the nearest letter after one more character.
pub(crate) fn nearest_past(
    before: hb_arabic_joining_type_t,
    joining: hb_arabic_joining_type_t,
) -> hb_arabic_joining_type_t
    ensures { result ≡ nearest_past before joining }
{
    if is_letter(joining) { joining } else { before }
}
