//! What stands for a character in tables and font: tests of all characters, made once for tables and font.
//!
//! Each test walks the characters of Unicode by functions of one form, since the tables give their rows to no other crate;
//! of each character they answer in constant time.
ghost use Rattle.std.specs.Prelude.{◌≡◌, ◌<◌, ◌==◌, ◌||◌, ◌↔◌, IsTrue, true};
ghost use Rattle.std.specs.List.{list_all};
ghost use lib.Utf8.{scalar};
ghost use Rattle.unicode.specs.GeneralCategory.{general_category};
ghost use Rattle.buffer_unicode.specs.Category.{category_number};
ghost use Rattle.buffer_unicode.specs.Character.{is_variation_selector_character};
ghost use Rattle.buffer_unicode_tables.specs.Tables.{class_of, split_of, thai_of};
ghost use Rattle.script_categories.specs.declared.joining_types.hb_arabic_joining_type_t.TheVariants.{T};
ghost use Rattle.script_joining.specs.Types.{joining_type, type_of_character};
ghost use Rattle.shape_laws.specs.Breaks.Characters.{CounterpartKeepsMarks, HalvesKeepMarks};
ghost use Rattle.shape_laws.specs.Breaks.ThaiCharacters.{PrivateKeepsMarks};
ghost use Rattle.shape_laws.specs.Breaks.Types.{AreSeenAs, CounterpartKeepsType, HalvesKeepType, first_letter, joins_nothing, type_of_half};
ghost use Rattle.shape_breaks.specs.Tables.{EachCharacter, KeepMarks, KeepPrivateMarks, KeepTypes, KeepsJoiner, KeepsMarksAt, KeepsPrivateMarksAt, KeepsTypeAt, is_of_other};

use crate::texts::{is_mark, type_of};
use buffer_unicode::{CharExt, GeneralCategoryExt};
use buffer_unicode_tables::{CharTablesExt, UnicodeTables, decompose};
use layout_face::Face;
use script_categories::hb_arabic_joining_type_t;
use script_joining::joining_type;

/// The number after the last character's.
const CHARACTERS: u32 = 0x110000;

/// How many actions there are on Thai characters: SD, SDL, SL and RD.
const THAI_ACTIONS: u8 = 4;

/// COMBINING GRAPHEME JOINER.
const GRAPHEME_JOINER: char = '\u{34F}';

/// DOTTED CIRCLE.
const CIRCLE: char = '\u{25CC}';

// ---- marks

/// Whether what stands for a character in tables and a font is a mark only where the character is one, and U+034F only
/// where it is that: its canonical decomposition (UAX 15, D68), its mirror image (UAX 9), its vertical form; and whether
/// U+034F itself is a mark of class 0 of which the font has no variant.
pub fn keeps_marks(tables: &UnicodeTables, face: &Face) -> bool
    ensures { IsTrue result ↔ KeepMarks tables.now face.now }
{
    keeps_joiner(tables, face) && each_keeps_marks(tables)
}

fn keeps_joiner(tables: &UnicodeTables, face: &Face) -> bool
    ensures { IsTrue result ↔ KeepsJoiner tables.now face.now }
{
    is_mark(GRAPHEME_JOINER)
        && GRAPHEME_JOINER.modified_combining_class(tables) == 0
        && has_no_variant(face)
}

/// Whether the font lists no variant of U+034F (OpenType, cmap format 14).
fn has_no_variant(face: &Face) -> bool
    ensures { result ≡ list_all is_of_other face.now.variants }
{
    face.parts()
        .variants
        .as_slice()
        .iter()
        .all(|row| row.character != GRAPHEME_JOINER)
}

fn each_keeps_marks(tables: &UnicodeTables) -> bool
    ensures { IsTrue result ↔ EachCharacter (KeepsMarksAt tables.now) }
{
    for number in 0..CHARACTERS {
        if !number_keeps_marks(tables, number) {
            return false;
        }
    }
    true
}

fn number_keeps_marks(tables: &UnicodeTables, number: u32) -> bool
    ensures { IsTrue result ↔ (scalar number ≡ true → KeepsMarksAt tables.now number) }
{
    match char::from_u32(number) {
        Some(u) => keeps_marks_at(tables, u),
        None => true,
    }
}

fn keeps_marks_at(tables: &UnicodeTables, u: char) -> bool
    ensures { IsTrue result ↔ KeepsMarksAt tables.now u }
{
    halves_keep_marks(u, decompose(tables, u))
        && counterpart_keeps_marks(u, u.mirrored(tables))
        && counterpart_keeps_marks(u, u.vertical(tables))
}

fn halves_keep_marks(u: char, halves: Option<(char, char)>) -> bool
    ensures { IsTrue result ↔ HalvesKeepMarks u halves }
{
    match halves {
        Some((first, second)) => {
            (is_mark(u) || !is_mark(first)) && first != GRAPHEME_JOINER && second != GRAPHEME_JOINER
        }
        None => true,
    }
}

fn counterpart_keeps_marks(u: char, other: Option<char>) -> bool
    ensures { IsTrue result ↔ CounterpartKeepsMarks u other }
{
    match other {
        Some(other) => (is_mark(u) || !is_mark(other)) && other != GRAPHEME_JOINER,
        None => true,
    }
}

// ---- joining types

/// Whether what stands for a character in tables joins the letters beside it as the character does (Unicode core
/// specification, 'Arabic', cursive joining): its canonical decomposition, its mirror image, its vertical form; whether
/// variation selectors are transparent, and characters that canonical ordering may move, and U+25CC, are transparent or
/// non-joining.
pub fn keeps_types(tables: &UnicodeTables) -> bool
    ensures { IsTrue result ↔ KeepTypes tables.now }
{
    joins_nothing(type_of(tables, CIRCLE)) && each_keeps_type(tables)
}

fn each_keeps_type(tables: &UnicodeTables) -> bool
    ensures { IsTrue result ↔ EachCharacter (KeepsTypeAt tables.now) }
{
    for number in 0..CHARACTERS {
        if !number_keeps_type(tables, number) {
            return false;
        }
    }
    true
}

fn number_keeps_type(tables: &UnicodeTables, number: u32) -> bool
    ensures { IsTrue result ↔ (scalar number ≡ true → KeepsTypeAt tables.now number) }
{
    match char::from_u32(number) {
        Some(u) => keeps_type_at(tables, u),
        None => true,
    }
}

fn keeps_type_at(tables: &UnicodeTables, u: char) -> bool
    ensures { IsTrue result ↔ KeepsTypeAt tables.now u }
{
    halves_keep_type(tables, u)
        && counterpart_keeps_type(tables, u, u.mirrored(tables))
        && counterpart_keeps_type(tables, u, u.vertical(tables))
        && selector_is_transparent(tables, u)
        && (u.modified_combining_class(tables) == 0 || joins_nothing(type_of(tables, u)))
}

fn selector_is_transparent(tables: &UnicodeTables, u: char) -> bool
    ensures { IsTrue result ↔ (is_variation_selector_character u ≡ true → type_of_character tables.now u ≡ T) }
{
    !u.is_variation_selector() || is_transparent(type_of(tables, u))
}

fn is_transparent(joining: hb_arabic_joining_type_t) -> bool
    ensures { IsTrue result ↔ (joining ≡ T) }
{
    matches!(joining, hb_arabic_joining_type_t::T)
}

fn halves_keep_type(tables: &UnicodeTables, u: char) -> bool
    ensures { IsTrue result ↔ HalvesKeepType tables.now (type_of_character tables.now u) (split_of tables.now u) }
{
    match decompose(tables, u) {
        Some((first, second)) => {
            let whole = type_of(tables, u);
            are_seen_as(whole, type_of(tables, first), type_of_half(tables, second))
        }
        None => true,
    }
}

/// Whether two characters are to their neighbours as one of a type.
fn are_seen_as(
    whole: hb_arabic_joining_type_t,
    first: hb_arabic_joining_type_t,
    second: hb_arabic_joining_type_t,
) -> bool
    ensures { IsTrue result ↔ AreSeenAs whole first second }
{
    first_letter(first, second) == whole && first_letter(second, first) == whole
}

fn first_letter(
    first: hb_arabic_joining_type_t,
    second: hb_arabic_joining_type_t,
) -> hb_arabic_joining_type_t
    ensures { result ≡ first_letter first second }
{
    if matches!(first, hb_arabic_joining_type_t::T) {
        second
    } else {
        first
    }
}

fn type_of_half(tables: &UnicodeTables, half: char) -> hb_arabic_joining_type_t
    ensures { result ≡ type_of_half tables.now half }
{
    if half == '\0' {
        hb_arabic_joining_type_t::T
    } else {
        type_of(tables, half)
    }
}

fn counterpart_keeps_type(tables: &UnicodeTables, u: char, other: Option<char>) -> bool
    ensures { IsTrue result ↔ CounterpartKeepsType tables.now u other }
{
    let Some(other) = other else {
        return true;
    };
    let own = type_of(tables, u);
    type_standing_for(tables, u, other) == own && type_of(tables, other) == own
}

/// The joining type of a character by the general category of another one, which it keeps where it stands for that.
fn type_standing_for(tables: &UnicodeTables, u: char, other: char) -> hb_arabic_joining_type_t
    ensures { result ≡ joining_type tables.now other (category_number (general_category u)) }
{
    joining_type(tables, u32::from(other), u.general_category().to_rb())
}

fn joins_nothing(joining: hb_arabic_joining_type_t) -> bool
    ensures { result ≡ joins_nothing joining }
{
    matches!(
        joining,
        hb_arabic_joining_type_t::U | hb_arabic_joining_type_t::T
    )
}

// ---- private forms

/// Whether the private forms of Thai characters in tables are marks only where the characters are, and no U+034F.
pub fn keeps_private_marks(tables: &UnicodeTables) -> bool
    ensures { IsTrue result ↔ KeepPrivateMarks tables.now }
{
    for number in 0..CHARACTERS {
        if !number_keeps_private(tables, number) {
            return false;
        }
    }
    true
}

fn number_keeps_private(tables: &UnicodeTables, number: u32) -> bool
    ensures { IsTrue result ↔ (scalar number ≡ true → KeepsPrivateMarksAt tables.now number) }
{
    match char::from_u32(number) {
        Some(u) => keeps_private_at(tables, u),
        None => true,
    }
}

fn keeps_private_at(tables: &UnicodeTables, u: char) -> bool
    ensures { IsTrue result ↔ KeepsPrivateMarksAt tables.now u }
{
    for action in 0..THAI_ACTIONS {
        if !private_keeps_marks(u, tables.thai(u, action)) {
            return false;
        }
    }
    true
}

fn private_keeps_marks(u: char, forms: Option<(char, char)>) -> bool
    ensures { IsTrue result ↔ PrivateKeepsMarks u forms }
{
    match forms {
        Some((one, other)) => {
            one != GRAPHEME_JOINER
                && other != GRAPHEME_JOINER
                && (is_mark(u) || !(is_mark(one) || is_mark(other)))
        }
        None => true,
    }
}
