//! The premises of the promise on breaks.
//!
//! Two of them are of all characters, that joining types are kept and that graphemes are. Each is walked by functions of
//! one form, which say its own definition.
//!
//! `shape_breaks` (`tables`) has the functions on one character's joining type too. This program tries the promise for all
//! shapers, also where no law gives it, so it says the premises itself and uses neither that crate nor `shape_laws`.
ghost use Rattle.std.specs.Prelude.{◌≡◌, ◌↔◌, ◌&&◌, true, IsTrue, chars, length, nat_lt};
ghost use lib.Utf8.{scalar};
ghost use Rattle.unicode.specs.GeneralCategory.{general_category};
ghost use Rattle.buffer_unicode.specs.Category.{category_number};
ghost use Rattle.buffer_unicode_tables.specs.Tables.{split_of};
ghost use Rattle.buffer_core.specs.Segment.{direction_of};
ghost use Rattle.script_joining.specs.Types.{joining_type, type_of_character};
ghost use Rattle.shape_trials.specs.Breaks.{AreSeenAs, ContinuesAlike, CounterpartKeepsType, HalvesKeepType, IsNative, KeepGraphemes, KeepTypes, KeepsGraphemes, KeepsType, begins_plainly, begins_unmarked, character_after_syllable, continues, ends_with_joiner, first_half, first_letter, has_mark, has_sara_am_past, has_staying_mark, have_like_marks, is_marked, is_passed_over, is_sara_am, is_staying_mark, is_taken_for_mark, is_tone_mark, is_unmarked, joins_nothing, keeps_beginning, may_be_cut, may_join, splits_sara_am, type_of_half};

use buffer_common::direction::Direction;
use buffer_common::script::Script;
use buffer_core::buffer::segment::guessed_direction;
use buffer_unicode::{CharExt, GeneralCategoryExt};
use buffer_unicode_tables::{CharTablesExt, UnicodeTables, decompose};
use script_categories::category::{CGJ, Category};
use script_categories::hb_arabic_joining_type_t;
use script_categories::hb_ot_script_shaper_t::{ARABIC_SHAPER, THAI_SHAPER, UNIVERSAL_SHAPER};
use script_dispatch::hb_ot_any_shaper_t;
use script_hangul::jamo::{is_tone, is_trailing, is_vowel};
use script_joining::joining_type;

/// COMBINING GRAPHEME JOINER.
const GRAPHEME_JOINER: char = '\u{34F}';

/// ZERO WIDTH JOINER.
const JOINER: char = '\u{200D}';

/// How many characters a text may have that a font makes ligatures of: there are seven numbers for ligatures.
const LIGATURES: usize = 8;

/// The number after the last character's.
const CHARACTERS: u32 = 0x110000;

/// Whether a line is native: from top to bottom, or in the direction of the script, left to right where it has none.
pub(crate) fn is_native(direction: Direction, script: Option<Script>) -> bool
    ensures { IsTrue result ↔ IsNative direction script }
{
    direction == Direction::TopToBottom || direction == direction_of(script)
}

fn direction_of(script: Option<Script>) -> Direction
    ensures { result ≡ direction_of script }
{
    guessed_direction(Direction::Invalid, script)
}

/// Whether the text of two pieces may be cut between them by a shaper: both have a mark that stays after their first
/// character or neither has one, so that normalization takes as many rounds for each; no COMBINING GRAPHEME JOINER is
/// directly before the cut; and what begins the later piece stays there.
pub(crate) fn may_be_cut(shaper: hb_ot_any_shaper_t, early: &str, late: &str) -> bool
    ensures { result ≡ may_be_cut shaper (chars early.now) (chars late.now) }
{
    have_like_marks(splits_sara_am(shaper), early, late)
        && (!ends_with_joiner(early) && keeps_beginning(late))
}

/// Whether a shaper decomposes SARA AM of Thai and AM of Lao into a mark and a letter, before normalization.
fn splits_sara_am(shaper: hb_ot_any_shaper_t) -> bool
    ensures { result ≡ splits_sara_am shaper }
{
    matches!(shaper, hb_ot_any_shaper_t::Script(THAI_SHAPER))
}

fn have_like_marks(splits: bool, early: &str, late: &str) -> bool
    ensures { result ≡ have_like_marks splits (chars early.now) (chars late.now) }
{
    (is_marked(splits, early) && is_marked(splits, late))
        || (is_unmarked(splits, early) && is_unmarked(splits, late))
}

/// Whether a text has a mark after its first character, or SARA AM, where that is decomposed and no mark begins the text:
/// the mark that SARA AM gives might be moved before one that begins it.
fn is_marked(splits: bool, text: &str) -> bool
    ensures { result ≡ is_marked splits (chars text.now) }
{
    has_staying_mark(text) || (splits && (begins_unmarked(text) && has_sara_am_past(text, 1)))
}

/// Whether a text has a mark after its first character, but for tone marks of Hangul: they may be moved before a syllable.
fn has_staying_mark(text: &str) -> bool
    ensures { result ≡ has_staying_mark (chars text.now) }
{
    text.chars().skip(1).any(is_staying_mark)
}

fn is_staying_mark(c: char) -> bool
    ensures { result ≡ is_staying_mark c }
{
    c.general_category().is_mark() && !is_tone(c)
}

/// Whether a text has SARA AM after its first `count` characters.
fn has_sara_am_past(text: &str, count: usize) -> bool
    ensures { result ≡ has_sara_am_past count (chars text.now) }
{
    text.chars().skip(count).any(is_sara_am)
}

fn is_unmarked(splits: bool, text: &str) -> bool
    ensures { result ≡ is_unmarked splits (chars text.now) }
{
    !has_mark(text) && !(splits && has_sara_am_past(text, 0))
}

fn has_mark(text: &str) -> bool
    ensures { result ≡ has_mark (chars text.now) }
{
    text.chars().any(|c| c.general_category().is_mark())
}

fn is_sara_am(c: char) -> bool
    ensures { result ≡ is_sara_am c }
{
    matches!(c, '\u{E33}' | '\u{EB3}')
}

/// Whether what begins a text stays there: it is neither of the two numbers before which SARA AM may be moved, nor a
/// syllable before which a tone mark of Hangul may be moved.
fn keeps_beginning(text: &str) -> bool
    ensures { result ≡ keeps_beginning (chars text.now) }
{
    begins_plainly(text) && !is_tone_mark(character_after_syllable(text))
}

/// The character after the syllable of Hangul that begins a text.
fn character_after_syllable(text: &str) -> Option<char>
    ensures { result ≡ character_after_syllable (chars text.now) }
{
    text.chars()
        .skip(1)
        .find(|c| !(is_vowel(*c) || is_trailing(*c)))
}

fn is_tone_mark(c: Option<char>) -> bool
    ensures { result ≡ is_tone_mark c }
{
    match c {
        Some(c) => is_tone(c),
        None => false,
    }
}

/// Whether a text begins with none of the two numbers that are no characters and that the Thai shaper takes for marks
/// above.
fn begins_plainly(text: &str) -> bool
    ensures { result ≡ begins_plainly (chars text.now) }
{
    match text.chars().next() {
        Some(c) => !is_taken_for_mark(c),
        None => true,
    }
}

/// Whether a text begins neither with a mark nor with what the Thai shaper takes for one.
fn begins_unmarked(text: &str) -> bool
    ensures { result ≡ begins_unmarked (chars text.now) }
{
    match text.chars().next() {
        Some(c) => !(c.general_category().is_mark() || is_taken_for_mark(c)),
        None => true,
    }
}

fn is_taken_for_mark(c: char) -> bool
    ensures { result ≡ is_taken_for_mark c }
{
    matches!(c, '\u{E3B}' | '\u{EC7}')
}

fn ends_with_joiner(text: &str) -> bool
    ensures { result ≡ ends_with_joiner (chars text.now) }
{
    text.chars().fold(false, |_, c| c == GRAPHEME_JOINER)
}

/// Whether a text may have more ligatures than there are numbers for them.
pub(crate) fn may_run_out_of_numbers(has_ligatures: bool, text: &str) -> bool
    ensures { result ≡ (has_ligatures && nat_lt LIGATURES (length (chars text.now))) }
{
    has_ligatures && character_count(text) > LIGATURES
}

#[tactic(auto, using(std::proofs::lemmas::Str::chars_from_encodes))]
fn character_count(text: &str) -> usize
    ensures { result ≡ length (chars text.now) }
{
    text.chars().count()
}

/// Whether a shaper may join letters as Arabic ones.
pub(crate) fn may_join(shaper: hb_ot_any_shaper_t) -> bool
    ensures { result ≡ may_join shaper }
{
    matches!(
        shaper,
        hb_ot_any_shaper_t::Script(ARABIC_SHAPER | UNIVERSAL_SHAPER)
    )
}

/// Whether each character is to its neighbours as what may stand for it in a text: its decomposition, its mirror image,
/// its vertical form. A context has the character itself.
pub(crate) fn keep_types(tables: &UnicodeTables) -> bool
    ensures { IsTrue result ↔ KeepTypes tables.now }
{
    for number in 0..CHARACTERS {
        if !number_keeps_type(tables, number) {
            return false;
        }
    }
    true
}

fn number_keeps_type(tables: &UnicodeTables, number: u32) -> bool
    ensures { IsTrue result ↔ (scalar number ≡ true → KeepsType tables.now number) }
{
    match char::from_u32(number) {
        Some(c) => keeps_type(tables, c),
        None => true,
    }
}

fn keeps_type(tables: &UnicodeTables, c: char) -> bool
    ensures { IsTrue result ↔ KeepsType tables.now c }
{
    halves_keep_type(tables, c)
        && counterpart_keeps_type(tables, c, c.mirrored(tables))
        && counterpart_keeps_type(tables, c, c.vertical(tables))
        && (c.modified_combining_class(tables) == 0 || joins_nothing(type_of(tables, c)))
}

fn halves_keep_type(tables: &UnicodeTables, c: char) -> bool
    ensures { IsTrue result ↔ HalvesKeepType tables.now (type_of_character tables.now c) (split_of tables.now c) }
{
    match decompose(tables, c) {
        Some((first, second)) => {
            let whole = type_of(tables, c);
            are_seen_as(whole, type_of(tables, first), type_of_half(tables, second))
        }
        None => true,
    }
}

/// Whether two characters are to their neighbours as one of a type.
fn are_seen_as(
    whole: hb_arabic_joining_type_t,
    first: hb_arabic_joining_type_t,
    second: hb_arabic_joining_type_t,
) -> bool
    ensures { IsTrue result ↔ AreSeenAs whole first second }
{
    first_letter(first, second) == whole && first_letter(second, first) == whole
}

fn first_letter(
    first: hb_arabic_joining_type_t,
    second: hb_arabic_joining_type_t,
) -> hb_arabic_joining_type_t
    ensures { result ≡ first_letter first second }
{
    if matches!(first, hb_arabic_joining_type_t::T) {
        second
    } else {
        first
    }
}

fn type_of_half(tables: &UnicodeTables, half: char) -> hb_arabic_joining_type_t
    ensures { result ≡ type_of_half tables.now half }
{
    if half == '\0' {
        hb_arabic_joining_type_t::T
    } else {
        type_of(tables, half)
    }
}

fn counterpart_keeps_type(tables: &UnicodeTables, c: char, other: Option<char>) -> bool
    ensures { IsTrue result ↔ CounterpartKeepsType tables.now c other }
{
    let Some(other) = other else {
        return true;
    };
    let own = type_of(tables, c);
    type_standing_for(tables, c, other) == own && type_of(tables, other) == own
}

fn type_of(tables: &UnicodeTables, c: char) -> hb_arabic_joining_type_t
    ensures { result ≡ type_of_character tables.now c }
{
    type_standing_for(tables, c, c)
}

/// The joining type of a character by the general category of another one, which it keeps where it stands for that.
fn type_standing_for(tables: &UnicodeTables, c: char, other: char) -> hb_arabic_joining_type_t
    ensures { result ≡ joining_type tables.now other (category_number (general_category c)) }
{
    joining_type(tables, u32::from(other), c.general_category().to_rb())
}

fn joins_nothing(joining: hb_arabic_joining_type_t) -> bool
    ensures { result ≡ joins_nothing joining }
{
    matches!(
        joining,
        hb_arabic_joining_type_t::U | hb_arabic_joining_type_t::T
    )
}

/// Whether each character that syllables of the universal shaper pass over continues a grapheme, and each character
/// does so exactly where what may stand for it does.
pub(crate) fn keep_graphemes(tables: &UnicodeTables) -> bool
    ensures { IsTrue result ↔ KeepGraphemes tables.now }
{
    for number in 0..CHARACTERS {
        if !number_keeps_graphemes(tables, number) {
            return false;
        }
    }
    true
}

fn number_keeps_graphemes(tables: &UnicodeTables, number: u32) -> bool
    ensures { IsTrue result ↔ (scalar number ≡ true → KeepsGraphemes tables.now number) }
{
    match char::from_u32(number) {
        Some(c) => keeps_graphemes(tables, c),
        None => true,
    }
}

fn keeps_graphemes(tables: &UnicodeTables, c: char) -> bool
    ensures { IsTrue result ↔ KeepsGraphemes tables.now c }
{
    (!is_passed_over(tables.universal(c)) || continues(c))
        && continues_alike(c, first_half(decompose(tables, c)))
        && continues_alike(c, c.mirrored(tables))
        && continues_alike(c, c.vertical(tables))
}

fn is_passed_over(category: Option<Category>) -> bool
    ensures { result ≡ is_passed_over category }
{
    match category {
        Some(category) => category == CGJ,
        None => false,
    }
}

/// The first half of a decomposition.
fn first_half(halves: Option<(char, char)>) -> Option<char>
    ensures { result ≡ first_half halves }
{
    match halves {
        Some((first, _)) => Some(first),
        None => None,
    }
}

fn continues_alike(c: char, other: Option<char>) -> bool
    ensures { IsTrue result ↔ ContinuesAlike c other }
{
    match other {
        Some(other) => continues(other) == continues(c),
        None => true,
    }
}

/// Whether a character continues a grapheme, as a mark or ZERO WIDTH JOINER.
fn continues(c: char) -> bool
    ensures { result ≡ continues c }
{
    c.general_category().is_mark() || c == JOINER
}
