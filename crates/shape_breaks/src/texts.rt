//! Where a text has marks and letters, found once, so that each of its cuts is tested at once.
ghost use Rattle.std.specs.Prelude.{◌≡◌, Some, if◌then◌else◌};
ghost use Rattle.script_joining.specs.Joining.{is_letter};
ghost use Rattle.script_joining.specs.Types.{type_of_character};
ghost use Rattle.buffer_properties.specs.Properties.{is_mark_character};
ghost use Rattle.script_thai.specs.ThaiVowel.{thai_or_lao};
ghost use Rattle.shape_breaks.specs.Texts.{first_later, has_property, index_from, is_above, is_after, is_before, is_from, is_nowhere, is_vowel_am, last_index, occurrences, piece_marks, piece_occurrences, text_marks};

use buffer_unicode::{CharExt, GeneralCategoryExt};
use buffer_unicode_tables::UnicodeTables;
use script_categories::hb_arabic_joining_type_t;
use script_joining::joining_type;

const SARA_AM: u32 = 0x0E33;

/// The difference between a character of Lao and the one of Thai at the same offset of its block.
const LAO: u32 = 0x80;

/// A property of characters that a cut depends on.
#[derive(Clone, Copy)]
pub enum Property {
    /// A combining mark: general category M.
    Mark,
    /// A combining mark that is no SARA AM.
    PlainMark,
    /// SARA AM of Thai and AM of Lao, which are decomposed into a mark and a letter.
    SaraAm,
    /// A letter to its neighbours, as Arabic ones join: any character that isn't transparent.
    Letter,
}

/// Where a text has characters with a property.
#[derive(Clone, Copy)]
pub struct Occurrences {
    /// The index of the first one after the text's first character.
    pub first_later: Option<usize>,
    /// The index of the last one.
    pub last: Option<usize>,
}

/// Where a text has marks and letters.
#[derive(Clone, Copy)]
pub struct TextMarks {
    pub marks: Occurrences,
    pub plain_marks: Occurrences,
    pub vowels: Occurrences,
    pub letters: Occurrences,
}

impl TextMarks {
    /// Where a text has marks and letters, by tables: walks the text once for each property.
    pub fn of_text(tables: &UnicodeTables, text: &[char]) -> TextMarks
        ensures { result ≡ text_marks tables.now text.now }
    {
        TextMarks {
            marks: occurrences_of(tables, text, Property::Mark),
            plain_marks: occurrences_of(tables, text, Property::PlainMark),
            vowels: occurrences_of(tables, text, Property::SaraAm),
            letters: occurrences_of(tables, text, Property::Letter),
        }
    }
}

impl TextMarks {
    /// Where a piece from an index on has marks, whose own marks are found, and what is left of the text from that index
    /// on with it.
    pub(crate) fn piece(self, from: usize, piece: TextMarks) -> TextMarks
        ensures { result ≡ piece_marks from self piece }
    {
        TextMarks {
            marks: self.marks.piece(from, piece.marks),
            plain_marks: self.plain_marks.piece(from, piece.plain_marks),
            vowels: self.vowels.piece(from, piece.vowels),
            letters: self.letters.piece(from, piece.letters),
        }
    }
}

impl Occurrences {
    /// Where a piece from an index on has such a character first after its own first one, and what is left of the text
    /// from that index on has it last.
    fn piece(self, from: usize, piece: Occurrences) -> Occurrences
        ensures { result ≡ piece_occurrences from self piece }
    {
        Occurrences {
            first_later: piece.first_later,
            last: index_from(from, self.last),
        }
    }

    /// Whether the piece before an index has such a character after its first one.
    pub(crate) fn is_before(self, at: usize) -> bool
        ensures { result ≡ is_before self at }
    {
        match self.first_later {
            Some(first) => first < at,
            None => false,
        }
    }

    /// Whether the piece from an index on has such a character after its first one.
    pub(crate) fn is_after(self, at: usize) -> bool
        ensures { result ≡ is_after self at }
    {
        match self.last {
            Some(last) => at < last,
            None => false,
        }
    }

    /// Whether the piece from an index on has such a character.
    pub(crate) fn is_from(self, at: usize) -> bool
        ensures { result ≡ is_from self at }
    {
        match self.last {
            Some(last) => at <= last,
            None => false,
        }
    }

    /// Whether the text has no such character.
    pub(crate) fn is_nowhere(self) -> bool
        ensures { result ≡ is_nowhere self }
    {
        self.last.is_none()
    }
}

/// An index of a text in what is left of it from another index on.
fn index_from(from: usize, index: Option<usize>) -> Option<usize>
    ensures { result ≡ index_from from index }
{
    match index {
        Some(index) => {
            if from <= index {
                Some(index - from)
            } else {
                None
            }
        }
        None => None,
    }
}

fn occurrences_of(tables: &UnicodeTables, text: &[char], property: Property) -> Occurrences
    ensures { result ≡ occurrences (has_property tables.now property) text.now }
{
    Occurrences {
        first_later: first_later(tables, text, property),
        last: last_index(tables, text, property),
    }
}

/// The index of the first character with a property after the first character.
fn first_later(tables: &UnicodeTables, text: &[char], property: Property) -> Option<usize>
    ensures { result ≡ first_later (has_property tables.now property) text.now }
{
    for i in 1..text.len() {
        if has_property(tables, property, text[i]) {
            return Some(i);
        }
    }
    None
}

/// The index of the last character with a property.
fn last_index(tables: &UnicodeTables, text: &[char], property: Property) -> Option<usize>
    ensures { result ≡ last_index (has_property tables.now property) text.now }
{
    let mut last = None;
    for i in 0..text.len() {
        last = index_if(has_property(tables, property, text[i]), i, last);
    }
    last
}

/// An index where a test holds, else another one.
fn index_if(holds: bool, index: usize, other: Option<usize>) -> Option<usize>
    ensures { result ≡ (if holds then Some index else other) }
{
    if holds { Some(index) } else { other }
}

fn has_property(tables: &UnicodeTables, property: Property, u: char) -> bool
    ensures { result ≡ has_property tables.now property u }
{
    match property {
        Property::Mark => is_mark(u),
        Property::PlainMark => is_mark(u) && !is_vowel_am(u),
        Property::SaraAm => is_vowel_am(u),
        Property::Letter => is_letter(tables, u),
    }
}

/// Whether a character is a combining mark.
pub(crate) fn is_mark(u: char) -> bool
    ensures { result ≡ is_mark_character u }
{
    u.general_category().is_mark()
}

/// The Thai character of one of Thai or Lao, at the same offset of its block.
fn thai_or_lao(u: char) -> u32
    ensures { result ≡ thai_or_lao u }
{
    u32::from(u) - (u32::from(u) & LAO)
}

fn is_vowel_am(u: char) -> bool
    ensures { result ≡ is_vowel_am u }
{
    thai_or_lao(u) == SARA_AM
}

/// Whether a character is a mark above of Thai or Lao (`IS_ABOVE_BASE_MARK`).
pub(crate) fn is_above(u: char) -> bool
    ensures { result ≡ is_above u }
{
    matches!(
        thai_or_lao(u),
        0x0E31 | 0x0E34..=0x0E37 | 0x0E3B | 0x0E47..=0x0E4E
    )
}

fn is_letter(tables: &UnicodeTables, u: char) -> bool
    ensures { result ≡ is_letter (type_of_character tables.now u) }
{
    !matches!(type_of(tables, u), hb_arabic_joining_type_t::T)
}

/// The joining type of a character.
pub(crate) fn type_of(tables: &UnicodeTables, u: char) -> hb_arabic_joining_type_t
    ensures { result ≡ type_of_character tables.now u }
{
    joining_type(tables, u32::from(u), u.general_category().to_rb())
}
