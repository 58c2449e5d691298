//! The rows of each table.
//!
//! Each type of row has its impls, by its own definitions; all have this form.
ghost use Rattle.std.specs.Prelude.{◌≡◌, ℕ, Bool, ◌&&◌, ◌≤◌, nat_lt, Some, None, if◌then◌else◌, []};
ghost use Rattle.buffer_unicode.specs.Numbers.{is_scalar};

use crate::keyed::{DoublyKeyed, Row};
use buffer_rows::Numbered;
use std::alloc::Global;

/// How many joining types a row may name.
const JOINING_TYPES: u32 = 7;
/// How many Indic syllabic categories a row may name.
const INDIC_CATEGORIES: u32 = 35;
/// How many Indic positions a row may name.
const INDIC_POSITIONS: u32 = 15;
/// How many categories of the universal shaper a row may name.
const UNIVERSAL_CATEGORIES: u32 = 45;
/// How many Thai actions a row may name.
const THAI_ACTIONS: u32 = 4;
/// How many combining classes there are.
const CLASSES: u32 = 256;

/// A character and the two halves of its canonical decomposition (UAX 15, D68).
#[derive(Clone, Copy)]
pub struct Split {
    pub whole: char,
    pub first: char,
    /// U+0000 where there is no second half.
    pub second: char,
}

impl Numbered for Split {
    ghost number_of = { λ r. r.whole };

    fn number(&self) -> u32 {
        self.whole as u32
    }
}

impl Row<3> for Split {
    ghost use Rattle.buffer_unicode.specs.Rows.{split_of_numbers, is_split_in_range};

    ghost of_numbers = { split_of_numbers };

    ghost is_in_range = { is_split_in_range };

    fn read(numbers: &[u32; 3]) -> Option<Split> {
        let [whole, first, second] = *numbers;
        Some(Split {
            whole: read_character(whole)?,
            first: read_character(first)?,
            second: read_character(second)?,
        })
    }
}

/// Two characters and their primary composite (UAX 15, D114).
#[derive(Clone, Copy)]
pub struct Pair {
    pub first: char,
    pub second: char,
    pub whole: char,
}

impl DoublyKeyed for Pair {
    ghost high = { λ r. r.first };

    ghost low = { λ r. r.second };

    fn high(&self) -> u32 {
        self.first as u32
    }

    fn low(&self) -> u32 {
        self.second as u32
    }
}

impl Row<3> for Pair {
    ghost use Rattle.buffer_unicode.specs.Rows.{pair_of_numbers, is_pair_in_range};

    ghost of_numbers = { pair_of_numbers };

    ghost is_in_range = { is_pair_in_range };

    fn read(numbers: &[u32; 3]) -> Option<Pair> {
        let [first, second, whole] = *numbers;
        Some(Pair {
            first: read_character(first)?,
            second: read_character(second)?,
            whole: read_character(whole)?,
        })
    }
}

/// A character and its modified combining class.
#[derive(Clone, Copy)]
pub struct CharacterClass {
    pub character: char,
    pub class: u8,
}

impl Numbered for CharacterClass {
    ghost number_of = { λ r. r.character };

    fn number(&self) -> u32 {
        self.character as u32
    }
}

impl Row<2> for CharacterClass {
    ghost use Rattle.buffer_unicode.specs.Rows.{character_class_of_numbers, is_character_class_in_range};

    ghost of_numbers = { character_class_of_numbers };

    ghost is_in_range = { is_character_class_in_range };

    fn read(numbers: &[u32; 2]) -> Option<CharacterClass> {
        let [character, class] = *numbers;
        Some(CharacterClass {
            character: read_character(character)?,
            class: below(class, CLASSES)?,
        })
    }
}

/// A character and its counterpart in another direction.
#[derive(Clone, Copy)]
pub struct Counterpart {
    pub character: char,
    pub counterpart: char,
}

impl Numbered for Counterpart {
    ghost number_of = { λ r. r.character };

    fn number(&self) -> u32 {
        self.character as u32
    }
}

impl Row<2> for Counterpart {
    ghost use Rattle.buffer_unicode.specs.Rows.{counterpart_of_numbers, is_counterpart_in_range};

    ghost of_numbers = { counterpart_of_numbers };

    ghost is_in_range = { is_counterpart_in_range };

    fn read(numbers: &[u32; 2]) -> Option<Counterpart> {
        let [character, counterpart] = *numbers;
        Some(Counterpart {
            character: read_character(character)?,
            counterpart: read_character(counterpart)?,
        })
    }
}

/// The characters from the first to the last.
#[derive(Clone, Copy)]
pub struct CharacterRange {
    pub first: char,
    pub last: char,
}

impl Numbered for CharacterRange {
    ghost number_of = { λ r. r.first };

    fn number(&self) -> u32 {
        self.first as u32
    }
}

impl Row<2> for CharacterRange {
    ghost use Rattle.buffer_unicode.specs.Rows.{character_range_of_numbers, is_character_range_in_range};

    ghost of_numbers = { character_range_of_numbers };

    ghost is_in_range = { is_character_range_in_range };

    fn read(numbers: &[u32; 2]) -> Option<CharacterRange> {
        let [first, last] = *numbers;
        Some(CharacterRange {
            first: read_character(first)?,
            last: read_character(last)?,
        })
    }
}

/// A character and the number of its joining type.
#[derive(Clone, Copy)]
pub struct JoiningRow {
    pub character: char,
    /// U L R D ALAPH DALATH_RISH T, from 0.
    pub joining_type: u8,
}

impl Numbered for JoiningRow {
    ghost number_of = { λ r. r.character };

    fn number(&self) -> u32 {
        self.character as u32
    }
}

impl Row<2> for JoiningRow {
    ghost use Rattle.buffer_unicode.specs.Rows.{joining_row_of_numbers, is_joining_row_in_range};

    ghost of_numbers = { joining_row_of_numbers };

    ghost is_in_range = { is_joining_row_in_range };

    fn read(numbers: &[u32; 2]) -> Option<JoiningRow> {
        let [character, joining_type] = *numbers;
        Some(JoiningRow {
            character: read_character(character)?,
            joining_type: below(joining_type, JOINING_TYPES)?,
        })
    }
}

/// A character and the numbers of its syllabic category and its position.
#[derive(Clone, Copy)]
pub struct IndicRow {
    pub character: char,
    pub category: u8,
    pub position: u8,
}

impl Numbered for IndicRow {
    ghost number_of = { λ r. r.character };

    fn number(&self) -> u32 {
        self.character as u32
    }
}

impl Row<3> for IndicRow {
    ghost use Rattle.buffer_unicode.specs.Rows.{indic_row_of_numbers, is_indic_row_in_range};

    ghost of_numbers = { indic_row_of_numbers };

    ghost is_in_range = { is_indic_row_in_range };

    fn read(numbers: &[u32; 3]) -> Option<IndicRow> {
        let [character, category, position] = *numbers;
        Some(IndicRow {
            character: read_character(character)?,
            category: below(category, INDIC_CATEGORIES)?,
            position: below(position, INDIC_POSITIONS)?,
        })
    }
}

/// A character and the number of its category for the universal shaper.
#[derive(Clone, Copy)]
pub struct UniversalRow {
    pub character: char,
    pub category: u8,
}

impl Numbered for UniversalRow {
    ghost number_of = { λ r. r.character };

    fn number(&self) -> u32 {
        self.character as u32
    }
}

impl Row<2> for UniversalRow {
    ghost use Rattle.buffer_unicode.specs.Rows.{universal_row_of_numbers, is_universal_row_in_range};

    ghost of_numbers = { universal_row_of_numbers };

    ghost is_in_range = { is_universal_row_in_range };

    fn read(numbers: &[u32; 2]) -> Option<UniversalRow> {
        let [character, category] = *numbers;
        Some(UniversalRow {
            character: read_character(character)?,
            category: below(category, UNIVERSAL_CATEGORIES)?,
        })
    }
}

/// The private-use characters that replace a character by an action (Thai PUA shaping).
#[derive(Clone, Copy)]
pub struct ThaiRow {
    pub character: char,
    /// SD SDL SL RD, from 0.
    pub action: u8,
    pub first: char,
    pub second: char,
}

impl DoublyKeyed for ThaiRow {
    ghost high = { λ r. r.character };

    ghost low = { λ r. r.action };

    fn high(&self) -> u32 {
        self.character as u32
    }

    fn low(&self) -> u32 {
        self.action as u32
    }
}

impl Row<4> for ThaiRow {
    ghost use Rattle.buffer_unicode.specs.Rows.{thai_row_of_numbers, is_thai_row_in_range};

    ghost of_numbers = { thai_row_of_numbers };

    ghost is_in_range = { is_thai_row_in_range };

    fn read(numbers: &[u32; 4]) -> Option<ThaiRow> {
        let [character, action, first, second] = *numbers;
        Some(ThaiRow {
            character: read_character(character)?,
            action: below(action, THAI_ACTIONS)?,
            first: read_character(first)?,
            second: read_character(second)?,
        })
    }
}

/// The rows of all tables, as a caller gives them.
#[derive(Drop)]
pub struct UnicodeRows {
    /// A character, its first half, its second half or 0.
    pub splits: Vec<[u32; 3]>,
    /// A first character, a second one, and their composite.
    pub pairs: Vec<[u32; 3]>,
    /// A character and its modified combining class.
    pub classes: Vec<[u32; 2]>,
    /// A character and its mirror image.
    pub mirrored: Vec<[u32; 2]>,
    /// A character and its form in vertical text.
    pub vertical: Vec<[u32; 2]>,
    /// The first and the last character of a range of pictographic characters.
    pub pictographic: Vec<[u32; 2]>,
    /// A character and its joining type.
    pub joining: Vec<[u32; 2]>,
    /// A character, its Indic syllabic category and its position.
    pub indic: Vec<[u32; 3]>,
    /// A character and its category for the universal shaper.
    pub universal: Vec<[u32; 2]>,
    /// A character, an action, and the two characters that replace it by the action.
    pub thai: Vec<[u32; 4]>,
}

impl UnicodeRows {
    /// A set of tables without rows.
    pub fn new(alloc: Global) -> UnicodeRows
        ensures splits { result.splits.items ≡ [] }
        ensures pairs { result.pairs.items ≡ [] }
        ensures classes { result.classes.items ≡ [] }
        ensures mirrored { result.mirrored.items ≡ [] }
        ensures vertical { result.vertical.items ≡ [] }
        ensures pictographic { result.pictographic.items ≡ [] }
        ensures joining { result.joining.items ≡ [] }
        ensures indic { result.indic.items ≡ [] }
        ensures universal { result.universal.items ≡ [] }
        ensures thai { result.thai.items ≡ [] }
    {
        UnicodeRows {
            splits: Vec::new(alloc),
            pairs: Vec::new(alloc),
            classes: Vec::new(alloc),
            mirrored: Vec::new(alloc),
            vertical: Vec::new(alloc),
            pictographic: Vec::new(alloc),
            joining: Vec::new(alloc),
            indic: Vec::new(alloc),
            universal: Vec::new(alloc),
            thai: Vec::new(alloc),
        }
    }
}

/// The character of a number, if it is one.
fn read_character(number: u32) -> Option<char>
    ensures { result ≡ (if is_scalar number then Some number else None) }
{
    char::from_u32(number)
}

/// A number below a limit.
fn below(number: u32, limit: u32) -> Option<u8>
    requires { limit ≤ 256 }
    ensures { result ≡ (if nat_lt number limit then Some number else None) }
{
    if number < limit {
        Some(number as u8)
    } else {
        None
    }
}
