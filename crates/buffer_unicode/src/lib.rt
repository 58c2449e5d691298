//! Properties of characters that need no tables (rustybuzz: hb/unicode.rs), and rows of Unicode data: parsed from
//! numbers, checked, and searched (of this project; rustybuzz has tables in code, hb/unicode.rs and
//! hb/ot_shaper_*_table.rs).
#![tactic(auto)]

pub mod category;
pub mod character;
pub mod fault;
pub mod keyed;
pub mod ranges;
pub mod read;
pub mod rows;
mod scripts;
pub mod search;
pub mod space;

pub use category::{GeneralCategoryExt, hb_unicode_general_category_t, law_from_rb_inverts_to_rb};
pub use character::CharExt;
pub use fault::TablesFault;
pub use keyed::{DoublyKeyed, Row};
pub use ranges::CharacterRanges;
pub use read::{follows, read_rows};
pub use rows::{
    CharacterClass, CharacterRange, Counterpart, IndicRow, JoiningRow, Pair, Split, ThaiRow,
    UnicodeRows, UniversalRow,
};
pub use search::find_by_key;
