//! A table of languages, and the search in it.
ghost use Rattle.std.specs.Prelude.{◌≡◌, ◌==◌, ◌≤◌, ◌↔◌, List, ℕ, IsTrue, length};
ghost use Rattle.std.specs.List.{position_or_len};
ghost use Rattle.std.specs.Ordering.{nat_cmp};
ghost use Rattle.std.specs.Cmp.Lexicographic.{slice_cmp};
ghost use Rattle.std.specs.Option.{option_copied};
ghost use Rattle.buffer_common.specs.declared.tag.Tag.{Tag};
ghost use Rattle.buffer_tags.specs.LanguageRows.{TextsRise, row_text, is_before, row_of, primary_part, tags_in};

use arrayvec::ArrayVec;
use buffer_common::language_tags::LanguageTags;
use buffer_common::tag::Tag;
use std::cmp::Ordering;

/// A language's BCP 47 tag with its OpenType tags.
#[derive(Drop)]
pub struct LanguageRow {
    pub text: String,
    pub tags: ArrayVec<Tag, 3>,
}

/// Languages in the byte order of their BCP 47 tags.
#[derive(Drop)]
pub struct LanguageTable {
    rows: Vec<LanguageRow>,
    pub ghost rising: { TextsRise rows.items },
}

impl LanguageTable {
    ghost use Rattle.buffer_tags.specs.LanguageTable.{rows_of};

    /// Whether the BCP 47 tags rise strictly, by their bytes.
    pub fn are_rising(rows: &[LanguageRow]) -> bool
        ensures { IsTrue result ↔ TextsRise rows.now }
    {
        for index in 1..rows.len() {
            if !is_before(&rows[index - 1], &rows[index]) {
                return false;
            }
        }
        true
    }

    /// A table of rows whose BCP 47 tags rise strictly.
    pub fn new(rows: Vec<LanguageRow>) -> LanguageTable
        requires { TextsRise rows.items }
        ensures { rows_of result ≡ rows.items }
    {
        LanguageTable { rows }
    }
}

impl LanguageTags for LanguageTable {
    ghost use Rattle.buffer_tags.specs.LanguageTable.{tags_of_table};

    ghost tags_of = { tags_of_table };

    /// The OpenType tags of the row of the text, else of the row of its subtag before the first hyphen, else none.
    fn tags(&self, text: &str) -> ArrayVec<Tag, 3> {
        let rows = self.rows.as_slice();
        let text = text.as_bytes();
        if let Some(row) = row_at(rows, text) {
            return tags_of_row(Some(row));
        }
        tags_of_row(row_at(rows, primary_part(text)))
    }
}

fn is_before(row: &LanguageRow, next: &LanguageRow) -> bool
    ensures { result ≡ is_before row.now next.now }
{
    row.text.as_str().cmp(next.text.as_str()).is_lt()
}

fn order_of(row: &LanguageRow, text: &[u8]) -> Ordering
    ensures { result ≡ slice_cmp nat_cmp (row_text row.now) text.now }
{
    Ord::cmp(&row.text.as_bytes(), &text)
}

/// The row of the text, by binary search.
fn row_at<'a>(rows: &'a [LanguageRow], text: &[u8]) -> Option<&'a LanguageRow>
    requires { TextsRise rows.now }
    ensures { option_copied result ≡ row_of rows.now text.now }
{
    match rows.binary_search_by(|row| order_of(row, text)) {
        Ok(index) => Some(&rows[index]),
        Err(_) => None,
    }
}

fn primary_part(text: &[u8]) -> &[u8]
    ensures { result.now ≡ primary_part text.now }
{
    &text[..primary_len(text)]
}

fn primary_len(text: &[u8]) -> usize
    ensures value { result ≡ position_or_len (λ byte. byte == 45) text.now }
    ensures within { result ≤ length text.now }
{
    text.iter().take_while(|byte| **byte != b'-').count()
}

fn tags_of_row(row: Option<&LanguageRow>) -> ArrayVec<Tag, 3>
    ensures { result.items ≡ tags_in (option_copied row.entry) }
{
    let Some(row) = row else {
        return ArrayVec::new();
    };
    ArrayVec::try_from(row.tags.as_slice()).unwrap_or_default()
}
