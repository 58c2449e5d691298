//! The languages in binary form.
ghost use Rattle.std.specs.Prelude.{◌≡◌, ◌≢◌, ◌≤◌, ◌+◌, true, false, IfOk, IfErr, MatchOption, Ok, Err, length, map};
ghost use Rattle.std.specs.Option.{option_copied};
ghost use Rattle.std.specs.Str.{is_utf8};
ghost use Rattle.buffer_tags.specs.LanguageRows.{TextsRise};
ghost use Rattle.font_bytes.specs.Words.{byte};
ghost use Rattle.shell_tables_bytes.specs.Languages.{follows, is_language, is_text, language_in, language_record, languages_in, languages_of, tags_at, text_at};

use crate::fault::BinaryFault;
use crate::sections::{HEADER, section_of};
use arrayvec::ArrayVec;
use buffer_common::tag::Tag;
use buffer_tags::language_table::{LanguageRow, LanguageTable};
use font_bytes::words::{byte, long};
use std::alloc::Global;

/// The section of the languages.
const LANGUAGES: usize = 10;

/// How many bytes a language has.
const WIDTH: u8 = 26;

/// How many bytes the text of a language has at most.
const MAX_TEXT: u8 = 12;

/// How many tags a language has at most.
const MAX_TAGS: u8 = 3;

/// The languages.
pub fn read_languages(alloc: Global, bytes: &[u8]) -> Result<LanguageTable, BinaryFault>
    requires { HEADER ≤ length bytes.now }
    ensures ok { IfOk result (λ t. languages_of bytes.now ≡ Ok (languages_in t)) }
    ensures refused { IfErr result (λ e. e ≢ BinaryFault.OutOfMemory → languages_of bytes.now ≡ Err e) }
{
    let rows = read_language_rows(alloc, bytes)?;
    Ok(LanguageTable::new(rows))
}

fn read_language_rows(alloc: Global, bytes: &[u8]) -> Result<Vec<LanguageRow>, BinaryFault>
    requires { HEADER ≤ length bytes.now }
    ensures ok { IfOk result (λ v. languages_of bytes.now ≡ Ok (map language_in v.items)) }
    ensures rising { IfOk result (λ v. TextsRise v.items) }
    ensures refused { IfErr result (λ e. e ≢ BinaryFault.OutOfMemory → languages_of bytes.now ≡ Err e) }
{
    let section = section_of(bytes, LANGUAGES, WIDTH)?;
    let mut rows: Vec<LanguageRow> = Vec::with_capacity(alloc, section.count as usize)?;
    for index in 0..section.count {
        let at = section.start + WIDTH as usize * index as usize;
        let row = read_row(alloc, bytes, at)?;
        if !follows(rows.last(), &row) {
            return Err(BinaryFault::Languages);
        }
        rows.push(row)?;
    }
    Ok(rows)
}

/// Whether a row is the first, or its text is greater than that of the row before.
fn follows(before: Option<&LanguageRow>, row: &LanguageRow) -> bool
    ensures { result ≡ follows (option_copied before.entry) row.now }
{
    match before {
        Some(before) => before.text.as_str().cmp(row.text.as_str()).is_lt(),
        None => true,
    }
}

fn read_row(alloc: Global, bytes: &[u8], at: usize) -> Result<LanguageRow, BinaryFault>
    requires { at + 26 ≤ length bytes.now }
    ensures ok { IfOk result (λ r. language_in r ≡ language_record bytes.now at) }
    ensures fit { IfOk result (λ _. is_language bytes.now at ≡ true) }
    ensures refused { IfErr result (λ e. e ≢ BinaryFault.OutOfMemory
        → (e ≡ BinaryFault.Languages) × (is_language bytes.now at ≡ false)) }
{
    let Some(text) = text_at(bytes, at) else {
        return Err(BinaryFault::Languages);
    };
    let count = byte(bytes, at + 13);
    if count > MAX_TAGS {
        return Err(BinaryFault::Languages);
    }
    Ok(LanguageRow {
        text: String::from_str(alloc, text)?,
        tags: tags_of(bytes, at, count),
    })
}

/// The text of a language, none where it is too long or not UTF-8.
fn text_at(bytes: &[u8], at: usize) -> Option<&str>
    requires { at + 26 ≤ length bytes.now }
    ensures { MatchOption result (is_text bytes.entry.now at ≡ false)
        (λ s. (s.now ≡ text_at bytes.entry.now at) × (is_text bytes.entry.now at ≡ true)) }
{
    let length = byte(bytes, at);
    if length > MAX_TEXT {
        return None;
    }
    utf8(&bytes[at + 1..at + 1 + length as usize])
}

/// The text of bytes, where they are UTF-8.
#[tactic(auto, using(crate::proofs::Texts::is_text, crate::proofs::Texts::is_no_text))]
fn utf8(bytes: &[u8]) -> Option<&str>
    ensures { MatchOption result (is_utf8 bytes.now ≡ false)
        (λ s. (s.now ≡ bytes.now) × (is_utf8 bytes.now ≡ true)) }
{
    str::from_utf8(bytes).ok()
}

/// The tags of a language.
#[tactic(auto, using(font_bytes::proofs::Recorded::records_more, font_bytes::proofs::Recorded::records_end))]
fn tags_of(bytes: &[u8], at: usize, count: u8) -> ArrayVec<Tag, 3>
    requires within { at + 26 ≤ length bytes.now }
    requires few { count ≤ 3 }
    requires given { count ≡ byte bytes.now (at + 13) }
    ensures { result.items ≡ tags_at bytes.now at }
{
    let mut tags = ArrayVec::new();
    for index in 0..count {
        tags.push(Tag(long(bytes, at + 14 + 4 * index as usize)));
    }
    tags
}
