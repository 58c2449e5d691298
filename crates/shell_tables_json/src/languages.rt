//! Reads the OpenType tags of languages.
ghost use Rattle.std.specs.Prelude.{◌≡◌, ◌≢◌, ◌≤◌, IfOk, IfErr, Ok, Err, length, map};
ghost use Rattle.std.specs.Option.{option_copied};
ghost use Rattle.serde_json.specs.View.{view, items_view};
ghost use Rattle.buffer_tags.specs.LanguageRows.{TextsRise};
ghost use Rattle.shell_tables_json.specs.Languages.{languages_in, language_in, tags, tags_in, language, follows, languages_in_order, languages_of};

use arrayvec::ArrayVec;
use buffer_common::tag::Tag;
use buffer_tags::language_table::{LanguageRow, LanguageTable};
use serde_json::Value;
use shell_json::cell::{Cell, pair};
use shell_json::fault::JsonFault;
use shell_json::items::{list, list_at, text, two_items};
use std::alloc::Global;

/// The greatest number of OpenType tags of a language.
const MAX_TAGS: usize = 3;

/// Reads the rows of the key `languages`, whose texts rise by their bytes.
pub fn read_languages(alloc: Global, value: &Value) -> Result<LanguageTable, JsonFault>
    ensures ok { IfOk result (λ t. languages_of (view value.now) ≡ Ok (languages_in t)) }
    ensures refused { IfErr result (λ e. e ≢ JsonFault.OutOfMemory → languages_of (view value.now) ≡ Err e) }
{
    if !value.is_object() {
        return Err(JsonFault::WrongShape);
    }
    let rows = read_language_rows(alloc, list_at(value, "languages")?)?;
    Ok(LanguageTable::new(rows))
}

fn read_language_rows(alloc: Global, values: &[Value]) -> Result<Vec<LanguageRow>, JsonFault>
    ensures ok { IfOk result (λ v. languages_in_order (items_view values.now) ≡ Ok (map language_in v.items)) }
    ensures refused { IfErr result (λ e. e ≢ JsonFault.OutOfMemory
        → languages_in_order (items_view values.now) ≡ Err e) }
    ensures rising { IfOk result (λ v. TextsRise v.items) }
{
    let mut rows: Vec<LanguageRow> = Vec::new(alloc);
    for value in values {
        let row = read_row(alloc, value)?;
        if !follows(rows.last(), &row) {
            return Err(JsonFault::OutOfOrder);
        }
        rows.push(row)?;
    }
    Ok(rows)
}

/// Whether a row is the first, or its text is greater than that of the row before.
fn follows(before: Option<&LanguageRow>, row: &LanguageRow) -> bool
    ensures { result ≡ follows (option_copied before.entry) row.now }
{
    match before {
        Some(before) => before.text.as_str().cmp(row.text.as_str()).is_lt(),
        None => true,
    }
}

fn read_row(alloc: Global, value: &Value) -> Result<LanguageRow, JsonFault>
    ensures ok { IfOk result (λ r. language (view value.now) ≡ Ok (language_in r)) }
    ensures refused { IfErr result (λ e. e ≢ JsonFault.OutOfMemory → language (view value.now) ≡ Err e) }
{
    let (name, tags) = two_items(value)?;
    let (name, tags) = pair(text(name), read_tags(tags))?;
    Ok(LanguageRow {
        text: String::from_str(alloc, name)?,
        tags,
    })
}

#[tactic(auto, using(crate::proofs::Texts::few_are_read, crate::proofs::Texts::many_are_refused))]
fn read_tags(value: &Value) -> Result<ArrayVec<Tag, 3>, JsonFault>
    ensures ok { IfOk result (λ v. tags (view value.now) ≡ Ok v.items) }
    ensures refused { IfErr result (λ e. tags (view value.now) ≡ Err e) }
{
    let values = list(value)?;
    if values.len() > MAX_TAGS {
        return Err(JsonFault::WrongShape);
    }
    tags_of(values)
}

fn tags_of(values: &[Value]) -> Result<ArrayVec<Tag, 3>, JsonFault>
    requires { length values.now ≤ MAX_TAGS }
    ensures ok { IfOk result (λ v. tags_in (items_view values.now) ≡ Ok v.items) }
    ensures refused { IfErr result (λ e. tags_in (items_view values.now) ≡ Err e) }
{
    let mut tags = ArrayVec::new();
    for value in values {
        tags.push(Tag::read(value)?);
    }
    Ok(tags)
}
