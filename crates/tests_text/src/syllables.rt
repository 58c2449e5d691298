//! Syllables and languages that are read in from JSON values.
use buffer_common::language_tags::LanguageTags;
use buffer_common::tag::Tag;
use buffer_tags::language_table::LanguageTable;
use script_categories::hb_ot_script_shaper_t::{KHMER_SHAPER, MYANMAR_SHAPER};
use script_categories::{SyllableSpans, SyllableTable};
use serde_json::Value;
use shell_tables_json::{read_languages, read_syllables};
use std::alloc::Global;
use std::test::Fail;

static MACHINE: &str = r#"{"syllables":{"khmer":{"states":3,
    "next":[[0,"C",1],[1,"H",2],[2,"C",1]],"accept":[[1,"consonant"]]}}}"#;

fn syllables(alloc: Global, text: &str) -> Result<SyllableTable, Fail> {
    let value = Value::from_str(alloc, text)?;
    Ok(read_syllables(alloc, &value)?)
}

fn next_syllables(table: &SyllableTable, categories: &[u8; 4]) -> [(usize, u8); 3] {
    [
        table.next(KHMER_SHAPER, categories, 0),
        table.next(KHMER_SHAPER, categories, 3),
        table.next(MYANMAR_SHAPER, categories, 0),
    ]
}

// C H C H: the longest prefix that the machine accepts, then one glyph of the kind of non-clusters.
#[test]
fn khmer_syllables(rt: HostRuntime) -> Result<(), Fail> {
    let table = syllables(rt.alloc(), MACHINE)?;
    let found = next_syllables(&table, &[1, 4, 1, 4]);
    assert_eq!(rt; found, [(3, 0), (4, 2), (1, 2)]);
    Ok(())
}

fn languages(alloc: Global, text: &str) -> Result<LanguageTable, Fail> {
    let value = Value::from_str(alloc, text)?;
    Ok(read_languages(alloc, &value)?)
}

fn have_tags(table: &LanguageTable) -> [bool; 2] {
    let german = [Tag::from_bytes(b"DEU ")];
    [
        table.tags("de-AT").as_slice() == german.as_slice(),
        table.tags("en").is_empty(),
    ]
}

#[test]
fn tags_of_languages(rt: HostRuntime) -> Result<(), Fail> {
    let table = languages(rt.alloc(), r#"{"languages":[["de",["DEU"]],["en",[]]]}"#)?;
    let found = have_tags(&table);
    assert_eq!(rt; found, [true; 2]);
    Ok(())
}
