//! The default tables, by rows that the standard names (UnicodeData.txt, ArabicShaping.txt, BidiMirroring.txt,
//! IndicSyllabicCategory.txt, the OpenType language system tags).
use buffer_common::language_tags::LanguageTags;
use buffer_common::tag::Tag;
use buffer_unicode_tables::{CharTablesExt, compose, decompose};
use script_categories::SyllableSpans;
use script_categories::hb_ot_script_shaper_t::INDIC_SHAPER;
use shell_default_tables::{DefaultTables, default_tables};
use std::process::Abort;

/// Letters with marks, classes and counterparts.
fn has_characters(tables: &DefaultTables) -> bool {
    let characters = &tables.characters;
    decompose(characters, '\u{e1}') == Some(('a', '\u{301}'))
        && compose(characters, 'a', '\u{301}') == Some('\u{e1}')
        && '\u{301}'.modified_combining_class(characters) == 230
        && '\u{5b0}'.modified_combining_class(characters) == 22
        && 'a'.modified_combining_class(characters) == 0
        && '('.mirrored(characters) == Some(')')
        && '\u{2026}'.vertical(characters) == Some('\u{fe19}')
        && '\u{a9}'.is_emoji_extended_pictographic(characters)
}

/// Joining types and categories: beh is dual-joining, ka a consonant at the base, a Balinese letter a base; a tone mark
/// of Thai has private forms.
fn has_categories(tables: &DefaultTables) -> bool {
    let characters = &tables.characters;
    characters.joining('\u{628}') == Some(3)
        && characters.joining('a').is_none()
        && characters.indic('\u{915}') == Some((1, 4))
        && characters.universal('\u{1b13}') == Some(1)
        && characters.thai('\u{e48}', 0) == Some(('\u{f70a}', '\u{f88b}'))
}

/// A consonant is a syllable of the Indic machine.
fn has_machines(tables: &DefaultTables) -> bool {
    tables.syllables.next(INDIC_SHAPER, &[1], 0) == (1, 0)
}

/// The first tag of a language is the one that is wanted.
fn has_language(tables: &DefaultTables, text: &str, wanted: &[u8; 4]) -> bool {
    match tables.languages.tags(text).first() {
        Some(tag) => *tag == Tag::from_bytes(wanted),
        None => false,
    }
}

fn has_rows(rt: &impl Abort, tables: &DefaultTables) {
    assert!(rt; has_characters(tables), "characters");
    assert!(rt; has_categories(tables), "categories");
    assert!(rt; has_machines(tables), "machines");
    assert!(rt; has_language(tables, "en", b"ENG "), "en");
    assert!(rt; has_language(tables, "tr", b"TRK "), "tr");
}

#[test]
fn default_tables_have_rows(rt: HostRuntime) {
    match default_tables(rt.alloc()) {
        Ok(tables) => {
            has_rows(&rt, &tables);
            drop(tables);
        }
        Err(_fault) => assert!(rt; false, "no tables"),
    }
}
