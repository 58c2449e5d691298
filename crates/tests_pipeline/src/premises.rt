//! Texts that are regular, and those of which one condition fails.
use crate::data::{ReadTables, face_of};
use buffer_unicode_tables::UnicodeTables;
use shape_premises::{are_equivalent, has_full_expansion, has_short_runs, is_regular};
use std::alloc::Global;
use std::test::Fail;

// U+1026 is U+1025 with U+102E, and U+1B06 is U+1B05 with U+1B34; U+0301 is a mark above.
static TABLES: &str =
    "{\"splits\":[[4134,4133,4142],[6918,6917,6964]],\"classes\":[[769,230],[6964,7],[6980,9]]}";

// The characters of the decompositions, without the composites.
static FONT: &str = "{\"cmap\":[[4133,1],[4142,2],[4150,3],[6917,4],[6964,5],[6980,6]]}";

// A composite, without the first half of its decomposition.
static POOR_FONT: &str = "{\"cmap\":[[4134,1],[4142,2],[4150,3]]}";

fn passes_with(alloc: Global, tables: &UnicodeTables, text: &str) -> Result<bool, Fail> {
    let face = face_of(alloc, FONT)?;
    Ok(is_regular(&face, tables, text))
}

fn passes(alloc: Global, text: &str) -> Result<bool, Fail> {
    let tables = ReadTables::from_text(alloc, TABLES)?;
    passes_with(alloc, tables.borrowed().characters, text)
}

// The first two are equivalent, and so are the last two.
static REGULAR: &str =
    "\u{1026}\u{1036}\n\u{1025}\u{102E}\u{1036}\n\u{1B05}\u{1B34}\u{1B44}\n\u{1B05}\u{1B44}\u{1B34}";

#[test]
fn regular_texts(rt: HostRuntime) -> Result<(), Fail> {
    for text in REGULAR.lines() {
        let passes = passes(rt.alloc(), text)?;
        assert!(rt; passes, "{text}");
    }
    Ok(())
}

// A mark at first, no mark after the first character, a variation selector, and a character that the font lacks.
static IRREGULAR: &str =
    "\u{1036}\u{1025}\u{102E}\n\u{1026}\n\u{1025}\u{102E}\u{FE00}\n\u{1025}\u{102E}\u{1037}";

#[test]
fn irregular_texts(rt: HostRuntime) -> Result<(), Fail> {
    for text in IRREGULAR.lines() {
        let passes = passes(rt.alloc(), text)?;
        assert!(rt; !passes, "{text}");
    }
    Ok(())
}

fn has_halves_with(alloc: Global, tables: &UnicodeTables, text: &str) -> Result<bool, Fail> {
    let face = face_of(alloc, POOR_FONT)?;
    Ok(has_full_expansion(&face, tables, text))
}

fn has_halves(alloc: Global, text: &str) -> Result<bool, Fail> {
    let tables = ReadTables::from_text(alloc, TABLES)?;
    has_halves_with(alloc, tables.borrowed().characters, text)
}

#[test]
fn font_without_a_half(rt: HostRuntime) -> Result<(), Fail> {
    let halves = has_halves(rt.alloc(), "\u{1026}\u{1036}")?;
    assert!(rt; !halves);
    Ok(())
}

fn with_marks(alloc: Global, count: usize) -> Result<String, Fail> {
    let mut text = String::new(alloc);
    text.push('a')?;
    for _ in 0..count {
        text.push('\u{301}')?;
    }
    Ok(text)
}

fn is_short(alloc: Global, count: usize) -> Result<bool, Fail> {
    let tables = ReadTables::from_text(alloc, TABLES)?;
    let text = with_marks(alloc, count)?;
    Ok(has_short_runs(tables.borrowed().characters, &text))
}

#[test]
fn runs_of_marks(rt: HostRuntime) -> Result<(), Fail> {
    let sorted = is_short(rt.alloc(), 32)?;
    assert!(rt; sorted);
    let unsorted = !is_short(rt.alloc(), 33)?;
    assert!(rt; unsorted);
    Ok(())
}

/// Whether two texts are equivalent; `None` where the tables are not lawful.
fn agree_with(
    alloc: Global,
    tables: &UnicodeTables,
    first: &str,
    second: &str,
) -> Result<Option<bool>, Fail> {
    match tables.law_fault() {
        Some(_) => Ok(None),
        None => Ok(Some(are_equivalent(alloc, tables, first, second)?)),
    }
}

fn agree(alloc: Global, first: &str, second: &str) -> Result<Option<bool>, Fail> {
    let tables = ReadTables::from_text(alloc, TABLES)?;
    agree_with(alloc, tables.borrowed().characters, first, second)
}

// A decomposition, and marks of two classes in another order.
#[test]
fn equivalent_texts(rt: HostRuntime) -> Result<(), Fail> {
    let split = agree(rt.alloc(), "\u{1026}\u{1036}", "\u{1025}\u{102E}\u{1036}")?;
    assert_eq!(rt; split, Some(true));
    let swapped = agree(rt.alloc(), "\u{1B06}\u{1B44}", "\u{1B05}\u{1B44}\u{1B34}")?;
    assert_eq!(rt; swapped, Some(true));
    Ok(())
}

// One mark more, and marks of class 0 in another order.
#[test]
fn other_texts(rt: HostRuntime) -> Result<(), Fail> {
    let more = agree(rt.alloc(), "a\u{301}", "a\u{301}\u{301}")?;
    assert_eq!(rt; more, Some(false));
    let moved = agree(
        rt.alloc(),
        "\u{1025}\u{102E}\u{1036}",
        "\u{1025}\u{1036}\u{102E}",
    )?;
    assert_eq!(rt; moved, Some(false));
    Ok(())
}
