//! The first round writes over the characters that it read, while its output has no more glyphs than were read: then
//! it takes no memory. `tools/short_memory tests_stages normalizing::in_place` runs it with each allocation refused
//! in turn.
use super::rows::RowNormalizer;
use super::texts::{buffer_of, normalized};
use crate::stages::tables_of;
use buffer_glyphs::cause::ShapeCause;
use buffer_glyphs::level::BufferClusterLevel;
use buffer_properties::NormalizationMode;
use buffer_unicode_tables::UnicodeTables;
use shape_normalize::expanding::expand_list;
use std::alloc::Global;
use std::test::Fail;

static GLYPHS: &[(char, u32)] = &[
    ('a', 1),
    ('b', 2),
    ('c', 3),
    ('d', 4),
    ('e', 5),
    ('f', 6),
    ('g', 7),
    ('h', 8),
    ('i', 9),
    ('j', 10),
    ('\u{C5}', 11),
    ('\u{301}', 12),
];

static VARIANTS: &[(char, char, u32)] = &[('a', '\u{FE00}', 13)];

static SPLITS: &[(char, char, char)] = &[('\u{212B}', '\u{C5}', '\0'), ('\u{E1}', 'a', '\u{301}')];

static PAIRS: &[(char, char, char)] = &[];

/// Each character is replaced by one glyph.
static LETTERS: &[(char, u32)] = &[
    ('a', 0),
    ('b', 1),
    ('c', 2),
    ('d', 3),
    ('e', 4),
    ('f', 5),
    ('g', 6),
    ('h', 7),
    ('i', 8),
    ('j', 9),
];

/// Texts with whether the first round's output stays in place: a decomposition to one character; a selector that is
/// combined with a letter, before a character that decomposes to two; the latter alone.
static TEXTS: &[(&[(char, u32)], bool)] = &[
    (&[('\u{212B}', 0), ('b', 1)], true),
    (&[('a', 0), ('\u{FE00}', 1), ('\u{E1}', 2), ('b', 3)], true),
    (&[('\u{E1}', 0), ('b', 1)], false),
];

fn font(tables: &UnicodeTables) -> RowNormalizer<'_> {
    RowNormalizer {
        tables,
        mode: NormalizationMode::Auto,
        glyphs: GLYPHS,
        variants: VARIANTS,
        splits: SPLITS,
        pairs: PAIRS,
        invisible: None,
        unjoined_glyph: None,
        not_found: 0,
    }
}

/// Whether the output of the first round is in place at its end.
#[tactic(auto, using(crate::proofs::Ready::output_open))]
fn expands_in_place(
    alloc: Global,
    by: &RowNormalizer<'_>,
    text: &[(char, u32)],
) -> Result<bool, ShapeCause> {
    let level = BufferClusterLevel::MonotoneCharacters;
    let mut buffer = buffer_of(alloc, by.tables, level, text)?;
    buffer.clear_output()?;
    expand_list(by, &mut buffer)?;
    Ok(buffer.output_in_place())
}

/// Whether each text's output stays in place where it is to.
fn stays_by_tables(alloc: Global, tables: &UnicodeTables) -> Result<bool, Fail> {
    let by = font(tables);
    let mut is_right = expands_in_place(alloc, &by, LETTERS)?;
    for (text, stays) in TEXTS {
        is_right &= expands_in_place(alloc, &by, text)? == *stays;
    }
    Ok(is_right)
}

fn stays(alloc: Global) -> Result<bool, Fail> {
    let tables = tables_of(alloc, "{}")?;
    stays_by_tables(alloc, &tables)
}

#[test]
fn stays_in_place(rt: HostRuntime) -> Result<(), Fail> {
    let is_right = stays(rt.alloc())?;
    assert!(rt; is_right);
    Ok(())
}

/// How many glyphs of the normalized letters are the font's glyphs of them, in order.
fn letters_with_glyphs_by_tables(alloc: Global, tables: &UnicodeTables) -> Result<usize, Fail> {
    let level = BufferClusterLevel::MonotoneCharacters;
    let buffer = normalized(alloc, &font(tables), level, LETTERS)?;
    let glyphs = buffer.info_slice().iter().zip(GLYPHS);
    Ok(glyphs.filter(|pair| pair.0.glyph_index == pair.1.1).count())
}

fn letters_with_glyphs(alloc: Global) -> Result<usize, Fail> {
    let tables = tables_of(alloc, "{}")?;
    letters_with_glyphs_by_tables(alloc, &tables)
}

#[test]
fn normalizes_ten_letters(rt: HostRuntime) -> Result<(), Fail> {
    let count = letters_with_glyphs(rt.alloc())?;
    assert!(rt; count == 10);
    Ok(())
}
