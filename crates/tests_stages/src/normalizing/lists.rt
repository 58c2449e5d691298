//! Worked rows of normalizing.
use super::rows::RowNormalizer;
use super::texts::normalized;
use crate::buffers::has_glyphs;
use crate::rows::{level_of, part, value};
use buffer_properties::NormalizationMode;
use buffer_unicode_tables::{UnicodeRows, UnicodeTables};
use script_categories::hb_ot_script_shaper_t::INDIC_SHAPER;
use shape_normalize::normalizing::Normalizing;
use std::alloc::Global;
use std::test::Fail;

/// A character by its hexadecimal number.
fn character(digits: &str) -> Result<char, Fail> {
    let number = u32::from_str_radix(digits.trim(), 16)?;
    Ok(char::from_u32(number).ok_or("no character")?)
}

/// The number of an option, where there is one.
fn option(text: &str) -> Result<Option<u32>, Fail> {
    if text.is_empty() {
        return Ok(None);
    }
    Ok(Some(text.parse::<u32>()?))
}

/// Characters with a number each, after the sign between.
pub(super) fn numbered(alloc: Global, text: &str, sign: char) -> Result<Vec<(char, u32)>, Fail> {
    let mut rows = Vec::new(alloc);
    for row in text.split_terminator(',') {
        let (digits, number) = row.trim().split_once(sign).ok_or("no number")?;
        let digits = digits.strip_prefix("U+").unwrap_or(digits);
        rows.push((character(digits)?, number.parse::<u32>()?))?;
    }
    Ok(rows)
}

/// Two characters with a plus sign between.
fn pair(text: &str) -> Result<(char, char), Fail> {
    let (first, second) = text.split_once('+').ok_or("no pair")?;
    Ok((character(first)?, character(second)?))
}

/// Pairs of characters with a number each.
fn numbered_pairs(alloc: Global, text: &str) -> Result<Vec<(char, char, u32)>, Fail> {
    let mut rows = Vec::new(alloc);
    for row in text.split_terminator(',') {
        let (characters, number) = row.split_once('=').ok_or("no number")?;
        let (first, second) = pair(characters)?;
        rows.push((first, second, number.parse::<u32>()?))?;
    }
    Ok(rows)
}

/// Characters with their decompositions.
fn splits(alloc: Global, text: &str) -> Result<Vec<(char, char, char)>, Fail> {
    let mut rows = Vec::new(alloc);
    for row in text.split_terminator(',') {
        let (whole, halves) = row.split_once('=').ok_or("no halves")?;
        let (first, second) = pair(halves)?;
        rows.push((character(whole)?, first, second))?;
    }
    Ok(rows)
}

/// Pairs of characters with their compositions.
fn compositions(alloc: Global, text: &str) -> Result<Vec<(char, char, char)>, Fail> {
    let mut rows = Vec::new(alloc);
    for row in text.split_terminator(',') {
        let (halves, whole) = row.split_once('=').ok_or("no composition")?;
        let (first, second) = pair(halves)?;
        rows.push((first, second, character(whole)?))?;
    }
    Ok(rows)
}

fn mode_of(name: &str) -> Result<NormalizationMode, Fail> {
    match name {
        "None" => Ok(NormalizationMode::None),
        "Decomposed" => Ok(NormalizationMode::Decomposed),
        "ComposedDiacritics" => Ok(NormalizationMode::ComposedDiacritics),
        "ComposedDiacriticsNoShortCircuit" => {
            Ok(NormalizationMode::ComposedDiacriticsNoShortCircuit)
        }
        "Auto" => Ok(NormalizationMode::Auto),
        _ => Err("no mode".into()),
    }
}

/// What the font and the shaper of a row have.
#[derive(Drop)]
struct RowFont {
    glyphs: Vec<(char, u32)>,
    variants: Vec<(char, char, u32)>,
    splits: Vec<(char, char, char)>,
    pairs: Vec<(char, char, char)>,
}

fn read_font(alloc: Global, row: &str) -> Result<RowFont, Fail> {
    Ok(RowFont {
        glyphs: numbered(alloc, part(row, 3), '=')?,
        splits: splits(alloc, part(row, 4))?,
        pairs: compositions(alloc, part(row, 5))?,
        variants: numbered_pairs(alloc, part(row, 6))?,
    })
}

fn normalizer<'a>(
    tables: &'a UnicodeTables,
    font: &'a RowFont,
    words: &str,
) -> Result<RowNormalizer<'a>, Fail> {
    Ok(RowNormalizer {
        tables,
        mode: mode_of(value(words, "mode"))?,
        glyphs: &font.glyphs,
        variants: &font.variants,
        splits: &font.splits,
        pairs: &font.pairs,
        invisible: option(value(words, "invisible"))?,
        unjoined_glyph: option(value(words, "unjoined"))?,
        not_found: option(value(words, "missing"))?.unwrap_or(0),
    })
}

/// Adds characters with their decompositions.
fn add_splits(alloc: Global, text: &str, rows: &mut UnicodeRows) -> Result<(), Fail> {
    let splits = splits(alloc, text)?;
    for (whole, first, second) in &splits {
        rows.splits
            .push([u32::from(*whole), u32::from(*first), u32::from(*second)])?;
    }
    Ok(())
}

/// Adds pairs of characters with their compositions.
fn add_pairs(alloc: Global, text: &str, rows: &mut UnicodeRows) -> Result<(), Fail> {
    let pairs = compositions(alloc, text)?;
    for (first, second, whole) in &pairs {
        rows.pairs
            .push([u32::from(*first), u32::from(*second), u32::from(*whole)])?;
    }
    Ok(())
}

/// Adds characters with their classes.
fn add_classes(alloc: Global, text: &str, rows: &mut UnicodeRows) -> Result<(), Fail> {
    let classes = numbered(alloc, text, '=')?;
    for (character, class) in &classes {
        rows.classes.push([u32::from(*character), *class])?;
    }
    Ok(())
}

/// Tables with decompositions, compositions and classes.
pub(super) fn tables_of(
    alloc: Global,
    halves: &str,
    wholes: &str,
    classes: &str,
) -> Result<UnicodeTables, Fail> {
    let mut rows = UnicodeRows::new(alloc);
    add_splits(alloc, halves, &mut rows)?;
    add_pairs(alloc, wholes, &mut rows)?;
    add_classes(alloc, classes, &mut rows)?;
    Ok(UnicodeTables::new(alloc, &rows)?)
}

/// Whether a text, normalized, has a row's last field, by the fields of glyphs that these letters name.
pub(super) fn list_agrees<N: Normalizing>(
    alloc: Global,
    by: &N,
    level: &str,
    letters: &str,
    text: &str,
    wanted: &str,
) -> Result<bool, Fail> {
    let text = numbered(alloc, text, '@')?;
    let buffer = normalized(alloc, by, level_of(level), &text)?;
    Ok(has_glyphs(INDIC_SHAPER, letters, wanted, &buffer))
}

fn font_agrees(alloc: Global, tables: &UnicodeTables, row: &str) -> Result<bool, Fail> {
    let words = part(row, 1);
    let font = read_font(alloc, row)?;
    let by = normalizer(tables, &font, words)?;
    let (level, letters) = (value(words, "level"), value(words, "seen"));
    list_agrees(alloc, &by, level, letters, part(row, 7), part(row, 8))
}

pub(crate) fn agrees(alloc: Global, row: &str) -> Result<bool, Fail> {
    let tables = tables_of(alloc, "", "", part(row, 2))?;
    font_agrees(alloc, &tables, row)
}

// Options are the shaper's preference, the level, which fields of glyphs are compared, the font's invisible glyph,
// that of what is unjoined, and that of what is missing. Among the texts are runs of 32 marks, which is sorted, and of 33, which is unchanged;
// marks of one class, after which no other one is composed with the letter; grapheme joiners, which keep two marks
// apart or do not; and selectors that nothing combines with.
pub(crate) static ROWS: &str = r#"
# name; options; classes; glyphs; decompositions; compositions; variants; text; normalized text
acute accent, dot below; mode=ComposedDiacritics seen=ni@; 301=230, 323=220; 301=1, 323=2; ; ; ; U+301@1, U+323@0;
  U+323@0 i=2, U+301@0 i=1
a with circumflex, greek ypogegrammeni; mode=Auto level=1 seen=ni@; 302=230, 345=240; 61=1, E2=2, 302=3, 345=4;
  E2=61+302; 61+302=E2; ; U+E2@0, U+345@3; U+E2@0 i=2, U+345@3 i=4
a with circumflex, dot below; mode=Auto seen=ni@; 302=230, 323=220; 61=1, E2=2, 302=3, 323=4; E2=61+302; 61+302=E2; ;
  U+E2@0, U+323@0; U+E2@0 i=2, U+323@0 i=4
kiyeok, acute accent, selector 1; mode=None level=1 seen=ni@; ; 11A8=1; ; ; 301+FE00=42; U+11A8@0, U+301@2, U+FE00@3;
  U+11A8@0 i=1, U+301@2 i=42
kiyeok, greek ypogegrammeni, acute accent; mode=None level=1 seen=ni@; 301=230, 345=240; 301=1, 345=2, 11A8=3; ; ; ;
  U+11A8@0, U+345@1, U+301@2; U+11A8@0 i=3, U+301@1 i=1, U+345@1 i=2
a with acute, greek dialytika tonos, dot below; mode=ComposedDiacriticsNoShortCircuit level=1 seen=ni@;
  301=230, 308=230, 323=220, 344=230; 61=1, E1=2, 301=3, 308=4, 323=5, 344=6; E1=61+301, 344=308+301; 61+301=E1; ;
  U+E1@0, U+344@3, U+323@3; U+E1@0 i=2, U+323@0 i=5, U+308@0 i=4, U+301@0 i=3
s, diaeresis, u with diaeresis and caron, a with circumflex; mode=ComposedDiacriticsNoShortCircuit seen=ni@;
  302=230, 308=230; 61=1, 73=2, E2=3, 1DA=4, 302=5, 308=6; E2=61+302; 61+302=E2; ; U+73@0, U+308@0, U+1DA@2, U+E2@2;
  U+73@0 i=2, U+308@0 i=6, U+1DA@2 i=4, U+E2@2 i=3
acute accent, selector 1, acute accent, selector 1, selector 2; mode=ComposedDiacritics level=1 seen=ni@; ;
  301=1, FE01=2; ; ; 301+FE00=42; U+301@0, U+FE00@1, U+301@2, U+FE00@2, U+FE01@3;
  U+301@0 i=42, U+301@2 i=42, U+FE01@3 i=2
s with dot below and dot above, selector 2, acute accent; mode=ComposedDiacriticsNoShortCircuit seen=ni@ unjoined=77;
  301=230, 307=230, 323=220; 73=1, 307=2, 1E63=3, 1E69=4, FE00=5; 1E63=73+323, 1E69=1E63+307;
  73+323=1E63, 1E63+307=1E69; 1E69+FE01=47; U+1E69@0, U+FE01@0, U+301@0; U+1E69@0 i=47, U+301@0
a, acute accent and more, 8 in all; mode=Decomposed seen=ni@; 301=7, 302=1, 303=7, 304=22, 305=7, 307=7; ; ; ; ;
  U+61@0, U+301@0, U+302@2, U+303@3, U+304@3, U+305@4, U+67@6, U+307@9;
  U+61@0, U+302@0, U+301@0, U+303@3, U+305@3, U+304@3, U+67@6, U+307@9
a, acute accent, circumflex accent, tilde, macron, f, breve, h; mode=Decomposed seen=ni@;
  301=9, 302=7, 303=232, 304=9, 306=7; ; ; ; ; U+61@0, U+301@2, U+302@2, U+303@5, U+304@8, U+66@10, U+306@11, U+68@12;
  U+61@0, U+302@2, U+301@2, U+304@5, U+303@5, U+66@10, U+306@11, U+68@12
grave accent, acute accent, c; mode=Decomposed seen=ni@; 300=232, 301=7; ; ; ; ; U+300@0, U+301@2, U+63@3;
  U+301@0, U+300@0, U+63@3
a, acute accent, dot below; mode=Decomposed seen=ni; 301=230, 323=220; 61=1, E1=4, 301=2, 323=3, 1EA1=5;
  E1=61+301, 1EA1=61+323; 61+301=E1, 61+323=1EA1; ; U+61@0, U+301@1, U+323@2; U+61 i=1, U+323 i=3, U+301 i=2
a with acute, dot below; mode=Decomposed seen=ni; 301=230, 323=220; 61=1, E1=4, 301=2, 323=3, 1EA1=5;
  E1=61+301, 1EA1=61+323; 61+301=E1, 61+323=1EA1; ; U+E1@0, U+323@1; U+61 i=1, U+323 i=3, U+301 i=2
a with dot below, acute accent; mode=Decomposed seen=ni; 301=230, 323=220; 61=1, E1=4, 301=2, 323=3, 1EA1=5;
  E1=61+301, 1EA1=61+323; 61+301=E1, 61+323=1EA1; ; U+1EA1@0, U+301@1; U+61 i=1, U+323 i=3, U+301 i=2
a with acute; mode=Decomposed seen=ni; 301=230; 61=1, E1=4, 301=2; E1=61+301; 61+301=E1; ; U+E1@0; U+61 i=1, U+301 i=2
a, acute accent; mode=Auto seen=ni; 301=230; 61=1, E1=8; E1=61+301; 61+301=E1; ; U+61@0, U+301@1; U+E1 i=8
a with acute; mode=Auto seen=ni; 301=230; 61=1, E1=8; E1=61+301; 61+301=E1; ; U+E1@0; U+E1 i=8
a with acute; mode=Auto seen=ni; 301=230; 61=1, 301=9; E1=61+301; 61+301=E1; ; U+E1@0; U+61 i=1, U+301 i=9
a, acute accent; mode=Auto seen=ni; 301=230; 61=1, 301=9; E1=61+301; 61+301=E1; ; U+61@0, U+301@1; U+61 i=1, U+301 i=9
a, grave accent, acute accent; mode=ComposedDiacritics seen=ni; 300=230, 301=230; 61=1, E1=4, 300=2, 301=3; E1=61+301;
  61+301=E1; ; U+61@0, U+300@1, U+301@2; U+61 i=1, U+300 i=2, U+301 i=3
a, acute accent, grave accent; mode=ComposedDiacritics seen=ni; 300=230, 301=230; 61=1, E1=4, 300=2, 301=3; E1=61+301;
  61+301=E1; ; U+61@0, U+301@1, U+300@2; U+E1 i=4, U+300 i=2
a, dot below, acute accent; mode=ComposedDiacritics seen=ni; 301=230, 323=220; 61=1, E1=4, 301=3;
  E1=61+301, 1EA1=61+323; 61+301=E1, 61+323=1EA1; ; U+61@0, U+323@1, U+301@2; U+E1 i=4, U+323
uu, anusvara; mode=ComposedDiacriticsNoShortCircuit seen=ni; ; 1025=1, 102E=2, 1036=3; 1026=1025+102E; ; ;
  U+1026@0, U+1036@1; U+1025 i=1, U+102E i=2, U+1036 i=3
u, ii, anusvara; mode=ComposedDiacriticsNoShortCircuit seen=ni; ; 1025=1, 102E=2, 1036=3; ; ; ;
  U+1025@0, U+102E@1, U+1036@2; U+1025 i=1, U+102E i=2, U+1036 i=3
em space, non-breaking hyphen, b; mode=Auto seen=ni; ; 20=5, 2010=6; ; ; ; U+2003@0, U+2011@1, U+62@2;
  U+2003 i=5, U+2011 i=6, U+62
akara tedung, ulu; mode=ComposedDiacriticsNoShortCircuit seen=ni; ; 1B05=1, 1B35=2, 1B36=3; 1B06=1B05+1B35;
  1B05+1B35=1B06; ; U+1B06@0, U+1B36@1; U+1B05 i=1, U+1B35 i=2, U+1B36 i=3
akara, tedung, ulu; mode=ComposedDiacriticsNoShortCircuit seen=ni; ; 1B05=1, 1B35=2, 1B36=3; 1B06=1B05+1B35;
  1B05+1B35=1B06; ; U+1B05@0, U+1B35@1, U+1B36@2; U+1B05 i=1, U+1B35 i=2, U+1B36 i=3
akara, rerekan, adeg adeg; mode=ComposedDiacriticsNoShortCircuit seen=ni; 1B34=7, 1B44=9; 1B05=1, 1B34=4, 1B44=5; ; ; ;
  U+1B05@0, U+1B34@1, U+1B44@2; U+1B05 i=1, U+1B34 i=4, U+1B44 i=5
akara, adeg adeg, rerekan; mode=ComposedDiacriticsNoShortCircuit seen=ni; 1B34=7, 1B44=9; 1B05=1, 1B34=4, 1B44=5; ; ; ;
  U+1B05@0, U+1B44@1, U+1B34@2; U+1B05 i=1, U+1B34 i=4, U+1B44 i=5
oe; mode=ComposedDiacriticsNoShortCircuit seen=ni; ; 17BE=2, 17C1=3; 17BE=17C1+17BE; ; ; U+17BE@0;
  U+17C1 i=3, U+17BE i=2
a, selector 1; mode=Decomposed seen=ni unjoined=12; ; 61=1; ; ; 61+FE00=11; U+61@0, U+FE00@1; U+61 i=11
a, selector 1, selector 2; mode=Decomposed seen=ni unjoined=12; ; 61=1, FE01=3; ; ; 61+FE00=11;
  U+61@0, U+FE00@1, U+FE01@2; U+61 i=11, U+FE01 i=3
a with acute, selector 2; mode=Decomposed seen=ni unjoined=12; 301=230; 61=1, 301=2, FE01=3; E1=61+301; 61+301=E1;
  61+FE00=11; U+E1@0, U+FE01@1; U+E1, U+FE01 i=3
han one, acute accent; mode=Auto seen=ni missing=77; 301=230; 301=2; ; ; ; U+4E00@0, U+301@1; U+4E00 i=77, U+301 i=2
han one, selector 1; mode=Auto seen=ni missing=77; ; FE00=3; ; ; ; U+4E00@0, U+FE00@1; U+4E00, U+FE00 i=3
kiyeok, a; mode=Auto seen=ni missing=77; ; ; ; ; ; U+1100@0, U+1161@1; U+1100 i=77, U+1161 i=77
em space, non-breaking hyphen; mode=None seen=ni invisible=7; ; ; ; ; ; U+2003@0, U+2011@1; U+2003 i=7, U+2011
no text; mode=None seen=ni; ; ; ; ; ; ;
a with acute; mode=None seen=ni; 301=230; 61=1, E1=3, 301=2; E1=61+301; 61+301=E1; ; U+E1@0; U+E1 i=3
a, acute accent; mode=None seen=ni; 301=230; 61=1, E1=3, 301=2; E1=61+301; 61+301=E1; ; U+61@0, U+301@1;
  U+61 i=1, U+301 i=2
a with acute; mode=Decomposed seen=ni; 301=230; 61=1, E1=3, 301=2; E1=61+301; 61+301=E1; ; U+E1@0; U+61 i=1, U+301 i=2
a, acute accent; mode=Decomposed seen=ni; 301=230; 61=1, E1=3, 301=2; E1=61+301; 61+301=E1; ; U+61@0, U+301@1;
  U+61 i=1, U+301 i=2
a with acute; mode=ComposedDiacritics seen=ni; 301=230; 61=1, E1=3, 301=2; E1=61+301; 61+301=E1; ; U+E1@0; U+E1 i=3
a, acute accent; mode=ComposedDiacritics seen=ni; 301=230; 61=1, E1=3, 301=2; E1=61+301; 61+301=E1; ; U+61@0, U+301@1;
  U+E1 i=3
a with acute; mode=ComposedDiacriticsNoShortCircuit seen=ni; 301=230; 61=1, E1=3, 301=2; E1=61+301; 61+301=E1; ; U+E1@0;
  U+61 i=1, U+301 i=2
a, acute accent; mode=ComposedDiacriticsNoShortCircuit seen=ni; 301=230; 61=1, E1=3, 301=2; E1=61+301; 61+301=E1; ;
  U+61@0, U+301@1; U+E1 i=3
a with acute; mode=Auto seen=ni; 301=230; 61=1, E1=3, 301=2; E1=61+301; 61+301=E1; ; U+E1@0; U+E1 i=3
a, acute accent; mode=Auto seen=ni; 301=230; 61=1, E1=3, 301=2; E1=61+301; 61+301=E1; ; U+61@0, U+301@1; U+E1 i=3
a, acute accent, 30 grave accent, dot below; mode=Decomposed seen=n; 300=230, 301=230, 323=220; ; ; ; ;
  U+61@0, U+301@1, U+300@2, U+300@2, U+300@2, U+300@2, U+300@2, U+300@2, U+300@2, U+300@2, U+300@2, U+300@2, U+300@2,
  U+300@2, U+300@2, U+300@2, U+300@2, U+300@2, U+300@2, U+300@2, U+300@2, U+300@2, U+300@2, U+300@2, U+300@2, U+300@2,
  U+300@2, U+300@2, U+300@2, U+300@2, U+300@2, U+300@2, U+323@3;
  U+61, U+323, U+301, U+300, U+300, U+300, U+300, U+300, U+300, U+300, U+300, U+300, U+300, U+300, U+300, U+300,
  U+300, U+300, U+300, U+300, U+300, U+300, U+300, U+300, U+300, U+300, U+300, U+300, U+300, U+300, U+300, U+300,
  U+300
a, acute accent, 31 grave accent, dot below; mode=Decomposed seen=n; 300=230, 301=230, 323=220; ; ; ; ;
  U+61@0, U+301@1, U+300@2, U+300@2, U+300@2, U+300@2, U+300@2, U+300@2, U+300@2, U+300@2, U+300@2, U+300@2, U+300@2,
  U+300@2, U+300@2, U+300@2, U+300@2, U+300@2, U+300@2, U+300@2, U+300@2, U+300@2, U+300@2, U+300@2, U+300@2, U+300@2,
  U+300@2, U+300@2, U+300@2, U+300@2, U+300@2, U+300@2, U+300@2, U+323@3;
  U+61, U+301, U+300, U+300, U+300, U+300, U+300, U+300, U+300, U+300, U+300, U+300, U+300, U+300, U+300, U+300,
  U+300, U+300, U+300, U+300, U+300, U+300, U+300, U+300, U+300, U+300, U+300, U+300, U+300, U+300, U+300, U+300,
  U+300, U+323
a, acute accent, grapheme joiner, dot below; mode=Decomposed seen=np; 300=230, 301=230, 323=220; ; ; ; ;
  U+61@0, U+301@1, U+34F@2, U+323@3; U+61 p=5, U+301 p=12, U+34F p=108, U+323 p=12
a, dot below, grapheme joiner, acute accent; mode=Decomposed seen=np; 300=230, 301=230, 323=220; ; ; ; ;
  U+61@0, U+323@1, U+34F@2, U+301@3; U+61 p=5, U+323 p=12, U+34F p=44, U+301 p=12
a, selector 2, selector 1; mode=Decomposed seen=np unjoined=12; ; 61=1, 301=2, FE01=3; ; ; 61+FE00=11;
  U+61@0, U+FE01@1, U+FE00@2; U+61 p=5, U+FE01 p=1025, U+FE00 p=44
em space; mode=Auto seen=ik; ; 20=5, 2010=6; ; ; ; U+2003@0; * i=5 k=1"#;
