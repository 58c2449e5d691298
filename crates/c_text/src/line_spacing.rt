//! The ascender, the descender and the line gap of a font file's font (tables hhea and OS/2).
ghost use Rattle.std.specs.Prelude.{◌≡◌};
ghost use Rattle.std.specs.Option.{option_copied};
ghost use Rattle.c_text.specs.LineSpacing.{gap_of, header_gap, spacing_by, spacing_in, typographic_gap};

use font_bytes::FontTable;
use font_bytes::directory::font_table;
use font_bytes::words::{fits, signed_word, word};
use font_metrics::line_metrics;

/// What is above and below the baseline, where the descender is mostly negative, and what is left between two lines; in
/// font units.
#[derive(Clone, Copy)]
pub struct LineSpacing {
    pub ascender: i16,
    pub descender: i16,
    pub line_gap: i16,
}

/// A table's line gap, with its ascender.
#[derive(Clone, Copy)]
pub struct Gap {
    /// USE_TYPO_METRICS of OS/2.
    pub prefers: bool,
    pub ascender: i16,
    pub line_gap: i16,
}

const NO_GAP: Gap = Gap {
    prefers: false,
    ascender: 0,
    line_gap: 0,
};

/// The typographic line gap of OS/2; zeros without the table.
fn typographic_gap(os2: Option<&[u8]>) -> Gap
    ensures { result ≡ typographic_gap (option_copied os2.entry) }
{
    let Some(table) = os2 else {
        return NO_GAP;
    };
    if !fits(table, 0, 78) {
        return NO_GAP;
    }
    Gap {
        prefers: word(table, 62) / 128 % 2 == 1,
        ascender: signed_word(table, 68),
        line_gap: signed_word(table, 72),
    }
}

/// The line gap of hhea; zeros without the table.
fn header_gap(hhea: Option<&[u8]>) -> Gap
    ensures { result ≡ header_gap (option_copied hhea.entry) }
{
    let Some(table) = hhea else {
        return NO_GAP;
    };
    if !fits(table, 0, 36) {
        return NO_GAP;
    }
    Gap {
        prefers: false,
        ascender: signed_word(table, 4),
        line_gap: signed_word(table, 8),
    }
}

/// The line gap of those metrics that the ascender is of.
fn gap_of(typographic: Gap, header: Gap) -> i16
    ensures { result ≡ gap_of typographic header }
{
    if typographic.prefers && typographic.ascender != 0 {
        typographic.line_gap
    } else if header.ascender != 0 {
        header.line_gap
    } else if typographic.ascender != 0 {
        typographic.line_gap
    } else {
        0
    }
}

/// The metrics of a line by OS/2 and hhea, none where the font has neither.
fn spacing_by(os2: Option<&[u8]>, hhea: Option<&[u8]>) -> Option<LineSpacing>
    ensures { result ≡ spacing_by (option_copied os2.entry) (option_copied hhea.entry) }
{
    if os2.is_none() && hhea.is_none() {
        return None;
    }
    let line_gap = gap_of(typographic_gap(os2), header_gap(hhea));
    match line_metrics(os2, hhea) {
        Ok(line) => Some(LineSpacing {
            ascender: line.ascender,
            descender: line.descender,
            line_gap,
        }),
        Err(_) => None,
    }
}

/// The metrics of a line of the font with an index of a font file, none where it has neither hhea nor OS/2.
pub fn spacing_in(bytes: &[u8], index: usize) -> Option<LineSpacing>
    ensures { result ≡ spacing_in bytes.now index }
{
    let Ok(os2) = font_table(bytes, index, FontTable::Os2.tag()) else {
        return None;
    };
    match font_table(bytes, index, FontTable::Hhea.tag()) {
        Ok(hhea) => spacing_by(os2, hhea),
        Err(_) => None,
    }
}
