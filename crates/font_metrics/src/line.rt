//! The ascender and the descender of a line (tables hhea and OS/2).
ghost use Rattle.std.specs.Prelude.{◌≡◌, ◌≤◌, ◌+◌, length, IfOk, IfErr, Ok, Err};
ghost use Rattle.std.specs.Option.{option_copied};
ghost use Rattle.font_metrics.specs.Line.{windows_metrics, windows_at, header_metrics, line_metric, line_of, height_of, line_metrics};

use font_bytes::fault::TableFault;
use font_bytes::words::{need, signed_word, word};

/// The ascender and the descender, which is mostly negative, in font units.
#[derive(Clone, Copy, PartialEq, Eq, Debug, Default)]
pub struct LineMetrics {
    pub ascender: i16,
    pub descender: i16,
}

/// The metrics of OS/2.
#[derive(Clone, Copy, PartialEq, Eq, Debug, Default)]
pub struct WindowsMetrics {
    /// USE_TYPO_METRICS.
    pub prefers: bool,
    pub typographic: LineMetrics,
    pub windows: LineMetrics,
}

/// A uint16 as a height, at most 32767.
fn height(number: u16) -> i16
    ensures { result ≡ height_of number }
{
    if number <= 32767 {
        number as i16
    } else {
        32767
    }
}

/// The metrics of a table OS/2 of any version.
#[tactic(auto, unfolding(crate::specs::Line::windows_at))]
fn windows_at(table: &[u8]) -> WindowsMetrics
    requires { 78 ≤ length table.now }
    ensures { result ≡ windows_at table.now }
{
    WindowsMetrics {
        prefers: word(table, 62) / 128 % 2 == 1,
        typographic: LineMetrics {
            ascender: signed_word(table, 68),
            descender: signed_word(table, 70),
        },
        windows: LineMetrics {
            ascender: height(word(table, 74)),
            descender: -height(word(table, 76)),
        },
    }
}

/// The metrics of OS/2; zeros without the table.
fn windows_metrics(table: Option<&[u8]>) -> Result<WindowsMetrics, TableFault>
    ensures { result ≡ windows_metrics (option_copied table.entry) }
{
    match table {
        None => Ok(WindowsMetrics {
            prefers: false,
            typographic: LineMetrics {
                ascender: 0,
                descender: 0,
            },
            windows: LineMetrics {
                ascender: 0,
                descender: 0,
            },
        }),
        Some(table) => {
            need(table, 0, 78)?;
            Ok(windows_at(table))
        }
    }
}

/// The metrics of hhea; zeros without the table.
fn header_metrics(table: Option<&[u8]>) -> Result<LineMetrics, TableFault>
    ensures { result ≡ header_metrics (option_copied table.entry) }
{
    match table {
        None => Ok(LineMetrics {
            ascender: 0,
            descender: 0,
        }),
        Some(table) => {
            need(table, 0, 36)?;
            Ok(LineMetrics {
                ascender: signed_word(table, 4),
                descender: signed_word(table, 6),
            })
        }
    }
}

/// One metric: the typographic one where the font prefers it, else that of hhea, else the typographic one, else that of
/// Windows; each where it isn't 0.
#[tactic(auto, unfolding(crate::specs::Line::line_metric))]
fn line_metric(prefers: bool, typographic: i16, header: i16, windows: i16) -> i16
    ensures { result ≡ line_metric prefers typographic header windows }
{
    if prefers && typographic != 0 {
        typographic
    } else if header != 0 {
        header
    } else if typographic != 0 {
        typographic
    } else {
        windows
    }
}

/// The metrics of the line by those of both tables.
fn line_of(os2: WindowsMetrics, header: LineMetrics) -> LineMetrics
    ensures { result ≡ line_of os2 header }
{
    LineMetrics {
        ascender: line_metric(
            os2.prefers,
            os2.typographic.ascender,
            header.ascender,
            os2.windows.ascender,
        ),
        descender: line_metric(
            os2.prefers,
            os2.typographic.descender,
            header.descender,
            os2.windows.descender,
        ),
    }
}

/// The ascender and the descender, in font units, by the tables OS/2 and hhea, where the font has them.
pub fn line_metrics(os2: Option<&[u8]>, hhea: Option<&[u8]>) -> Result<LineMetrics, TableFault>
    ensures { result ≡ line_metrics (option_copied os2.entry) (option_copied hhea.entry) }
{
    let windows = windows_metrics(os2)?;
    let header = header_metrics(hhea)?;
    Ok(line_of(windows, header))
}
