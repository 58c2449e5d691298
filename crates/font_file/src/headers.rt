//! The headers of a font.
ghost use Rattle.std.specs.Prelude.{◌≡◌};
ghost use Rattle.font_file.specs.Headers.{headers_in, line_in};

use crate::found::{required_table, table_in};
use font_bytes::font_fault::in_table;
use font_bytes::{FontFault, FontTable};
use font_metrics::{LineMetrics, glyph_count, has_long_offsets, line_metrics, units_per_em};

/// What a font's headers say.
#[derive(Clone, Copy, PartialEq, Eq, Debug)]
pub struct Headers {
    /// Font units per em, 16 to 16,384.
    pub upem: u16,
    /// Whether offsets of outlines have 32 bits.
    pub is_long: bool,
    /// The number of glyphs.
    pub count: u16,
    pub line: LineMetrics,
}

/// The ascender and the descender of a line.
fn line_in(bytes: &[u8], index: usize) -> Result<LineMetrics, FontFault>
    ensures { result ≡ line_in bytes.now index }
{
    let os2 = table_in(bytes, index, FontTable::Os2)?;
    // A fault of OS/2 has its own name.
    in_table(Some(FontTable::Os2), line_metrics(os2, None))?;
    let hhea = table_in(bytes, index, FontTable::Hhea)?;
    in_table(Some(FontTable::Hhea), line_metrics(os2, hhea))
}

/// What the headers of the font with an index say.
pub(crate) fn headers_in(bytes: &[u8], index: usize) -> Result<Headers, FontFault>
    ensures { result ≡ headers_in bytes.now index }
{
    let head = required_table(bytes, index, FontTable::Head)?;
    let upem = in_table(Some(FontTable::Head), units_per_em(head))?;
    let is_long = in_table(Some(FontTable::Head), has_long_offsets(head))?;
    let maxp = required_table(bytes, index, FontTable::Maxp)?;
    let count = in_table(Some(FontTable::Maxp), glyph_count(maxp))?;
    let line = line_in(bytes, index)?;
    Ok(Headers {
        upem,
        is_long,
        count,
        line,
    })
}
