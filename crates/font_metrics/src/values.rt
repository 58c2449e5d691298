//! Rows of glyphs that have a value.
ghost use Rattle.std.specs.Prelude.{◌≡◌, ◌++◌, IfErr, OnOk};
ghost use Rattle.font_metrics.specs.Values.{value_row};

use font_bytes::fault::TableFault;
use layout_common::glyph_row::GlyphRow;

/// Appends the row of a glyph, where it has a value.
pub fn push_value<V: Copy + Drop>(
    rows: &mut Vec<GlyphRow<V>>,
    glyph: u16,
    value: Option<V>,
) -> Result<(), TableFault>
    ensures ok { OnOk result (rows.new.items ≡ rows.old.items ++ value_row glyph value) }
    ensures refused { IfErr result (λ e. e ≡ TableFault.OutOfMemory) }
{
    match value {
        Some(value) => {
            rows.push(GlyphRow { glyph, value })?;
            Ok(())
        }
        None => Ok(()),
    }
}
