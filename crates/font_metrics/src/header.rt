//! Fields of the tables head and maxp.
ghost use Rattle.std.specs.Prelude.{◌≡◌};
ghost use Rattle.font_metrics.specs.Header.{known_units, units_per_em, has_long_offsets, glyph_count};

use font_bytes::fault::TableFault;
use font_bytes::words::{need, word};

/// The units per em where the specification allows them, from 16 to 16384, else 1000, as HarfBuzz takes.
fn known_units(units: u16) -> u16
    ensures { result ≡ known_units units }
{
    if 16 <= units && units <= 16384 {
        units
    } else {
        1000
    }
}

/// The units per em of the table head, in 16 to 16384; 1000 where it has others.
pub fn units_per_em(head: &[u8]) -> Result<u16, TableFault>
    ensures { result ≡ units_per_em head.now }
{
    need(head, 0, 54)?;
    Ok(known_units(word(head, 18)))
}

/// Whether the offsets of loca are of 32 bits, by the table head.
pub fn has_long_offsets(head: &[u8]) -> Result<bool, TableFault>
    ensures { result ≡ has_long_offsets head.now }
{
    need(head, 0, 54)?;
    Ok(word(head, 50) != 0)
}

/// The number of glyphs, by the table maxp.
pub fn glyph_count(maxp: &[u8]) -> Result<u16, TableFault>
    ensures { result ≡ glyph_count maxp.now }
{
    need(maxp, 0, 6)?;
    Ok(word(maxp, 4))
}
