//! Value records (OpenType, GPOS) applied to a list of positions (rustybuzz: hb/ot_layout_gpos_table.rs,
//! `ValueRecordExt`).
ghost use Rattle.std.specs.Prelude.{◌≡◌, ◌<◌, length};
ghost use Rattle.layout_gpos.specs.Values.{adjusted_position, with_adjusted_position, position_with_advance, is_zero, position_with_placement};

use buffer_common::direction::Direction;
use buffer_glyphs::position::GlyphPosition;
use layout_offsets::sums::{minus, plus};
use layout_tables::value::ValueRecord;

fn add_placement(value: ValueRecord, position: GlyphPosition) -> GlyphPosition
    ensures { result ≡ position_with_placement value position }
{
    GlyphPosition {
        x_offset: plus(position.x_offset, i32::from(value.x_placement)),
        y_offset: plus(position.y_offset, i32::from(value.y_placement)),
        ..position
    }
}

fn add_advance(is_horizontal: bool, value: ValueRecord, position: GlyphPosition) -> GlyphPosition
    ensures { result ≡ position_with_advance is_horizontal value position }
{
    if is_horizontal {
        let x_advance = plus(position.x_advance, i32::from(value.x_advance));
        return GlyphPosition {
            x_advance,
            ..position
        };
    }
    // Downward an advance is negative.
    let y_advance = minus(position.y_advance, i32::from(value.y_advance));
    GlyphPosition {
        y_advance,
        ..position
    }
}

/// Adjusts a position: placements always apply, an advance only along the line.
fn adjust_position(
    direction: Direction,
    value: ValueRecord,
    position: GlyphPosition,
) -> GlyphPosition
    ensures { result ≡ adjusted_position direction value position }
{
    add_advance(
        direction.is_horizontal(),
        value,
        add_placement(value, position),
    )
}

/// Adjusts the position at an index.
pub fn adjust(positions: &mut [GlyphPosition], at: usize, value: ValueRecord, direction: Direction)
    requires here { at < length positions.old }
    ensures { positions.new ≡ with_adjusted_position direction at value positions.old }
{
    positions[at] = adjust_position(direction, value, positions[at]);
}

/// Whether all values of a record are zero.
pub fn is_zero(value: ValueRecord) -> bool
    ensures { result ≡ is_zero value }
{
    value.x_placement == 0 && value.y_placement == 0 && value.x_advance == 0 && value.y_advance == 0
}
