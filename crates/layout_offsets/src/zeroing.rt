//! A position without advances.
ghost use Rattle.std.specs.Prelude.{◌≡◌};
ghost use Rattle.layout_offsets.specs.Zeroing.{position_set_back, without_advances, zeroed_position};

use crate::sums::minus;
use buffer_glyphs::position::GlyphPosition;

/// A position without its advances; where `adjust` is set, they are first subtracted from its offsets.
pub fn zeroed(adjust: bool, position: GlyphPosition) -> GlyphPosition
    ensures { result ≡ zeroed_position adjust position }
{
    if adjust {
        without_advances(set_back(position))
    } else {
        without_advances(position)
    }
}

fn set_back(position: GlyphPosition) -> GlyphPosition
    ensures { result ≡ position_set_back position }
{
    GlyphPosition {
        x_offset: minus(position.x_offset, position.x_advance),
        y_offset: minus(position.y_offset, position.y_advance),
        ..position
    }
}

/// A position without its advances.
pub fn without_advances(position: GlyphPosition) -> GlyphPosition
    ensures { result ≡ without_advances position }
{
    GlyphPosition {
        x_advance: 0,
        y_advance: 0,
        ..position
    }
}
