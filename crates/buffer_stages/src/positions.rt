//! The loops over a buffer's positions.
ghost use Rattle.buffer_glyphs.specs.Items.{Item, Position};
ghost use Rattle.buffer_core.specs.Readings.{always};
ghost use Rattle.buffer_stages.specs.Ready.{IsDone, IsReady};
ghost use Rattle.buffer_stages.specs.PositionMaps.{ChangesPositions, MakesPositions, with_positions_mapped};

use buffer_core::buffer::hb_buffer_t;
use buffer_glyphs::info::hb_glyph_info_t;
use buffer_glyphs::position::GlyphPosition;

/// Replaces each position by what `make` makes of it and of its glyph. It takes linear time and no memory.
pub fn map_positions<F: Fn(&hb_glyph_info_t, GlyphPosition) -> GlyphPosition>(
    buffer: &mut hb_buffer_t,
    make: F,
)
    requires callable { F.IsAlwaysCallable make }
    requires ready { IsReady buffer.old }
    ensures { (k : Item → Position → Position) → MakesPositions F.Fn make k
        → IsDone (always (with_positions_mapped k)) buffer.old buffer.new }
{
    let count = buffer.info_slice().len();
    for i in 0..count {
        let glyph = buffer.info_slice()[i];
        // Read from the lent list, so that what `make` keeps need not be written again.
        let positions = buffer.pos_slice_mut();
        let position = make(&glyph, positions[i]);
        positions[i] = position;
    }
}

/// Replaces each position by what `change` makes of it and of its glyph; one that it makes none of is only read. It takes
/// linear time and no memory.
pub fn change_positions<F: Fn(&hb_glyph_info_t, GlyphPosition) -> Option<GlyphPosition>>(
    buffer: &mut hb_buffer_t,
    change: F,
)
    requires callable { F.IsAlwaysCallable change }
    requires ready { IsReady buffer.old }
    ensures { (k : Item → Position → Position) → ChangesPositions F.Fn change k
        → IsDone (always (with_positions_mapped k)) buffer.old buffer.new }
{
    let count = buffer.info_slice().len();
    for i in 0..count {
        if let Some(position) = change(&buffer.info_slice()[i], buffer.pos_slice()[i]) {
            buffer.pos_slice_mut()[i] = position;
        }
    }
}
