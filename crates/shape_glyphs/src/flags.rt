//! The glyph flags at the end of shaping, propagate_flags (rustybuzz: hb/ot_shape.rs).
ghost use Rattle.buffer_core.specs.Readings.{always};
ghost use Rattle.buffer_stages.specs.Ready.{IsDone, IsReady};
ghost use Rattle.shape_glyphs.specs.Flags.{with_flags_spread};

use buffer_core::buffer::hb_buffer_t;

/// Gives each glyph of a cluster all glyph flags of that cluster's glyphs; other mask bits are cleared
/// (`propagate_flags`). It takes linear time and no memory.
#[tactic(auto, using(crate::proofs::Ended::spread_done))]
pub fn propagate_flags(buffer: &mut hb_buffer_t)
    requires { IsReady buffer.old }
    ensures { IsDone (always with_flags_spread) buffer.old buffer.new }
{
    buffer.propagate_flags();
}
