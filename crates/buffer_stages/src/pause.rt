//! The pauses between the GSUB stages of a map (rustybuzz: hb/ot_map.rs, `pause_func_t`).
ghost use Rattle.std.specs.Prelude.{ℕ, ◌≡◌, false, Ok};
ghost use Rattle.buffer_core.specs.Readings.{Stage};
ghost use Rattle.buffer_core.specs.Sides.{items_of};
ghost use Rattle.buffer_stages.specs.Ready.{DoesGlyphStage, HoldsGlyphs};
ghost use Rattle.buffer_stages.specs.Pauses.{BringsNoGlyph};
ghost use Rattle.buffer_stages.specs.Settings.{TextSettings, text_settings};

use buffer_core::buffer::hb_buffer_t;
use buffer_glyphs::cause::ShapeCause;

/// What a script's shaper does between the stages of lookups, by the settings of the text and the numbers of its
/// pauses.
pub trait Pause {
    ghost stage: { Self → TextSettings → ℕ → Stage };

    /// Runs the pause of a number, and answers true whenever it introduced a new glyph number. It refuses with its own
    /// cause, or for want of memory.
    fn run(&self, pause: u8, buffer: &mut hb_buffer_t) -> Result<bool, ShapeCause>
        requires glyphs { HoldsGlyphs buffer.old }
        ensures stage { DoesGlyphStage (stage self.now (text_settings buffer.old) pause) result buffer.old buffer.new }
        ensures brings_none { result ≡ Ok false → BringsNoGlyph (items_of buffer.old) (items_of buffer.new) };
}
