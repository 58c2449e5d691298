//! Glyph flags at the end of shaping (rustybuzz: hb/ot_shape.rs, `propagate_flags`).
ghost use Rattle.std.specs.Prelude.{◌≡◌, ◌∷◌, [], false, map};
ghost use Rattle.buffer_glyphs.specs.Events.{Spread};
ghost use Rattle.buffer_glyphs.specs.Items.{item_masked};
ghost use Rattle.buffer_core.specs.Merging.{with_glyphs};
ghost use Rattle.buffer_core.specs.Sides.{all_glyphs, items_of, origins_by, origins_of};

use super::hb_buffer_t;
use bitflags::Flags;
use buffer_common::constants::BufferFlags;
use buffer_lists::flags::{AskedFlags, spread_glyph_flags};

impl hb_buffer_t {
    /// Gives all glyphs of a cluster the same glyph flags: those that one of them has. Where
    /// PRODUCE_SAFE_TO_INSERT_TATWEEL is set, UNSAFE_TO_BREAK clears SAFE_TO_INSERT_TATWEEL; where that stays,
    /// UNSAFE_TO_BREAK and UNSAFE_TO_CONCAT are added. UNSAFE_TO_CONCAT stays only where PRODUCE_UNSAFE_TO_CONCAT is
    /// set. All other bits of a mask, those of features, are cleared. It takes linear time, and walks the list even
    /// where no scratch flag says that there are glyph flags.
    pub fn propagate_flags(&mut self)
        requires { self.old.is_open ≡ false }
        ensures rest { self.new ≡ with_glyphs (all_glyphs self.new) self.old }
        ensures items { items_of self.new ≡ map (item_masked 0) (items_of self.old) }
        ensures origins { origins_of self.new ≡ origins_by (Spread ∷ []) self.old }
    {
        let asked = AskedFlags {
            concat: self.asks_concat(),
            tatweel: self
                .flags
                .contains(BufferFlags::PRODUCE_SAFE_TO_INSERT_TATWEEL),
            breaks: self.asks_breaks(),
        };
        spread_glyph_flags(&mut self.info, asked);
    }
}
