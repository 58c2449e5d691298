//! The masks at the start of shaping, setup_masks (rustybuzz: hb/ot_shape.rs).
ghost use Rattle.std.specs.Prelude.{◌≡◌};
ghost use Rattle.std.specs.Int.RustNames.{bit_and};
ghost use Rattle.buffer_core.specs.Readings.{always};
ghost use Rattle.buffer_stages.specs.Ready.{IsDone, IsReady};
ghost use Rattle.shape_text.specs.Masks.{with_one_mask};
ghost use Rattle.buffer_glyphs.specs.declared.info.TheConstants.{DEFINED};

use buffer_core::buffer::hb_buffer_t;
use buffer_glyphs::info::hb_mask_t;

/// Sets each glyph's mask to that of the features for all glyphs, without glyph flags. It takes linear time and no
/// memory.
#[tactic(auto, using(crate::proofs::Begun::reset_done))]
pub fn initialize_masks(global_mask: hb_mask_t, buffer: &mut hb_buffer_t)
    requires ready { IsReady buffer.old }
    requires flagless { bit_and global_mask DEFINED ≡ 0 }
    ensures { IsDone (always (with_one_mask global_mask)) buffer.old buffer.new }
{
    buffer.reset_masks(global_mask);
}
