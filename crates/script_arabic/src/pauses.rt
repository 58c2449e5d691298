//! The pause of the Arabic shaper (rustybuzz: hb/ot_shaper_arabic.rs, record_stch).
ghost use Rattle.std.specs.Prelude.{◌≡◌, false, codes, Ok, IfOk, IfErr, OnOk};
ghost use Rattle.buffer_core.specs.Sides.{items_of};
ghost use Rattle.buffer_stages.specs.Ready.{IsDone, IsReady};
ghost use Rattle.buffer_stages.specs.Pauses.{BringsNoGlyph};
ghost use Rattle.layout_map.specs.Masks.{has_mask};
ghost use Rattle.script_arabic.specs.Tiles.{tiles_recorded};

use crate::masks::has_stch;
use crate::tiles;
use buffer_core::buffer::hb_buffer_t;
use buffer_glyphs::cause::ShapeCause;
use layout_map::map::hb_ot_map_t;

/// Records the tiles of stretched words, where the font has the feature stch (`record_stch`). Returns false. It takes
/// linear time and no memory.
pub fn record_stch(map: &hb_ot_map_t, buffer: &mut hb_buffer_t) -> Result<bool, ShapeCause>
    requires ready { IsReady buffer.old }
    ensures answers { result ≡ Ok false }
    ensures ok { OnOk result (IsDone (tiles_recorded (has_mask (codes "stch") map.now)) buffer.old buffer.new) }
    ensures inserts_none { IfOk result (λ inserted. inserted ≡ false) }
    ensures brings_none { result ≡ Ok false → BringsNoGlyph (items_of buffer.old) (items_of buffer.new) }
    ensures err { IfErr result (λ e. e ≡ ShapeCause.OutOfMemory) }
{
    tiles::record_stch(has_stch(map), buffer);
    Ok(false)
}
