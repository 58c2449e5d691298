//! Records which glyphs are tiles, record_stch (rustybuzz: hb/ot_shaper_arabic.rs).
ghost use Rattle.std.specs.Prelude.{◌≡◌};
ghost use Rattle.buffer_glyphs.specs.Items.{item_of};
ghost use Rattle.buffer_glyphs.specs.Origins.{origin_of};
ghost use Rattle.buffer_core.specs.Readings.{always};
ghost use Rattle.buffer_core.specs.Sides.{items_of};
ghost use Rattle.buffer_stages.specs.Ready.{IsDone, IsReady};
ghost use Rattle.buffer_stages.specs.Pauses.{BringsNoGlyph};
ghost use Rattle.buffer_stages.specs.Stages.{with_items_mapped};
ghost use Rattle.script_syllabic.specs.Quiet.{IsQuiet};
ghost use Rattle.script_arabic.specs.Tiles.{tile_recorded, tiles_recorded};

use buffer_core::buffer::hb_buffer_t;
use buffer_glyphs::info::hb_glyph_info_t;
use buffer_glyphs::ligature_words::{_hb_glyph_info_get_lig_comp, _hb_glyph_info_multiplied};
use buffer_stages::glyphs::map_glyphs;
use script_categories::arabic_action_t::{STRETCHING_FIXED, STRETCHING_REPEATING};

/// Where the font has the feature stch, each glyph of a multiple substitution is a tile: its `auxiliary` says whether
/// it repeats (`record_stch`). No glyph is inserted. It takes linear time and no memory.
pub fn record_stch(has_stch: bool, buffer: &mut hb_buffer_t)
    requires ready { IsReady buffer.old }
    ensures ok { IsDone (tiles_recorded has_stch) buffer.old buffer.new }
    ensures brings_none { BringsNoGlyph (items_of buffer.old) (items_of buffer.new) }
{
    record_if(has_stch, buffer);
}

#[tactic(auto, using(script_syllabic::proofs::Quiet::quiet_same))]
fn record_if(has_stch: bool, buffer: &mut hb_buffer_t)
    requires ready { IsReady buffer.old }
    ensures { IsQuiet (tiles_recorded has_stch) buffer.old buffer.new }
{
    if has_stch {
        record_tiles(buffer);
    }
}

fn record_tiles(buffer: &mut hb_buffer_t)
    requires ready { IsReady buffer.old }
    ensures { IsQuiet (always (with_items_mapped tile_recorded)) buffer.old buffer.new }
{
    map_glyphs(buffer, |glyph| tile_recorded(glyph));
}

fn tile_recorded(glyph: &hb_glyph_info_t) -> hb_glyph_info_t
    ensures item { item_of result ≡ tile_recorded (item_of glyph.now) }
    ensures origin { origin_of result ≡ origin_of glyph.now }
{
    if !_hb_glyph_info_multiplied(glyph) {
        return *glyph;
    }
    let auxiliary = if _hb_glyph_info_get_lig_comp(glyph) % 2 == 1 {
        STRETCHING_REPEATING
    } else {
        STRETCHING_FIXED
    };
    hb_glyph_info_t {
        auxiliary,
        ..*glyph
    }
}
