//! Clears syllable bytes once the syllables are in order (rustybuzz: hb/ot_shaper_syllabic.rs).
//!
//! A stage that changes each glyph by itself is a call, its walk by `map_glyphs`, and the rule for one glyph; all such
//! stages have this form.
ghost use Rattle.std.specs.Prelude.{◌≡◌};
ghost use Rattle.buffer_glyphs.specs.Items.{item_of};
ghost use Rattle.buffer_glyphs.specs.Origins.{origin_of};
ghost use Rattle.buffer_core.specs.Sides.{items_of};
ghost use Rattle.buffer_stages.specs.Ready.{IsDone, IsReady};
ghost use Rattle.buffer_stages.specs.Pauses.{BringsNoGlyph};
ghost use Rattle.buffer_stages.specs.Stages.{IsFollowed};
ghost use Rattle.script_syllabic.specs.Syllables.{syllables_cleared, without_syllable};

use buffer_core::buffer::hb_buffer_t;
use buffer_glyphs::info::hb_glyph_info_t;
use buffer_stages::glyphs::map_glyphs;

/// Sets the syllable byte of each glyph to 0. It takes linear time and no memory.
pub fn clear_syllables(buffer: &mut hb_buffer_t)
    requires ready { IsReady buffer.old }
    ensures ok { IsDone syllables_cleared buffer.old buffer.new }
    ensures brings_none { BringsNoGlyph (items_of buffer.old) (items_of buffer.new) }
{
    without_syllables(buffer);
}

fn without_syllables(buffer: &mut hb_buffer_t)
    requires ready { IsReady buffer.old }
    ensures { IsFollowed syllables_cleared buffer.old buffer.new }
{
    map_glyphs(buffer, |glyph| without_syllable(glyph));
}

fn without_syllable(glyph: &hb_glyph_info_t) -> hb_glyph_info_t
    ensures item { item_of result ≡ without_syllable (item_of glyph.now) }
    ensures origin { origin_of result ≡ origin_of glyph.now }
{
    hb_glyph_info_t {
        syllable: 0,
        ..*glyph
    }
}
