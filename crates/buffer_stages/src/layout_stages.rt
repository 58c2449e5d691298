//! Stages over a whole buffer that rustybuzz has with its layout calls (rustybuzz: hb/ot_layout.rs).
//!
//! A stage that changes each glyph by itself is a call, its walk by `map_glyphs`, and the rule for one glyph; all such
//! stages have this form.
ghost use Rattle.std.specs.Prelude.{◌≡◌, false};
ghost use Rattle.buffer_glyphs.specs.Items.{item_of};
ghost use Rattle.buffer_glyphs.specs.Origins.{origin_of};
ghost use Rattle.buffer_core.specs.Graphemes.{continues};
ghost use Rattle.buffer_core.specs.Grouping.{with_groups_reversed};
ghost use Rattle.buffer_core.specs.Sides.{items_of};
ghost use Rattle.buffer_stages.specs.LayoutStages.{item_not_substituted, merges_graphemes, substitutions_cleared};
ghost use Rattle.buffer_stages.specs.Ready.{IsDone, IsReady};
ghost use Rattle.buffer_stages.specs.Pauses.{BringsNoGlyph};
ghost use Rattle.buffer_stages.specs.Stages.{IsFollowed};

use crate::glyphs::map_glyphs;
use buffer_core::buffer::hb_buffer_t;
use buffer_glyphs::flags::GlyphPropsFlags;
use buffer_glyphs::info::hb_glyph_info_t;
use buffer_glyphs::level::BufferClusterLevel;

/// Clears the substituted bit of each glyph. It takes linear time and no memory.
pub fn _hb_clear_substitution_flags(buffer: &mut hb_buffer_t)
    requires ready { IsReady buffer.old }
    ensures ok { IsDone substitutions_cleared buffer.old buffer.new }
    ensures brings_none { BringsNoGlyph (items_of buffer.old) (items_of buffer.new) }
{
    without_substitutions(buffer);
}

fn without_substitutions(buffer: &mut hb_buffer_t)
    requires ready { IsReady buffer.old }
    ensures { IsFollowed substitutions_cleared buffer.old buffer.new }
{
    map_glyphs(buffer, |glyph| without_substitution(glyph));
}

fn without_substitution(glyph: &hb_glyph_info_t) -> hb_glyph_info_t
    ensures item { item_of result ≡ item_not_substituted (item_of glyph.now) }
    ensures origin { origin_of result ≡ origin_of glyph.now }
{
    let props = glyph.glyph_props.0;
    hb_glyph_info_t {
        glyph_props: GlyphPropsFlags(props - (props & GlyphPropsFlags::SUBSTITUTED.0)),
        ..*glyph
    }
}

/// Whether graphemes are merged before their order is reversed: at level MonotoneCharacters alone.
pub fn merges_graphemes(level: BufferClusterLevel) -> bool
    ensures { result ≡ merges_graphemes level }
{
    matches!(level, BufferClusterLevel::MonotoneCharacters)
}

/// Reverses the order of the graphemes, each in its own order; at level MonotoneCharacters each is merged before.
/// Positions move with their glyphs. It takes linear time and no memory.
pub fn _hb_ot_layout_reverse_graphemes(buffer: &mut hb_buffer_t)
    requires { buffer.old.is_open ≡ false }
    ensures { buffer.new
        ≡ with_groups_reversed (merges_graphemes buffer.old.level) (λ g h. continues (item_of h)) buffer.old }
{
    buffer.reverse_graphemes(merges_graphemes(buffer.cluster_level()));
}
