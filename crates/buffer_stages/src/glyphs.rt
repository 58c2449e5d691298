//! Loops over a buffer's glyphs.
ghost use Rattle.std.specs.Prelude.{◌≡◌, nat_le, true};
ghost use Rattle.std.specs.List.{list_all};
ghost use Rattle.buffer_glyphs.specs.Items.{Item, clusters};
ghost use Rattle.buffer_core.specs.Readings.{always};
ghost use Rattle.buffer_core.specs.Sides.{items_of};
ghost use Rattle.buffer_stages.specs.Buffers.{are_glyphs};
ghost use Rattle.buffer_stages.specs.Ready.{IsReady};
ghost use Rattle.buffer_stages.specs.Stages.{AreMapped, IsFollowed, Makes, with_items_mapped};

use buffer_core::buffer::hb_buffer_t;
use buffer_glyphs::info::hb_glyph_info_t;

/// Replaces each glyph by what `make` makes of it; the new glyphs keep its cluster and glyph flags. It takes linear
/// time and no memory.
#[tactic(auto, using(crate::specs::Lemmas::Written::mapped_followed))]
pub fn map_glyphs<F: Fn(&hb_glyph_info_t) -> hb_glyph_info_t>(buffer: &mut hb_buffer_t, make: F)
    requires callable { F.IsAlwaysCallable make }
    requires ready { IsReady buffer.old }
    ensures { (k : Item → Item) → Makes F.Fn make k → IsFollowed (always (with_items_mapped k)) buffer.old buffer.new }
{
    let known = buffer.known_order();
    let kept = map_each(buffer.info_slice_mut(), make);
    buffer.keep_order(known.if_kept(kept));
}

/// Replaces each glyph by what `make` makes of it; answers whether all keep their clusters.
fn map_each<F: Fn(&hb_glyph_info_t) -> hb_glyph_info_t>(
    glyphs: &mut [hb_glyph_info_t],
    make: F,
) -> bool
    requires callable { F.IsAlwaysCallable make }
    ensures mapped { (k : Item → Item) → Makes F.Fn make k → AreMapped k glyphs.old glyphs.new }
    ensures kept { result ≡ true → clusters glyphs.new ≡ clusters glyphs.old }
{
    let mut kept = true;
    for glyph in glyphs.iter_mut() {
        let made = make(glyph);
        kept &= made.cluster == glyph.cluster;
        *glyph = made;
    }
    kept
}

/// Whether each number is one that a glyph can have: at most 65,535.
#[tactic(auto, using(crate::proofs::GlyphNumbers::items_fit))]
pub fn are_glyphs(buffer: &hb_buffer_t) -> bool
    requires { IsReady buffer.now }
    ensures { result ≡ are_glyphs (items_of buffer.now) }
{
    numbers_fit(buffer.info_slice())
}

fn numbers_fit(glyphs: &[hb_glyph_info_t]) -> bool
    ensures { result ≡ list_all (λ g. nat_le g.glyph_id 65535) glyphs.now }
{
    glyphs.iter().all(|glyph| glyph.glyph_id <= 65535)
}
