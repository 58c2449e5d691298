//! Graphemes and clusters of a buffer (rustybuzz: hb/ot_shape.rs, hb/ot_layout.rs).
ghost use Rattle.std.specs.Prelude.{◌≡◌, ◌==◌, false};
ghost use Rattle.buffer_glyphs.specs.Items.{item_of};
ghost use Rattle.buffer_lists.specs.Events.{groups_reversed};
ghost use Rattle.buffer_lists.specs.Facts.{positions_turned};
ghost use Rattle.buffer_lists.specs.Turning.{groups_reversed_list};
ghost use Rattle.buffer_core.specs.Graphemes.{continues};
ghost use Rattle.buffer_core.specs.Grouping.{with_groups_reversed};
ghost use Rattle.buffer_core.specs.Sides.{all_glyphs, items_of, origins_by, origins_of};

use super::hb_buffer_t;
use buffer_glyphs::flags::UnicodeProps;
use buffer_glyphs::info::hb_glyph_info_t;

// Groups with the tests of shaping.
impl hb_buffer_t {
    /// Reverses the order of the graphemes, each in its own order; positions move with their glyphs. Where `merge` is
    /// set, the glyphs of each grapheme are merged before.
    pub fn reverse_graphemes(&mut self, merge: bool)
        requires { self.old.is_open ≡ false }
        ensures turned { self.new ≡ with_groups_reversed merge (λ g h. continues (item_of h)) self.old }
        ensures items { items_of self.new ≡ groups_reversed_list (λ x y. continues y) (items_of self.old) }
        ensures positions { self.new.positions
            ≡ positions_turned (λ x y. continues y) (items_of self.old) self.old.positions }
        ensures origins { origins_of self.new
            ≡ origins_by (groups_reversed merge (λ x y. continues y) (items_of self.old)) self.old }
    {
        self.reverse_groups(|_before, glyph| continues_grapheme(glyph), merge);
    }

    /// Reverses the order of the clusters, each in its own order; positions move with their glyphs.
    pub fn reverse_clusters(&mut self)
        requires { self.old.is_open ≡ false }
        ensures turned { self.new ≡ with_groups_reversed false (λ g h. g.cluster == h.cluster) self.old }
        ensures glyphs { all_glyphs self.new ≡ groups_reversed_list (λ g h. g.cluster == h.cluster) (all_glyphs self.old) }
    {
        self.reverse_groups(|before, glyph| before.cluster == glyph.cluster, false);
    }
}

fn continues_grapheme(glyph: &hb_glyph_info_t) -> bool
    ensures { result ≡ continues (item_of glyph.now) }
{
    glyph.unicode_props.0 & UnicodeProps::CONTINUATION.0 != 0
}
