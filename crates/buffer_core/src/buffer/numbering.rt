//! Clusters by index (rustybuzz: hb/buffer.rs, `reset_clusters`).
ghost use Rattle.std.specs.Prelude.{◌≡◌, false, vec_len};
ghost use Rattle.buffer_core.specs.Sides.{items_of, origins_of};
ghost use Rattle.buffer_core.specs.Settings.{glyphs_counted, with_reset_clusters, origins_counted};

use super::hb_buffer_t;
use buffer_glyphs::info::hb_glyph_info_t;
use buffer_lists::order::{ClusterOrder, KnownOrder};

impl hb_buffer_t {
    /// Sets the clusters of the glyphs to 0, 1, 2 and so on; those past `u32::MAX` get that number.
    pub fn reset_clusters(&mut self)
        requires { self.old.is_open ≡ false }
        ensures counted { self.new ≡ with_reset_clusters self.old }
        ensures items { items_of self.new ≡ items_of self.old }
        ensures origins { origins_of self.new ≡ origins_counted 0 (origins_of self.old) }
    {
        number_all(&mut self.info);
        self.order = ClusterOrder::of(KnownOrder::Rising);
    }
}

fn number_all(glyphs: &mut Vec<hb_glyph_info_t>)
    ensures items { glyphs.new.items ≡ glyphs_counted 0 glyphs.old.items }
    ensures len { vec_len glyphs.new ≡ vec_len glyphs.old }
{
    number_each(glyphs);
}

#[tactic(auto, using(crate::proofs::Counted::counted_step, crate::proofs::Counted::next_cluster))]
fn number_each(glyphs: &mut [hb_glyph_info_t])
    ensures { glyphs.new ≡ glyphs_counted 0 glyphs.old }
{
    let mut cluster = 0;
    for glyph in glyphs.iter_mut() {
        *glyph = hb_glyph_info_t { cluster, ..*glyph };
        cluster = cluster.saturating_add(1);
    }
}
