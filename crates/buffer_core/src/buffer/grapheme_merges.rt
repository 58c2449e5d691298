//! Merges of graphemes (HarfBuzz: `merge_grapheme_clusters`, `merge_out_grapheme_clusters`).
ghost use Rattle.std.specs.Prelude.{◌≡◌, ◌+◌, ◌≤◌, true, false, length, ◌∷◌, []};
ghost use Rattle.buffer_core.specs.Sides.{items_of, origins_of, origins_by};
ghost use Rattle.buffer_core.specs.Merging.{index_in_all, with_grapheme_merged};
ghost use Rattle.buffer_glyphs.specs.Events.{MergeGrapheme};
ghost use Rattle.buffer_glyphs.specs.Levels.{Keeps, Unites, grapheme_manner};

use super::hb_buffer_t;
use buffer_glyphs::level::BufferClusterLevel;

impl hb_buffer_t {
    /// Merges the clusters of a grapheme, the glyphs from `start` up to before `end`, indices of the input. At the levels
    /// `MonotoneGraphemes` and `Graphemes` each cluster that occurs among them becomes the least of them, wherever it is,
    /// and a glyph whose cluster changes loses its three flags; at the others nothing changes. It takes no memory, and
    /// costs what `merge_clusters` costs at the level `MonotoneGraphemes`.
    pub fn merge_grapheme_clusters(&mut self, start: usize, end: usize)
        requires ordered { start ≤ end }
        requires within { end ≤ self.old.read + length self.old.ahead }
        requires unread { self.old.is_open ≡ true → self.old.read ≤ start }
        ensures merged { self.new
            ≡ with_grapheme_merged (index_in_all start self.old) (index_in_all end self.old) self.old }
        ensures items { items_of self.new ≡ items_of self.old }
        ensures origins { origins_of self.new
            ≡ origins_by (MergeGrapheme (index_in_all start self.old) (index_in_all end self.old) ∷ []) self.old }
    {
        let level = self.cluster_level();
        if unites_graphemes(level) {
            // One body merges, and it asks the level whether to renumber: at this one it does.
            self.set_cluster_level(BufferClusterLevel::MonotoneGraphemes);
            self.merge_clusters(start, end);
            self.set_cluster_level(level);
        }
    }

    /// Merges the clusters of the output's glyphs from `start` up to before `end`, as `merge_grapheme_clusters` does
    /// those of the input. It takes no memory.
    pub fn merge_out_grapheme_clusters(&mut self, start: usize, end: usize)
        requires open { self.old.is_open ≡ true }
        requires ordered { start ≤ end }
        requires within { end ≤ length self.old.behind }
        ensures merged { self.new ≡ with_grapheme_merged start end self.old }
        ensures items { items_of self.new ≡ items_of self.old }
        ensures origins { origins_of self.new ≡ origins_by (MergeGrapheme start end ∷ []) self.old }
    {
        let level = self.cluster_level();
        if unites_graphemes(level) {
            self.set_cluster_level(BufferClusterLevel::MonotoneGraphemes);
            self.merge_out_clusters(start, end);
            self.set_cluster_level(level);
        }
    }
}

/// Whether the level merges graphemes; else it leaves them alone.
fn unites_graphemes(level: BufferClusterLevel) -> bool
    ensures unites { result ≡ true → grapheme_manner level ≡ Unites }
    ensures keeps { result ≡ false → grapheme_manner level ≡ Keeps }
{
    matches!(
        level,
        BufferClusterLevel::MonotoneGraphemes | BufferClusterLevel::Graphemes
    )
}
