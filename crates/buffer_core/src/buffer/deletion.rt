//! Deletes a glyph while an output is open (rustybuzz: hb/buffer.rs, `delete_glyph`).
ghost use Rattle.std.specs.Prelude.{◌≡◌, ◌+◌, ◌++◌, ◌∷◌, true, List, length, drop, []};
ghost use Rattle.buffer_glyphs.specs.declared.info.hb_glyph_info_t.{hb_glyph_info_t as Glyph};
ghost use Rattle.buffer_glyphs.specs.Items.{strip};
ghost use Rattle.buffer_glyphs.specs.Deletions.{number_deleted};
ghost use Rattle.buffer_core.specs.Sides.{items_of, origins_of, origins_by, requests_breaks, HasCurrent};
ghost use Rattle.buffer_core.specs.Grouping.{with_current_deleted, with_deleted};
ghost use Rattle.buffer_core.specs.Merging.{with_handed_on};
ghost use Rattle.buffer_glyphs.specs.Events.{Delete};
ghost use Rattle.buffer_glyphs.specs.Origins.{origins_handed_if, origin_of, origins_deleted};

use super::hb_buffer_t;
use super::merges::add_has_glyph_flags;
use buffer_glyphs::info::hb_glyph_info_t;
use buffer_lists::over;

impl hb_buffer_t {
    /// Deletes the glyph at the cursor. Where neither neighbour is of its cluster, the run of glyphs before it takes
    /// its cluster and its three flags if that cluster is less; with none before it, it is merged with the next, as by
    /// `merge_clusters`. Where PRODUCE_SAFE_BREAKS is set, it hands on its flags. It takes no memory.
    pub fn delete_glyph(&mut self)
        requires current { HasCurrent self.old }
        ensures deleted { (g : Glyph) (back : List Glyph) → self.old.ahead ≡ g ∷ back →
            self.new ≡ with_deleted g back self.old }
        ensures open { self.new.is_open ≡ true }
        ensures read { self.new.read ≡ self.old.read + 1 }
        ensures behind { length self.new.behind ≡ length self.old.behind }
        ensures ahead { length self.new.ahead + 1 ≡ length self.old.ahead }
        ensures items { items_of self.new ≡ strip self.old.behind ++ drop 1 (strip self.old.ahead) }
        ensures origins { origins_of self.new ≡ origins_by (Delete (length self.old.behind) ∷ []) self.old }
    {
        let glyph = *self.cur(0);
        self.delete_current();
        self.hand_on(glyph);
    }

    /// Deletes the glyph at the cursor, whose flags are handed on later.
    fn delete_current(&mut self)
        requires current { HasCurrent self.old }
        ensures deleted { (g : Glyph) (back : List Glyph) → self.old.ahead ≡ g ∷ back →
            self.new ≡ with_current_deleted g back self.old }
        ensures open { self.new.is_open ≡ true }
        ensures read { self.new.read ≡ self.old.read + 1 }
        ensures behind { length self.new.behind ≡ length self.old.behind }
        ensures ahead { length self.new.ahead + 1 ≡ length self.old.ahead }
        ensures items { items_of self.new ≡ strip self.old.behind ++ drop 1 (strip self.old.ahead) }
        ensures origins { origins_of self.new ≡ origins_deleted self.old.level (length self.old.behind) (origins_of self.old) }
    {
        self.order.settle(&self.info);
        let (level, known) = (self.cluster_level, self.order.known);
        let marked = over::delete_first(&mut self.info, self.out_len, self.idx, level, known);
        self.idx += 1;
        self.scratch_flags = add_has_glyph_flags(marked, self.scratch_flags);
    }

    /// Hands on the flags of a glyph that was deleted at the cursor, where PRODUCE_SAFE_BREAKS is set: to the glyph before
    /// the cursor where it is of the same cluster, else to the one at the cursor where that is.
    pub(super) fn hand_on(&mut self, glyph: hb_glyph_info_t)
        requires open { self.old.is_open ≡ true }
        ensures handed { self.new ≡ with_handed_on (glyph ∷ []) self.old }
        ensures items { items_of self.new ≡ items_of self.old }
        ensures origins { origins_of self.new ≡ origins_handed_if (requests_breaks self.old) (origin_of glyph ∷ [])
            (length self.old.behind) (origins_of self.old) }
    {
        if self.asks_breaks() {
            over::hand_on(&mut self.info, self.out_len, self.idx, &[glyph]);
        }
    }
}
