//! Reversals of a buffer's list (rustybuzz: hb/buffer.rs, `reverse`, `reverse_range`, `clear_positions`).
ghost use Rattle.std.specs.Prelude.{◌≡◌, ◌≤◌, ◌-◌, false, length, reverse, vec_len, ◌∷◌, []};
ghost use Rattle.buffer_core.specs.Sides.{all_glyphs, items_of, after_reverse, with_cleared_positions, origins_of, origins_by};
ghost use Rattle.buffer_core.specs.Moving.{range_reversed, with_range_reversed, indices_reversed};
ghost use Rattle.buffer_glyphs.specs.Events.{Reverse, Arrange};

use super::hb_buffer_t;
use buffer_glyphs::info::hb_glyph_info_t;
use buffer_glyphs::position::GlyphPosition;
use buffer_lists::order::{ClusterOrder, KnownOrder};

impl hb_buffer_t {
    /// Reverses the list of glyphs, and their positions with it.
    pub fn reverse(&mut self)
        requires { self.old.is_open ≡ false }
        ensures turned { self.new ≡ after_reverse self.old }
        ensures items { items_of self.new ≡ reverse (items_of self.old) }
        ensures origins { origins_of self.new ≡ origins_by (Reverse ∷ []) self.old }
    {
        self.order.settle(&self.info);
        self.order.known = self.order.known.reversed();
        self.is_placed = true;
        self.info.reverse();
        self.pos.reverse();
    }

    /// Reverses the glyphs from `start` up to before `end`, and their positions with them.
    pub fn reverse_range(&mut self, start: usize, end: usize)
        requires closed { self.old.is_open ≡ false }
        requires ordered { start ≤ end }
        requires within { end ≤ length (all_glyphs self.old) }
        ensures turned { self.new ≡ with_range_reversed start end self.old }
        ensures items { items_of self.new ≡ range_reversed start end (items_of self.old) }
        ensures origins { origins_of self.new
            ≡ origins_by (Arrange start (indices_reversed (end - start)) ∷ []) self.old }
    {
        self.order = ClusterOrder::of(KnownOrder::Unknown);
        turn_glyphs(&mut self.info, start, end);
        turn_positions(&mut self.pos, start, end);
        self.is_placed = true;
    }

    /// Resets every position to zero.
    pub fn clear_positions(&mut self)
        ensures { self.new ≡ with_cleared_positions self.old }
    {
        if !self.is_placed {
            return;
        }
        self.pos.fill(GlyphPosition::default());
        self.is_placed = false;
    }
}

fn turn_glyphs(glyphs: &mut Vec<hb_glyph_info_t>, start: usize, end: usize)
    requires ordered { start ≤ end }
    requires within { end ≤ vec_len glyphs.old }
    ensures items { glyphs.new.items ≡ range_reversed start end glyphs.old.items }
    ensures len { vec_len glyphs.new ≡ vec_len glyphs.old }
{
    glyphs[start..end].reverse();
}

fn turn_positions(positions: &mut Vec<GlyphPosition>, start: usize, end: usize)
    requires ordered { start ≤ end }
    requires within { end ≤ vec_len positions.old }
    ensures items { positions.new.items ≡ range_reversed start end positions.old.items }
    ensures len { vec_len positions.new ≡ vec_len positions.old }
{
    positions[start..end].reverse();
}
