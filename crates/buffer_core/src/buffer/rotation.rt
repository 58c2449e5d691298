//! Moves of glyphs within the output (rustybuzz: hb/buffer.rs, `out_info_mut`, and what its callers write).
ghost use Rattle.std.specs.Prelude.{◌≡◌, ◌≤◌, ◌-◌, length};
ghost use Rattle.buffer_core.specs.Moving.{with_output_moved, with_range_moved};

use super::hb_buffer_t;
use buffer_glyphs::info::hb_glyph_info_t;
use buffer_lists::order::{ClusterOrder, KnownOrder};

impl hb_buffer_t {
    /// Moves the glyphs behind the cursor from `start` up to before `middle` after those up to before `end`. It takes no
    /// memory.
    pub fn rotate_output(&mut self, start: usize, middle: usize, end: usize)
        requires begins { start ≤ middle }
        requires ordered { middle ≤ end }
        requires within { end ≤ length self.old.behind }
        ensures { self.new ≡ with_output_moved start (middle - start) (end - middle) self.old }
    {
        self.order = ClusterOrder::of(KnownOrder::Unknown);
        rotate(&mut self.info, start, middle, end);
    }
}

fn rotate(glyphs: &mut [hb_glyph_info_t], start: usize, middle: usize, end: usize)
    requires begins { start ≤ middle }
    requires ordered { middle ≤ end }
    requires within { end ≤ length glyphs.old }
    ensures { glyphs.new ≡ with_range_moved start (middle - start) (end - middle) glyphs.old }
{
    glyphs[start..end].rotate_left(middle - start);
}
