//! Laws of all buffers.
ghost use Rattle.std.specs.Prelude.{◌≡◌, ◌≤◌, length, true, false};
ghost use Rattle.buffer_core.specs.Laws.{DeletesAsWalk, OutputComesBack, ReverseTwice};
ghost use Rattle.buffer_core.specs.Sides.{after_next_glyphs};

use crate::buffer::hb_buffer_t;

/// A buffer that is reversed twice is as it was.
#[tactic(auto, using(crate::proofs::Twice::reverse_twice))]
pub fn law_reverse_twice()
    ensures { ReverseTwice }
{}

/// `delete_glyphs_inplace` leaves what the walk by `delete_glyph` and `next_glyph` leaves.
pub fn law_deletes_as_walk()
    ensures { DeletesAsWalk }
{}

/// As many glyphs as `out_info_mut` lent come back to the same indices, and nothing else changes.
#[tactic(auto, using(crate::proofs::Lent::output_comes_back))]
pub fn law_output_comes_back()
    ensures { OutputComesBack }
{}

/// While the output is in the place of what was read, `next_glyph` succeeds whatever memory is there: `count` calls of it
/// move `count` glyphs behind the cursor. It answers true.
pub fn law_walks_in_place(count: usize, buffer: &mut hb_buffer_t) -> bool
    requires open { buffer.old.is_open ≡ true }
    requires in_place { buffer.old.is_apart ≡ false }
    requires there { count ≤ length buffer.old.ahead }
    ensures walked { result ≡ true }
    ensures moved { buffer.new ≡ after_next_glyphs count buffer.old }
    ensures open { buffer.new.is_open ≡ true }
    ensures in_place { buffer.new.is_apart ≡ false }
{
    for _ in 0..count {
        match buffer.next_glyph() {
            Ok(true) => {}
            Ok(false) | Err(_) => return false,
        }
    }
    true
}
