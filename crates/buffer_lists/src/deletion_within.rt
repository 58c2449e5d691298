//! Deletion in place (rustybuzz: hb/buffer.rs, `delete_glyphs_inplace`).
ghost use Rattle.std.specs.Prelude.{◌≡◌, ◌≤◌, true, Bool, length, take};
ghost use Rattle.buffer_glyphs.specs.declared.info.hb_glyph_info_t.{hb_glyph_info_t as Glyph};
ghost use Rattle.buffer_glyphs.specs.Items.{clusters};
ghost use Rattle.buffer_glyphs.specs.Order.{IsOrdered};
ghost use Rattle.buffer_lists.specs.DeletionWalk.{AnswersAs, whole_walk};

mod walk;

use self::walk::{Walk, pass_glyph, settle};
use buffer_glyphs::info::hb_glyph_info_t;
use buffer_glyphs::level::BufferClusterLevel;
use buffer_glyphs::position::GlyphPosition;

/// Deletes the glyphs where `filter` holds, from the left, and answers how many are left and whether a merge flagged
/// one. The glyphs that are left are at the front of both slices, positions at the indices of their glyphs; what is
/// after them has no meaning. Where `breaks` is set, deleted glyphs hand on their flags. A glyph is tested as it is when
/// the walk reaches it. It takes no memory, and linear time where all clusters are known to be in order.
pub fn delete_within<F: Fn(&hb_glyph_info_t) -> bool>(
    glyphs: &mut [hb_glyph_info_t],
    positions: &mut [GlyphPosition],
    level: BufferClusterLevel,
    in_order: bool,
    breaks: bool,
    filter: F,
) -> (usize, bool)
    requires callable { F.IsAlwaysCallable filter }
    requires placed { length positions.old ≡ length glyphs.old }
    requires known { in_order ≡ true → IsOrdered (clusters glyphs.old) }
    ensures within { result.0 ≤ length glyphs.old }
    ensures glyphs { (goes : Glyph → Bool) → AnswersAs F.Fn filter goes →
        take result.0 glyphs.new ≡ (whole_walk breaks level goes glyphs.old positions.old).kept }
    ensures positions { (goes : Glyph → Bool) → AnswersAs F.Fn filter goes →
        take result.0 positions.new ≡ (whole_walk breaks level goes glyphs.old positions.old).kept_positions }
    ensures marked { (goes : Glyph → Bool) → AnswersAs F.Fn filter goes →
        result.1 ≡ (whole_walk breaks level goes glyphs.old positions.old).is_marked }
{
    let mut walk = Walk {
        kept: 0,
        due: None,
        marked: false,
    };
    for at in 0..glyphs.len() {
        walk = pass_glyph(
            glyphs, positions, at, walk, level, in_order, breaks, &filter,
        );
    }
    settle(glyphs, walk.kept, walk.due);
    (walk.kept, walk.marked)
}
