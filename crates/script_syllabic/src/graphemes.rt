//! Merges of the graphemes that a shaper makes of a text (of this project).
ghost use Rattle.std.specs.Prelude.{◌≡◌, ◌≤◌, ◌+◌, length};
ghost use Rattle.buffer_core.specs.Sides.{all_glyphs};
ghost use Rattle.buffer_stages.specs.Ready.{IsReady};
ghost use Rattle.buffer_stages.specs.Stages.{Happens};
ghost use Rattle.script_syllabic.specs.Graphemes.{merge_of};

use buffer_core::buffer::hb_buffer_t;

/// Merges `count` characters from an index on into one grapheme, none where it is 0; where the level keeps them apart, they
/// are flagged as unsafe to break if PRODUCE_SAFE_BREAKS is set. It takes no memory.
#[tactic(auto, using(crate::proofs::GraphemesMerged::none_merged))]
pub fn merge_grapheme(at: usize, count: usize, buffer: &mut hb_buffer_t)
    requires ready { IsReady buffer.old }
    requires within { at + count ≤ length (all_glyphs buffer.old) }
    ensures { Happens (merge_of at count) buffer.old buffer.new }
{
    if count == 0 {
        return;
    }
    // The length says that the sum fits its type.
    let _len = buffer.len();
    buffer.merge_grapheme_clusters(at, at + count);
    buffer.unsafe_to_break_strictly(Some(at), Some(at + count));
}
