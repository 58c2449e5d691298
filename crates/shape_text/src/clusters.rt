//! Merges the graphemes of a text into clusters, form_clusters (rustybuzz: hb/ot_shape.rs).
ghost use Rattle.std.specs.Prelude.{◌≡◌, ◌<◌, ◌≤◌, ◌∷◌, [], length};
ghost use Rattle.buffer_core.specs.Readings.{always};
ghost use Rattle.buffer_core.specs.Sides.{all_glyphs, items_of};
ghost use Rattle.buffer_stages.specs.Ready.{IsReady};
ghost use Rattle.shape_text.specs.Clusters.{grapheme_event, grapheme_events, grapheme_lengths, with_clusters};
ghost use Rattle.buffer_stages.specs.Stages.{Happens, IsFollowed};

use crate::direction::has_continuation;
use buffer_common::constants::HB_BUFFER_SCRATCH_FLAG_HAS_NON_ASCII;
use buffer_core::buffer::hb_buffer_t;
use buffer_glyphs::level::BufferClusterLevel;

/// Merges each grapheme of the text into a cluster at the levels MonotoneGraphemes and Graphemes, and flags it as unsafe
/// to break at the others (`form_clusters`). A text without characters above U+007F stays unchanged: each of its
/// characters is a grapheme. It takes linear time.
#[tactic(auto, using(crate::proofs::Formed::clusters_followed, crate::proofs::Formed::none_followed))]
pub fn form_clusters(buffer: &mut hb_buffer_t)
    requires { IsReady buffer.old }
    ensures { IsFollowed (always with_clusters) buffer.old buffer.new }
{
    if buffer.scratch_flags() & HB_BUFFER_SCRATCH_FLAG_HAS_NON_ASCII != 0 {
        form_graphemes(buffer);
    }
}

#[tactic(auto, using(crate::proofs::Alone::graphemes_stay))]
fn form_graphemes(buffer: &mut hb_buffer_t)
    requires { IsReady buffer.old }
    ensures { Happens (grapheme_events buffer.old.level 0 (grapheme_lengths (items_of buffer.old))) buffer.old
        buffer.new }
{
    // Without a continuation each character is a grapheme.
    if has_continuation(buffer.info_slice()) {
        form_each_grapheme(buffer);
    }
}

#[tactic(auto, using(crate::proofs::Formed::none_formed, crate::proofs::Formed::next_formed, crate::proofs::Formed::all_formed, crate::proofs::Formed::grapheme_ends, crate::proofs::Formed::same_count))]
fn form_each_grapheme(buffer: &mut hb_buffer_t)
    requires { IsReady buffer.old }
    ensures { Happens (grapheme_events buffer.old.level 0 (grapheme_lengths (items_of buffer.old))) buffer.old
        buffer.new }
{
    let count = buffer.len();
    let mut start = 0;
    while start < count {
        let end = buffer.next_grapheme(start);
        form_grapheme(buffer, start, end);
        start = end;
    }
}

/// Merges the characters of a grapheme, or flags them as unsafe to break. Most graphemes are one character, which
/// neither changes.
#[tactic(auto, using(crate::proofs::Formed::alone_happens))]
fn form_grapheme(buffer: &mut hb_buffer_t, start: usize, end: usize)
    requires ready { IsReady buffer.old }
    requires some { start < end }
    requires within { end ≤ length (all_glyphs buffer.old) }
    ensures { Happens (grapheme_event buffer.old.level start end ∷ []) buffer.old buffer.new }
{
    if end - start > 1 {
        unite_grapheme(buffer, start, end);
    }
}

/// Merges or flags the characters of a grapheme, by the cluster level.
#[tactic(auto, using(buffer_stages::proofs::Lemmas::Happened::grapheme_happens, buffer_stages::proofs::Lemmas::Happened::break_happens, buffer_stages::proofs::Lemmas::Happened::end_of_input))]
fn unite_grapheme(buffer: &mut hb_buffer_t, start: usize, end: usize)
    requires ready { IsReady buffer.old }
    requires ordered { start ≤ end }
    requires within { end ≤ length (all_glyphs buffer.old) }
    ensures { Happens (grapheme_event buffer.old.level start end ∷ []) buffer.old buffer.new }
{
    match buffer.cluster_level() {
        BufferClusterLevel::MonotoneGraphemes | BufferClusterLevel::Graphemes => {
            buffer.merge_grapheme_clusters(start, end);
        }
        BufferClusterLevel::MonotoneCharacters | BufferClusterLevel::Characters => {
            buffer.unsafe_to_break(Some(start), Some(end));
        }
    }
}
