//! Deletes the first input glyph (rustybuzz: hb/buffer.rs, `delete_glyph`).
ghost use Rattle.std.specs.Prelude.{◌<◌, ◌++◌, false, length, drop};
ghost use Rattle.buffer_glyphs.specs.declared.level.BufferClusterLevel.{BufferClusterLevel as Level};
ghost use Rattle.buffer_glyphs.specs.Items.{clusters};
ghost use Rattle.buffer_glyphs.specs.Deleting.{Deletes};
ghost use Rattle.buffer_lists.specs.Known.{HasOrder};

use crate::order::KnownOrder;
use buffer_glyphs::deletion::{delete_at_front, next_has, recast_end};
use buffer_glyphs::info::hb_glyph_info_t;
use buffer_glyphs::level::BufferClusterLevel;
use buffer_glyphs::runs::last_cluster;

/// Deletes the first input glyph while an output is open; answers whether another was flagged. The glyph at its index
/// has no meaning afterwards. What is known of the order stays known.
#[tactic(auto, using(crate::proofs::Ordered::known_ordered))]
pub fn delete_first(
    output: &mut [hb_glyph_info_t],
    input: &mut [hb_glyph_info_t],
    level: BufferClusterLevel,
    known: KnownOrder,
) -> bool
    requires some { 0 < length input.old }
    requires known { HasOrder known (clusters output.old ++ clusters input.old) }
    ensures deleted { Deletes level output.old input.old output.new (drop 1 input.new) result }
    ensures order { HasOrder known (clusters output.new ++ clusters (drop 1 input.new)) }
{
    if output.is_empty() {
        return delete_at_front(input, 0, level, known.is_known());
    }
    delete_after_output(output, input);
    false
}

/// Deletes the first input glyph, with others before it in the output.
fn delete_after_output(output: &mut [hb_glyph_info_t], input: &[hb_glyph_info_t])
    requires some { 0 < length output.old }
    requires there { 0 < length input.now }
    ensures { (level : Level) → Deletes level output.old input.now output.new (drop 1 input.now) false }
{
    let glyph = input[0];
    let last = last_cluster(output);
    if last <= glyph.cluster {
        return;
    }
    if next_has(input, 1, glyph.cluster) {
        return;
    }
    recast_end(output, &glyph);
}
