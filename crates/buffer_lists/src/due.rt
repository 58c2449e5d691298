//! Merges of ranges in a walk, of which the last may wait.
ghost use Rattle.std.specs.Prelude.{◌≡◌, ◌≤◌, ◌<◌, ◌||◌, true, false, length};
ghost use Rattle.buffer_glyphs.specs.declared.level.BufferClusterLevel.{BufferClusterLevel as Level};
ghost use Rattle.buffer_glyphs.specs.Items.{clusters};
ghost use Rattle.buffer_glyphs.specs.Order.{IsOrdered};
ghost use Rattle.buffer_glyphs.specs.Levels.{IsMonotone};
ghost use Rattle.buffer_glyphs.specs.Glyphs.{glyphs_merged_at, is_marked_at};
ghost use Rattle.buffer_lists.specs.declared.due.Due.TheVariants.{Nothing};
ghost use Rattle.buffer_lists.specs.Due.{IsWithin, MayBeDue, MayBeRound, with_due};

mod falling;

use self::falling::{DueRange, carry_out, ends_lower, merge_falling};
use buffer_glyphs::info::hb_glyph_info_t;
use buffer_glyphs::level::BufferClusterLevel;
use buffer_glyphs::ranges::merge_at;

/// The renumbering that earlier merges postponed. Where clusters decrease, an immediate merge may renumber the same
/// glyphs again and again; so they are renumbered once their last cluster is known.
#[derive(Clone, Copy)]
pub(crate) enum Due {
    /// None: each merge is carried out at once.
    Nothing,
    /// Where clusters decrease, one range is still to be renumbered.
    Falling(DueRange),
}

/// The state of the merges of a walk.
#[derive(Clone, Copy)]
pub(crate) struct Merges {
    /// Whether a merge flagged a glyph.
    pub(crate) marked: bool,
    /// The renumbering that they postponed.
    pub(crate) due: Due,
}

/// The state before the first merge.
pub(crate) fn no_merges(
    glyphs: &[hb_glyph_info_t],
    level: BufferClusterLevel,
    in_order: bool,
) -> Merges
    requires known { in_order ≡ true → IsMonotone level → IsOrdered (clusters glyphs.now) }
    ensures due { MayBeDue level 0 result.due glyphs.now }
    ensures with_due { with_due result.due glyphs.now ≡ glyphs.now }
    ensures marked { result.marked ≡ false }
    ensures none { in_order ≡ false → result.due ≡ Nothing }
{
    Merges {
        marked: false,
        due: no_due(glyphs, level, in_order),
    }
}

fn no_due(glyphs: &[hb_glyph_info_t], level: BufferClusterLevel, in_order: bool) -> Due
    requires known { in_order ≡ true → IsMonotone level → IsOrdered (clusters glyphs.now) }
    ensures due { MayBeDue level 0 result glyphs.now }
    ensures with_due { with_due result glyphs.now ≡ glyphs.now }
    ensures none { in_order ≡ false → result ≡ Nothing }
{
    if !in_order {
        return Due::Nothing;
    }
    match level {
        BufferClusterLevel::Characters | BufferClusterLevel::Graphemes => Due::Nothing,
        BufferClusterLevel::MonotoneGraphemes | BufferClusterLevel::MonotoneCharacters => {
            no_due_range(glyphs)
        }
    }
}

#[tactic(auto, using(crate::proofs::Carried::nothing_due))]
fn no_due_range(glyphs: &[hb_glyph_info_t]) -> Due
    ensures due { (level : Level) → IsMonotone level → IsOrdered (clusters glyphs.now) →
        MayBeDue level 0 result glyphs.now }
    ensures with_due { with_due result glyphs.now ≡ glyphs.now }
{
    if ends_lower(glyphs) {
        Due::Falling(DueRange {
            from: 0,
            to: 0,
            cluster: 0,
        })
    } else {
        Due::Nothing
    }
}

/// Merges the glyphs from `start` up to before `end`, after the postponed renumbering.
#[tactic(auto, using(crate::proofs::Carried::merged_falling, crate::proofs::Carried::none_marked))]
pub(crate) fn merge_next(
    glyphs: &mut [hb_glyph_info_t],
    level: BufferClusterLevel,
    in_order: bool,
    start: usize,
    end: usize,
    merges: Merges,
) -> Merges
    requires some { start < end }
    requires within { end ≤ length glyphs.old }
    requires known { in_order ≡ true → IsMonotone level → IsOrdered (clusters (with_due merges.due glyphs.old)) }
    requires due { MayBeDue level start merges.due glyphs.old }
    ensures merged { with_due result.due glyphs.new
        ≡ glyphs_merged_at level start end (with_due merges.due glyphs.old) }
    ensures marked { result.marked
        ≡ (merges.marked || is_marked_at level start end (clusters (with_due merges.due glyphs.old))) }
    ensures due { MayBeDue level end result.due glyphs.new }
    ensures round { MayBeRound start end result.due }
{
    let Merges { marked, due } = merges;
    match due {
        Due::Nothing => {
            let marks = merge_at(glyphs, level, start, end, in_order);
            Merges {
                marked: marked | marks,
                due: Due::Nothing,
            }
        }
        Due::Falling(stretch) => Merges {
            marked,
            due: Due::Falling(merge_falling(glyphs, stretch, start, end)),
        },
    }
}

/// Carries out the postponed renumbering.
pub(crate) fn settle(glyphs: &mut [hb_glyph_info_t], due: Due)
    requires { IsWithin (length glyphs.old) due }
    ensures { glyphs.new ≡ with_due due glyphs.old }
{
    match due {
        Due::Nothing => {}
        Due::Falling(stretch) => carry_out(glyphs, stretch),
    }
}
