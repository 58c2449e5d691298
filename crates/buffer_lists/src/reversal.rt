//! Reversal of groups (rustybuzz: hb/buffer.rs, `reverse_groups`).
//!
//! Functions repeat clauses: each requires what the one that it calls requires.
ghost use Rattle.std.specs.Prelude.{◌≡◌, ◌<◌, ◌≤◌, ◌-◌, ◌||◌, true, false, Bool, length};
ghost use Rattle.buffer_glyphs.specs.declared.info.hb_glyph_info_t.{hb_glyph_info_t as Glyph};
ghost use Rattle.buffer_glyphs.specs.Items.{clusters};
ghost use Rattle.buffer_glyphs.specs.Order.{IsOrdered};
ghost use Rattle.buffer_glyphs.specs.Levels.{IsMonotone};
ghost use Rattle.buffer_lists.specs.declared.due.Due.TheVariants.{Nothing};
ghost use Rattle.buffer_lists.specs.Due.{MayBeDue, MayBeRound, with_due};
ghost use Rattle.buffer_lists.specs.Groups.{Decides};
ghost use Rattle.buffer_lists.specs.Turning.{first_turned, is_marked_if, glyphs_merged_if, range_reversed, turning_of, turning_at};

use crate::due::{Merges, merge_next, no_merges, settle};
use crate::groups::end_of_group;
use buffer_glyphs::info::hb_glyph_info_t;
use buffer_glyphs::level::BufferClusterLevel;
use buffer_glyphs::position::GlyphPosition;

/// Reverses the order of the groups, and keeps the order within each; positions move with their glyphs. The groups are
/// found from the left; where `merge` is set, each is merged before the next is looked for. Answers whether a merge
/// flagged a glyph. Where all clusters are known to be in order the merges take linear time in all; else each compares
/// all glyphs with its group.
pub fn reverse_groups<F: Fn(&hb_glyph_info_t, &hb_glyph_info_t) -> bool>(
    glyphs: &mut [hb_glyph_info_t],
    positions: &mut [GlyphPosition],
    level: BufferClusterLevel,
    in_order: bool,
    merge: bool,
    group: F,
) -> bool
    requires callable { F.IsAlwaysCallable group }
    requires placed { length positions.old ≡ length glyphs.old }
    requires known { in_order ≡ true → IsOrdered (clusters glyphs.old) }
    ensures glyphs { (joins : Glyph → Glyph → Bool) → Decides F.Fn group joins →
        glyphs.new ≡ (turning_of merge level joins glyphs.old positions.old).glyphs }
    ensures positions { (joins : Glyph → Glyph → Bool) → Decides F.Fn group joins →
        positions.new ≡ (turning_of merge level joins glyphs.old positions.old).positions }
    ensures marked { (joins : Glyph → Glyph → Bool) → Decides F.Fn group joins →
        result ≡ (turning_of merge level joins glyphs.old positions.old).is_marked }
{
    let mut merges = no_merges(glyphs, level, merge && in_order);
    let mut start = 0;
    while start < glyphs.len() {
        let end = end_of_group(glyphs, start, &group);
        merges = turn_group(
            glyphs, positions, level, in_order, merge, start, end, merges,
        );
        start = end;
    }
    settle(glyphs, merges.due);
    glyphs.reverse();
    positions.reverse();
    merges.marked
}

/// Merges a group where that is requested, and reverses its glyphs and positions.
fn turn_group(
    glyphs: &mut [hb_glyph_info_t],
    positions: &mut [GlyphPosition],
    level: BufferClusterLevel,
    in_order: bool,
    merge: bool,
    start: usize,
    end: usize,
    merges: Merges,
) -> Merges
    requires some { start < end }
    requires within { end ≤ length glyphs.old }
    requires placed { length positions.old ≡ length glyphs.old }
    requires known { merge ≡ true → in_order ≡ true → IsMonotone level →
        IsOrdered (clusters (with_due merges.due glyphs.old)) }
    requires due { MayBeDue level start merges.due glyphs.old }
    requires plain { merge ≡ false → merges.due ≡ Nothing }
    ensures turned { turning_at end (with_due result.due glyphs.new) positions.new result.marked
        ≡ first_turned merge level (end - start)
        (turning_at start (with_due merges.due glyphs.old) positions.old merges.marked) }
    ensures order { merge ≡ true → IsMonotone level → IsOrdered (clusters (with_due merges.due glyphs.old)) →
        IsOrdered (clusters (with_due result.due glyphs.new)) }
    ensures due { MayBeDue level end result.due glyphs.new }
    ensures plain { merge ≡ false → result.due ≡ Nothing }
{
    let merged = merge_group(glyphs, level, in_order, merge, start, end, merges);
    turn_part(glyphs, start, end);
    turn_part(positions, start, end);
    merged
}

fn merge_group(
    glyphs: &mut [hb_glyph_info_t],
    level: BufferClusterLevel,
    in_order: bool,
    merge: bool,
    start: usize,
    end: usize,
    merges: Merges,
) -> Merges
    requires some { start < end }
    requires within { end ≤ length glyphs.old }
    requires known { merge ≡ true → in_order ≡ true → IsMonotone level →
        IsOrdered (clusters (with_due merges.due glyphs.old)) }
    requires due { MayBeDue level start merges.due glyphs.old }
    requires plain { merge ≡ false → merges.due ≡ Nothing }
    ensures merged { with_due result.due glyphs.new ≡ glyphs_merged_if merge level start end (with_due merges.due glyphs.old) }
    ensures marked { result.marked
        ≡ (merges.marked || is_marked_if merge level start end (clusters (with_due merges.due glyphs.old))) }
    ensures due { MayBeDue level end result.due glyphs.new }
    ensures round { MayBeRound start end result.due }
    ensures plain { merge ≡ false → result.due ≡ Nothing }
{
    if merge {
        merge_next(glyphs, level, in_order, start, end, merges)
    } else {
        merges
    }
}

/// Reverses the items from `start` up to before `end`.
#[tactic(auto, using(crate::proofs::Lemmas::Turned::turned_put))]
fn turn_part<T>(items: &mut [T], start: usize, end: usize)
    requires ordered { start ≤ end }
    requires within { end ≤ length items.old }
    ensures { items.new ≡ range_reversed start end items.old }
{
    items[start..end].reverse();
}
