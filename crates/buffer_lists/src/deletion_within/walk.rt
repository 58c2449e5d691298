//! The state of a walk of deletions in place.
//!
//! Functions repeat clauses: each requires what the one that it calls requires.
ghost use Rattle.std.specs.Prelude.{◌≡◌, ◌+◌, ◌<◌, ◌≤◌, ◌++◌, ◌||◌, ◌∷◌, [], None, true, false, ℕ, Bool, List, Some, length, take, drop};
ghost use Rattle.buffer_glyphs.specs.declared.info.hb_glyph_info_t.{hb_glyph_info_t as Glyph};
ghost use Rattle.buffer_glyphs.specs.declared.level.BufferClusterLevel.{BufferClusterLevel as Level};
ghost use Rattle.buffer_glyphs.specs.Items.{Position, clusters};
ghost use Rattle.buffer_glyphs.specs.Parts.{first_of, last_of, is_number};
ghost use Rattle.buffer_glyphs.specs.Order.{IsOrdered};
ghost use Rattle.buffer_glyphs.specs.Deleting.{Deletes, DeletionSides, deletion_marks, end_recast, glyphs_deleted, glyphs_handed_after, glyphs_handed_before};
ghost use Rattle.buffer_glyphs.specs.Glyphs.{glyph_flagged};
ghost use Rattle.buffer_glyphs.specs.Origins.{with_last_changed};
ghost use Rattle.buffer_lists.specs.DeletionWalk.{HasFlags, IsDue, IsWalk, AnswersAs, first_step, walk_at, settled_glyphs, without_glyph};

use crate::handing::{flag_last, flags_for, hand_to_first};
use buffer_glyphs::deletion::{delete_at_front, next_has, recast_end};
use buffer_glyphs::info::{hb_glyph_info_t, hb_mask_t};
use buffer_glyphs::level::BufferClusterLevel;
use buffer_glyphs::position::GlyphPosition;
use buffer_glyphs::runs::last_cluster;

/// The state of a walk of deletions. A deleted glyph may give its cluster and flags to the last run of the glyphs that
/// were kept before it. Where clusters are in order this is put off (`due`) until the next glyph is kept, so that
/// however many are deleted the run is written once.
#[derive(Clone, Copy)]
pub(super) struct Walk {
    /// How many glyphs were kept so far; they are the first ones of the list.
    pub(super) kept: usize,
    /// The deleted glyph whose cluster and flags are still to be written on the last run of these.
    pub(super) due: Option<hb_glyph_info_t>,
    /// Whether a merge flagged a glyph.
    pub(super) marked: bool,
}

/// Writes the cluster and flags of the glyph that is due, where one is, on the last run of the first `kept` glyphs.
#[tactic(auto, using(crate::proofs::Walking::settled_put))]
pub(super) fn settle(glyphs: &mut [hb_glyph_info_t], kept: usize, due: Option<hb_glyph_info_t>)
    requires { kept ≤ length glyphs.old }
    ensures { glyphs.new ≡ settled_glyphs due (take kept glyphs.old) ++ drop kept glyphs.old }
{
    if let Some(glyph) = due {
        recast_end(&mut glyphs[..kept], &glyph);
    }
}

/// Keeps the glyph at `at`: it moves to directly after the glyphs that were kept before.
#[tactic(auto, using(crate::proofs::Walking::keep_front, crate::proofs::Walking::keep_ahead))]
fn keep_glyph(
    glyphs: &mut [hb_glyph_info_t],
    positions: &mut [GlyphPosition],
    at: usize,
    walk: Walk,
) -> Walk
    requires within { at < length glyphs.old }
    requires placed { length positions.old ≡ length glyphs.old }
    requires few { walk.kept ≤ at }
    ensures glyphs { take (walk.kept + 1) glyphs.new
        ≡ settled_glyphs walk.due (take walk.kept glyphs.old) ++ take 1 (drop at glyphs.old) }
    ensures rest_glyphs { drop (at + 1) glyphs.new ≡ drop (at + 1) glyphs.old }
    ensures positions { take (walk.kept + 1) positions.new
        ≡ take walk.kept positions.old ++ take 1 (drop at positions.old) }
    ensures rest_positions { drop (at + 1) positions.new ≡ drop (at + 1) positions.old }
    ensures walk { result ≡ record { kept = walk.kept + 1; due = None; marked = walk.marked } }
{
    settle(glyphs, walk.kept, walk.due);
    move_glyph(glyphs, walk.kept, at);
    move_position(positions, walk.kept, at);
    Walk {
        kept: walk.kept + 1,
        due: None,
        marked: walk.marked,
    }
}

#[tactic(auto, using(crate::proofs::Walking::moved_front, crate::proofs::Walking::moved_back))]
fn move_glyph(glyphs: &mut [hb_glyph_info_t], to: usize, from: usize)
    requires ordered { to ≤ from }
    requires within { from < length glyphs.old }
    ensures front { take (to + 1) glyphs.new ≡ take to glyphs.old ++ take 1 (drop from glyphs.old) }
    ensures back { drop (from + 1) glyphs.new ≡ drop (from + 1) glyphs.old }
{
    glyphs[to] = glyphs[from];
}

#[tactic(auto, using(crate::proofs::Walking::moved_front, crate::proofs::Walking::moved_back))]
fn move_position(positions: &mut [GlyphPosition], to: usize, from: usize)
    requires ordered { to ≤ from }
    requires within { from < length positions.old }
    ensures front { take (to + 1) positions.new ≡ take to positions.old ++ take 1 (drop from positions.old) }
    ensures back { drop (from + 1) positions.new ≡ drop (from + 1) positions.old }
{
    positions[to] = positions[from];
}

/// The cluster that the last kept glyph has in the end: that of the glyph which is due, where one is, else its own.
#[tactic(auto, using(crate::proofs::Walking::last_settled))]
fn last_kept(glyphs: &[hb_glyph_info_t], kept: usize, due: Option<hb_glyph_info_t>) -> u32
    requires some { 0 < kept }
    requires within { kept ≤ length glyphs.now }
    ensures { last_of (clusters (settled_glyphs due (take kept glyphs.now))) ≡ Some result }
{
    match due {
        Some(glyph) => glyph.cluster,
        None => last_cluster(&glyphs[..kept]),
    }
}

/// Deletes glyph `at`, where a glyph before it was kept.
fn delete_after_kept(glyphs: &mut [hb_glyph_info_t], at: usize, walk: Walk, in_order: bool) -> Walk
    requires some { 0 < walk.kept }
    requires within { at < length glyphs.old }
    requires sound { IsWalk in_order at walk glyphs.old }
    ensures deletes { (level : Level) →
        Deletes level (settled_glyphs walk.due (take walk.kept glyphs.old)) (drop at glyphs.old)
        (settled_glyphs result.due (take result.kept glyphs.new)) (drop (at + 1) glyphs.new) false }
    ensures due { IsDue in_order result.due (take result.kept glyphs.new) }
    ensures kept { result.kept ≡ walk.kept }
    ensures marked { result.marked ≡ walk.marked }
{
    let glyph = glyphs[at];
    let last = last_kept(glyphs, walk.kept, walk.due);
    if last <= glyph.cluster {
        return walk;
    }
    if next_has(glyphs, at + 1, glyph.cluster) {
        return walk;
    }
    if in_order {
        return Walk {
            due: Some(glyph),
            ..walk
        };
    }
    settle(glyphs, walk.kept, Some(glyph));
    Walk { due: None, ..walk }
}

/// Deletes glyph `at`.
fn delete_glyph(
    glyphs: &mut [hb_glyph_info_t],
    at: usize,
    walk: Walk,
    level: BufferClusterLevel,
    in_order: bool,
) -> Walk
    requires within { at < length glyphs.old }
    requires sound { IsWalk in_order at walk glyphs.old }
    ensures passed { (ps : List Position) (g : Glyph) (back : List Glyph) → drop at glyphs.old ≡ g ∷ back →
        walk_at (at + 1) result glyphs.new ps ≡ without_glyph false level (walk_at at walk glyphs.old ps) g back }
    ensures sound { IsWalk in_order (at + 1) result glyphs.new }
{
    if walk.kept == 0 {
        let marked = delete_at_front(glyphs, at, level, in_order);
        return Walk {
            kept: 0,
            due: None,
            marked: walk.marked | marked,
        };
    }
    delete_after_kept(glyphs, at, walk, in_order)
}

/// Deletes glyph `at`, which hands on its flags where `breaks` is set.
fn delete_handing(
    glyphs: &mut [hb_glyph_info_t],
    at: usize,
    walk: Walk,
    level: BufferClusterLevel,
    in_order: bool,
    breaks: bool,
) -> Walk
    requires within { at < length glyphs.old }
    requires sound { IsWalk in_order at walk glyphs.old }
    ensures passed { (ps : List Position) (g : Glyph) (back : List Glyph) → drop at glyphs.old ≡ g ∷ back →
        walk_at (at + 1) result glyphs.new ps ≡ without_glyph breaks level (walk_at at walk glyphs.old ps) g back }
    ensures sound { IsWalk in_order (at + 1) result glyphs.new }
{
    let deleted = [glyphs[at]];
    let walk = delete_glyph(glyphs, at, walk, level, in_order);
    if !breaks {
        return walk;
    }
    hand_on(glyphs, at + 1, walk, &deleted)
}

/// Hands on the flags of deleted glyphs to the last that was kept, and to the glyph at `next`.
#[tactic(auto, using(buffer_glyphs::specs::Lemmas::Handed::handed_defined))]
fn hand_on(
    glyphs: &mut [hb_glyph_info_t],
    next: usize,
    walk: Walk,
    deleted: &[hb_glyph_info_t],
) -> Walk
    requires few { walk.kept ≤ next }
    requires within { next ≤ length glyphs.old }
    requires due { IsDue true walk.due (take walk.kept glyphs.old) }
    ensures front { settled_glyphs result.due (take result.kept glyphs.new)
        ≡ glyphs_handed_before deleted.now (settled_glyphs walk.due (take walk.kept glyphs.old)) }
    ensures back { drop next glyphs.new ≡ glyphs_handed_after deleted.now
        (last_of (clusters (settled_glyphs walk.due (take walk.kept glyphs.old)))) (drop next glyphs.old) }
    ensures due { (in_order : Bool) → IsDue in_order walk.due (take walk.kept glyphs.old) →
        IsDue in_order result.due (take result.kept glyphs.new) }
    ensures kept { result.kept ≡ walk.kept }
    ensures marked { result.marked ≡ walk.marked }
{
    let before = kept_cluster(glyphs, walk);
    let walk = flag_kept(glyphs, walk, flags_for(before, deleted));
    hand_to_first(&mut glyphs[next..], before, deleted);
    walk
}

/// The cluster that the last kept glyph has in the end, if there is one.
#[tactic(auto, using(crate::proofs::HandedOn::none_last))]
fn kept_cluster(glyphs: &[hb_glyph_info_t], walk: Walk) -> Option<u32>
    requires { walk.kept ≤ length glyphs.now }
    ensures { result ≡ last_of (clusters (settled_glyphs walk.due (take walk.kept glyphs.now))) }
{
    if walk.kept == 0 {
        return None;
    }
    Some(last_kept(glyphs, walk.kept, walk.due))
}

/// Sets flags on the last kept glyph. The run that takes the flags of the glyph which is due is written only where that
/// one lacks them.
#[tactic(auto, using(crate::proofs::HandedOn::due_flagged, crate::proofs::HandedOn::flagged_front, crate::proofs::HandedOn::flagged_back))]
fn flag_kept(glyphs: &mut [hb_glyph_info_t], walk: Walk, flags: hb_mask_t) -> Walk
    requires within { walk.kept ≤ length glyphs.old }
    requires due { IsDue true walk.due (take walk.kept glyphs.old) }
    requires flags { flags < 8 }
    ensures front { settled_glyphs result.due (take result.kept glyphs.new)
        ≡ with_last_changed (glyph_flagged flags) (settled_glyphs walk.due (take walk.kept glyphs.old)) }
    ensures back { (i : ℕ) → walk.kept ≤ i → drop i glyphs.new ≡ drop i glyphs.old }
    ensures due { (in_order : Bool) → IsDue in_order walk.due (take walk.kept glyphs.old) →
        IsDue in_order result.due (take result.kept glyphs.new) }
    ensures kept { result.kept ≡ walk.kept }
    ensures marked { result.marked ≡ walk.marked }
    ensures len { length glyphs.new ≡ length glyphs.old }
{
    if has_due_flags(walk.due, flags) {
        return walk;
    }
    flag_settled(glyphs, walk.kept, walk.due, flags);
    Walk { due: None, ..walk }
}

/// Whether a glyph is due, and has the flags.
fn has_due_flags(due: Option<hb_glyph_info_t>, flags: hb_mask_t) -> bool
    ensures { result ≡ true → HasFlags due flags }
{
    match due {
        Some(due) => due.mask | flags == due.mask,
        None => false,
    }
}

/// Settles the first `kept` glyphs, and sets flags on the last of them.
#[tactic(auto, using(crate::proofs::HandedOn::flagged_put))]
fn flag_settled(
    glyphs: &mut [hb_glyph_info_t],
    kept: usize,
    due: Option<hb_glyph_info_t>,
    flags: hb_mask_t,
)
    requires { kept ≤ length glyphs.old }
    ensures { glyphs.new ≡ with_last_changed (glyph_flagged flags) (settled_glyphs due (take kept glyphs.old))
        ++ drop kept glyphs.old }
{
    settle(glyphs, kept, due);
    flag_last(&mut glyphs[..kept], flags);
}

/// Deletes glyph `at` where `filter` holds.
pub(super) fn pass_glyph<F: Fn(&hb_glyph_info_t) -> bool>(
    glyphs: &mut [hb_glyph_info_t],
    positions: &mut [GlyphPosition],
    at: usize,
    walk: Walk,
    level: BufferClusterLevel,
    in_order: bool,
    breaks: bool,
    filter: &F,
) -> Walk
    requires callable { F.IsAlwaysCallable filter.now }
    requires within { at < length glyphs.old }
    requires placed { length positions.old ≡ length glyphs.old }
    requires sound { IsWalk in_order at walk glyphs.old }
    ensures passed { (goes : Glyph → Bool) → AnswersAs F.Fn filter.now goes →
        walk_at (at + 1) result glyphs.new positions.new
        ≡ first_step breaks level goes (walk_at at walk glyphs.old positions.old) }
    ensures sound { IsWalk in_order (at + 1) result glyphs.new }
{
    if filter(&glyphs[at]) {
        return delete_handing(glyphs, at, walk, level, in_order, breaks);
    }
    keep_glyph(glyphs, positions, at, walk)
}
