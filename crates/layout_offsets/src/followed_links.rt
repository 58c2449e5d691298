//! Glyphs drawn from where their links lead, on a list of positions (rustybuzz: hb/ot_layout_gpos_table.rs,
//! `propagate_attachment_offsets`).
//!
//! To add advances and to subtract them are functions of one form, each a fold of a step that has its own definition.
//! A mark is drawn by two functions of one form too: by the advances between, or by sums where a link leads far back
//! (`NEAR`).
ghost use Rattle.std.specs.Prelude.{◌≡◌, ◌≤◌, ◌<◌, length, set, slice_range};
ghost use Rattle.std.specs.List.{fold, list_any};
ghost use Rattle.std.specs.Prelude.{IfSome, MatchOption, true, false, pos, ◌+ℤ◌};
ghost use Rattle.layout_offsets.specs.FollowedLinks.{Drawing, with_child_drawn, with_link_cleared, finished_positions, with_link_followed, with_links_followed, offset_by, child_drawn, back_over, on_over, mark_drawn, is_far_back, kind_tested, kinds_tested};
ghost use Rattle.layout_offsets.specs.Links.{link_target, position_at};
ghost use Rattle.layout_offsets.specs.AdvanceSums.{drawing, mark_by_sums, pen_before, back_by, on_by};
ghost use Rattle.layout_offsets.specs.Walks.{IsComing, WalkStops, StepsToParent, HasReturn, StepsBack, are_shut, is_open, opened_link, closed_link, HasLinklessParent};

use crate::advance_sums::{PEN_DOWN, Pen, has_kind, pen_of, pen_way, sum_up, take_apart};
use crate::links::linked;
use crate::sums::{minus, plus};
use buffer_common::direction::Direction;
use buffer_glyphs::position::GlyphPosition;
use buffer_glyphs::position::attach_type::CURSIVE;

fn offset_by(base: GlyphPosition, position: GlyphPosition) -> GlyphPosition
    ensures { result ≡ offset_by base position }
{
    let mut based = position;
    based.x_offset = plus(position.x_offset, base.x_offset);
    based.y_offset = plus(position.y_offset, base.y_offset);
    based
}

fn child_drawn(across: bool, base: GlyphPosition, position: GlyphPosition) -> GlyphPosition
    ensures { result ≡ child_drawn across base position }
{
    let mut drawn = position;
    if across {
        drawn.y_offset = plus(position.y_offset, base.y_offset);
    } else {
        drawn.x_offset = plus(position.x_offset, base.x_offset);
    }
    drawn
}

/// A position with a distance subtracted from its offsets.
fn back_by(way: Pen, position: GlyphPosition) -> GlyphPosition
    ensures { result ≡ back_by way position }
{
    let mut moved = position;
    moved.x_offset = minus(position.x_offset, way.x);
    moved.y_offset = minus(position.y_offset, way.y);
    moved
}

fn on_by(way: Pen, position: GlyphPosition) -> GlyphPosition
    ensures { result ≡ on_by way position }
{
    let mut moved = position;
    moved.x_offset = plus(position.x_offset, way.x);
    moved.y_offset = plus(position.y_offset, way.y);
    moved
}

/// The pen before a glyph.
fn pen_before(positions: &[GlyphPosition], at: usize) -> Pen
    requires { at < length positions.now }
    ensures { result ≡ pen_before at positions.now }
{
    if at == 0 {
        PEN_DOWN
    } else {
        pen_of(positions[at - 1])
    }
}

/// The position of a mark among sums, once its parent is drawn.
fn mark_by_sums(
    positions: &[GlyphPosition],
    child: usize,
    parent: usize,
    is_forward: bool,
) -> GlyphPosition
    requires child { child < length positions.now }
    requires parent { parent < length positions.now }
    ensures { result ≡ mark_by_sums is_forward child parent positions.now }
{
    let based = offset_by(positions[parent], positions[child]);
    if parent >= child {
        return based;
    }
    if is_forward {
        return back_by(
            pen_way(pen_before(positions, parent), pen_before(positions, child)),
            based,
        );
    }
    on_by(
        pen_way(pen_of(positions[parent]), pen_of(positions[child])),
        based,
    )
}

fn back_over(position: GlyphPosition, over: GlyphPosition) -> GlyphPosition
    ensures { result ≡ back_over position over }
{
    let mut moved = position;
    moved.x_offset = minus(position.x_offset, over.x_advance);
    moved.y_offset = minus(position.y_offset, over.y_advance);
    moved
}

fn on_over(position: GlyphPosition, over: GlyphPosition) -> GlyphPosition
    ensures { result ≡ on_over position over }
{
    let mut moved = position;
    moved.x_offset = plus(position.x_offset, over.x_advance);
    moved.y_offset = plus(position.y_offset, over.y_advance);
    moved
}

/// A position with the advances of the glyphs of a range subtracted from its offsets.
#[tactic(auto, using(crate::proofs::Between::between_last))]
fn back_between(
    positions: &[GlyphPosition],
    from: usize,
    to: usize,
    position: GlyphPosition,
) -> GlyphPosition
    requires { to ≤ length positions.now }
    ensures { result ≡ fold back_over position (slice_range positions.now from to) }
{
    let mut moved = position;
    for i in from..to {
        moved = back_over(moved, positions[i]);
    }
    moved
}

/// A position with the advances of the glyphs of a range added to its offsets.
#[tactic(auto, using(crate::proofs::Between::between_last))]
fn on_between(
    positions: &[GlyphPosition],
    from: usize,
    to: usize,
    position: GlyphPosition,
) -> GlyphPosition
    requires { to ≤ length positions.now }
    ensures { result ≡ fold on_over position (slice_range positions.now from to) }
{
    let mut moved = position;
    for i in from..to {
        moved = on_over(moved, positions[i]);
    }
    moved
}

/// The position of a mark, once its parent is drawn.
fn mark_drawn(
    positions: &[GlyphPosition],
    child: usize,
    parent: usize,
    is_forward: bool,
) -> GlyphPosition
    requires child { child < length positions.now }
    requires parent { parent < length positions.now }
    ensures { result ≡ mark_drawn is_forward child parent positions.now }
{
    let based = offset_by(positions[parent], positions[child]);
    if is_forward {
        return back_between(positions, parent, child, based);
    }
    on_between(positions, parent + 1, child + 1, based)
}

/// The position of a glyph, once its parent is drawn: among sums, or among advances.
fn drawn(
    positions: &[GlyphPosition],
    child: usize,
    parent: usize,
    direction: Direction,
    by_sums: bool,
) -> GlyphPosition
    requires child { child < length positions.now }
    requires parent { parent < length positions.now }
    ensures { result ≡ drawing by_sums direction child parent positions.now }
{
    let position = positions[child];
    if position.attach_type == CURSIVE {
        return child_drawn(direction.is_horizontal(), positions[parent], position);
    }
    let is_forward = direction.is_forward();
    if by_sums {
        mark_by_sums(positions, child, parent, is_forward)
    } else {
        mark_drawn(positions, child, parent, is_forward)
    }
}

/// Draws a glyph, once its parent is drawn.
fn draw_child(
    positions: &mut [GlyphPosition],
    child: usize,
    parent: usize,
    direction: Direction,
    by_sums: bool,
)
    requires child { child < length positions.old }
    requires parent { parent < length positions.old }
    ensures { positions.new ≡ with_child_drawn (drawing by_sums direction) child parent positions.old }
{
    positions[child] = drawn(positions, child, parent, direction, by_sums);
}

/// The bit added to the kind of a link while a walk is beyond it.
const OPEN: u8 = 128;

/// A glyph, and the link by which a walk reached it.
#[derive(Clone, Copy)]
struct Step {
    by: i16,
    at: usize,
}

/// The end of a walk, and how many glyphs it came through.
#[derive(Clone, Copy)]
struct Walk {
    last: Step,
    depth: usize,
}

fn is_open(position: &GlyphPosition) -> bool
    ensures { result ≡ is_open position.now }
{
    position.attach_type >= OPEN && position.attach_chain != 0
}

fn opened_link(position: GlyphPosition, by: i16) -> GlyphPosition
    requires { position.attach_type < 128 }
    ensures { result ≡ opened_link by position }
{
    let mut open = position;
    open.attach_chain = by;
    open.attach_type += OPEN;
    open
}

fn closed_link(position: GlyphPosition) -> GlyphPosition
    requires { is_open position ≡ true }
    ensures value { result ≡ closed_link position }
    ensures closed { is_open result ≡ false }
{
    let mut closed = position;
    closed.attach_chain = 0;
    closed.attach_type -= OPEN;
    closed
}

/// Clears a glyph's link.
fn unlink(positions: &mut [GlyphPosition], at: usize)
    requires here { at < length positions.old }
    ensures { positions.new ≡ with_link_cleared at positions.old }
{
    positions[at].attach_chain = 0;
}

/// Follows a glyph's link, and stores there the link by which the walk reached the glyph.
fn step_to_parent(positions: &mut [GlyphPosition], last: Step) -> Option<Step>
    requires here { last.at < length positions.old }
    ensures { MatchOption result (WalkStops last.at positions.old positions.new)
        (λ s. StepsToParent s.at s.by last.at last.by positions.old positions.new) }
{
    let at = last.at;
    let position = positions[at];
    if is_open(&position) {
        return None;
    }
    let link = position.attach_chain;
    let Some(there) = linked(positions.len(), at, link) else {
        unlink(positions, at);
        return None;
    };
    positions[at] = opened_link(position, last.by);
    Some(Step {
        by: link,
        at: there,
    })
}

/// The glyph that a walk came from.
#[tactic(auto, using(crate::proofs::Going::came_open))]
fn step_origin(positions: &[GlyphPosition], last: Step) -> usize
    requires here { last.at < length positions.now }
    requires came { HasReturn last.at last.by positions.now }
    ensures within { result < length positions.now }
    ensures link { pos last.at ≡ pos result +ℤ last.by }
    ensures open { is_open (position_at result positions.now) ≡ true }
{
    // The length of a slice fits an `isize`, so both casts keep their value.
    let _count = positions.len();
    (last.at as isize - isize::from(last.by)) as usize
}

/// Returns to the glyph that a walk came from, and draws it.
fn step_to_child(
    positions: &mut [GlyphPosition],
    last: Step,
    direction: Direction,
    by_sums: bool,
) -> Step
    requires here { last.at < length positions.old }
    requires came { HasReturn last.at last.by positions.old }
    ensures { StepsBack (drawing by_sums direction) result.at result.by last.at last.by positions.old positions.new }
{
    let child = step_origin(positions, last);
    let position = positions[child];
    let link = position.attach_chain;
    positions[child] = closed_link(position);
    draw_child(positions, child, last.at, direction, by_sums);
    Step {
        by: link,
        at: child,
    }
}

/// Follows links from a glyph until one leads nowhere, or to a glyph that the walk came through.
fn walk_links(positions: &mut [GlyphPosition], start: usize) -> Walk
    requires here { start < length positions.old }
    requires shut { are_shut positions.old }
    ensures { (draw : Drawing) → IsComing draw (with_link_followed draw (length positions.old) start positions.old)
        (length positions.old) result.last.at result.last.by result.depth positions.new }
{
    let count = positions.len();
    let mut last = Step { by: 1, at: start };
    for depth in 0..count {
        let Some(step) = step_to_parent(positions, last) else {
            return Walk { last, depth };
        };
        last = step;
    }
    Walk { last, depth: count }
}

/// Draws a glyph with all glyphs that it is attached to. It follows the links and stores in each glyph the link by
/// which it got there; then it returns by these, and draws. So it needs neither memory nor a stack.
fn follow(positions: &mut [GlyphPosition], start: usize, direction: Direction, by_sums: bool)
    requires here { start < length positions.old }
    requires shut { are_shut positions.old }
    ensures drawn { positions.new ≡ with_link_followed (drawing by_sums direction) (length positions.old) start positions.old }
    ensures shut { are_shut positions.new }
{
    let walk = walk_links(positions, start);
    let mut last = walk.last;
    for _step in 0..walk.depth {
        last = step_to_child(positions, last, direction, by_sums);
    }
}

/// The glyph that a glyph is attached to, where that one has no link.
fn linkless_parent(positions: &[GlyphPosition], at: usize) -> Option<usize>
    requires { at < length positions.now }
    ensures { IfSome result (λ j. HasLinklessParent at j positions.now) }
{
    let there = linked(positions.len(), at, positions[at].attach_chain)?;
    if positions[there].attach_chain == 0 {
        Some(there)
    } else {
        None
    }
}

/// Draws a glyph from its parent, which has no link.
#[tactic(auto, using(crate::proofs::Near::shut_at_once))]
fn draw_at_once(
    positions: &mut [GlyphPosition],
    at: usize,
    from: usize,
    direction: Direction,
    by_sums: bool,
)
    requires here { at < length positions.old }
    requires near { HasLinklessParent at from positions.old }
    requires shut { are_shut positions.old }
    ensures drawn { positions.new ≡ with_link_followed (drawing by_sums direction) (length positions.old) at positions.old }
    ensures shut { are_shut positions.new }
{
    unlink(positions, at);
    draw_child(positions, at, from, direction, by_sums);
}

/// Draws a glyph with all glyphs that it is attached to. Most are attached to none, or to one that is drawn already,
/// and need no walk.
#[tactic(auto, using(crate::proofs::Going::linkless_followed))]
fn draw_linked(positions: &mut [GlyphPosition], at: usize, direction: Direction, by_sums: bool)
    requires here { at < length positions.old }
    requires shut { are_shut positions.old }
    ensures drawn { positions.new ≡ with_link_followed (drawing by_sums direction) (length positions.old) at positions.old }
    ensures shut { are_shut positions.new }
{
    if positions[at].attach_chain == 0 {
        return;
    }
    if let Some(from) = linkless_parent(positions, at) {
        draw_at_once(positions, at, from, direction, by_sums);
        return;
    }
    follow(positions, at, direction, by_sums);
}

/// Draws all glyphs.
fn follow_all(positions: &mut [GlyphPosition], direction: Direction, by_sums: bool)
    requires shut { are_shut positions.old }
    ensures { positions.new ≡ with_links_followed (drawing by_sums direction) positions.old }
{
    for i in 0..positions.len() {
        draw_linked(positions, i, direction, by_sums);
    }
}

/// A mark that is attached to one of the 16 glyphs before it is drawn by the advances between the two. Where a link
/// leads further back, all glyphs are drawn by sums, so that it takes linear time.
const NEAR: i16 = 16;

/// Clears a glyph's link where that is neither a mark's nor a cursive child's, and answers whether the glyph is
/// attached to one more than `NEAR` glyphs before it.
#[tactic(auto, using(crate::proofs::Tested::linkless_tested, crate::proofs::Tested::other_tested, crate::proofs::Tested::kind_stays, crate::proofs::Tested::linkless_near, crate::proofs::Tested::other_near, crate::proofs::Tested::kind_far))]
fn test_kind(positions: &mut [GlyphPosition], at: usize) -> bool
    requires here { at < length positions.old }
    ensures tested { positions.new ≡ set positions.old at (kind_tested (position_at at positions.old)) }
    ensures far { result ≡ is_far_back (position_at at positions.old) }
{
    if positions[at].attach_chain == 0 {
        return false;
    }
    let position = positions[at];
    if !has_kind(position) {
        unlink(positions, at);
        return false;
    }
    position.attach_chain < -NEAR
}

/// Clears the links that are neither a mark's nor a cursive child's, and answers whether some glyph is attached to one
/// more than `NEAR` glyphs before it.
fn test_kinds(positions: &mut [GlyphPosition]) -> bool
    ensures tested { positions.new ≡ kinds_tested positions.old }
    ensures far { result ≡ list_any is_far_back positions.old }
{
    let mut is_far = false;
    for i in 0..positions.len() {
        is_far |= test_kind(positions, i);
    }
    is_far
}

/// Draws all glyphs, with the distance between two a difference of sums: in linear time, however far links lead.
#[tactic(auto, using(crate::proofs::BySums::finished_by_sums, crate::proofs::BySums::summed_shut))]
fn finish_by_sums(positions: &mut [GlyphPosition], direction: Direction)
    ensures { positions.new ≡ finished_positions direction positions.old }
{
    sum_up(positions);
    follow_all(positions, direction, true);
    take_apart(positions);
}

/// Draws all glyphs from where their links lead: a mark's offset counts from where its parent is drawn, a cursive
/// child's offset across the line too. Each link is cleared as it is followed, cycles included; a link of any other
/// kind is only cleared. It takes linear time, and neither memory nor a stack.
#[tactic(auto, using(crate::proofs::Tested::finished_near, crate::proofs::Tested::finished_far, crate::proofs::Tested::tested_shut))]
pub fn finish_offsets(positions: &mut [GlyphPosition], direction: Direction)
    ensures { positions.new ≡ finished_positions direction positions.old }
{
    if test_kinds(positions) {
        finish_by_sums(positions, direction);
    } else {
        follow_all(positions, direction, false);
    }
}
