//! Chains of cursive attachment, on a list of positions (rustybuzz: `reverse_cursive_minor_offset`).
ghost use Rattle.std.specs.Prelude.{◌≡◌, ◌<◌, true, length};
ghost use Rattle.buffer_common.specs.Direction.{is_forward, is_horizontal};
ghost use Rattle.layout_offsets.specs.Links.{is_near, parent, without_link};
ghost use Rattle.layout_offsets.specs.Cursive.{with_cursive_attached, first_ends, with_parent_freed, freed_position, child_position, joined_advances, with_child_attached, negative, old_parent, position_from_anchor, chain_turned, with_link_reversed, chain_reversed_from, most_links, turned_link};

use crate::links::{is_near, link_to, linked};
use crate::sums::{minus, plus};
use buffer_common::direction::Direction;
use buffer_glyphs::position::GlyphPosition;
use buffer_glyphs::position::attach_type::CURSIVE;
use layout_tables::value::Anchor;

/// The glyph that a glyph is attached to.
fn parent(positions: &[GlyphPosition], at: usize) -> Option<usize>
    requires here { at < length positions.now }
    ensures { result ≡ parent at positions.now }
{
    linked(positions.len(), at, positions[at].attach_chain)
}

/// The glyph that a cursive child is attached to, but none at the new parent.
fn old_parent(positions: &[GlyphPosition], stop: usize, at: usize) -> Option<usize>
    requires here { at < length positions.now }
    ensures { result ≡ old_parent stop at positions.now }
{
    if positions[at].attach_type != CURSIVE {
        return None;
    }
    let there = parent(positions, at)?;
    if there == stop { None } else { Some(there) }
}

fn negative(a: i32) -> i32
    ensures { result ≡ negative a }
{
    minus(0, a)
}

fn turned_link(link: i16) -> i16
    ensures { result ≡ turned_link link }
{
    link.wrapping_neg()
}

fn with_link_reversed(across: bool, child: GlyphPosition, position: GlyphPosition) -> GlyphPosition
    ensures { result ≡ with_link_reversed across child position }
{
    let mut there = position;
    if across {
        there.y_offset = negative(child.y_offset);
    } else {
        there.x_offset = negative(child.x_offset);
    }
    there.attach_chain = turned_link(child.attach_chain);
    there.attach_type = child.attach_type;
    there
}

fn without_link(position: GlyphPosition) -> GlyphPosition
    ensures { result ≡ without_link position }
{
    let mut free = position;
    free.attach_chain = 0;
    free
}

/// Sets a glyph's position, and reverses the chain from it on. It ends where no link is left: it comes to each glyph at
/// most twice, once on the way and, where old links form a ring, once on the way back.
#[tactic(auto, using(crate::proofs::Lemmas::Turned::turned_none, crate::proofs::Lemmas::Turned::turned_stops, crate::proofs::Lemmas::Turned::turned_goes, crate::proofs::Lemmas::Turned::old_parent_within))]
fn turn_from(
    positions: &mut [GlyphPosition],
    stop: usize,
    start: usize,
    first: GlyphPosition,
    direction: Direction,
)
    requires here { start < length positions.old }
    ensures { positions.new ≡ chain_reversed_from direction stop most_links start first positions.old }
{
    let mut new = first;
    let mut at = start;
    for _done in 0..u32::MAX {
        let old = positions[at];
        let next = old_parent(positions, stop, at);
        positions[at] = new;
        let Some(there) = next else {
            return;
        };
        new = with_link_reversed(direction.is_horizontal(), old, positions[there]);
        at = there;
    }
}

/// Reverses the chain of a cursive child, which then is its root.
pub fn turn(positions: &mut [GlyphPosition], stop: usize, start: usize, direction: Direction)
    requires here { start < length positions.old }
    ensures { positions.new ≡ chain_turned direction stop start positions.old }
{
    let first = positions[start];
    if first.attach_type == CURSIVE {
        turn_from(positions, stop, start, without_link(first), direction);
    }
}

fn child_position(across: bool, x: i32, y: i32, link: i16, position: GlyphPosition) -> GlyphPosition
    ensures { result ≡ child_position across x y link position }
{
    let mut there = position;
    if across {
        there.y_offset = y;
    } else {
        there.x_offset = x;
    }
    there.attach_chain = link;
    there.attach_type = CURSIVE;
    there
}

fn freed_position(across: bool, position: GlyphPosition) -> GlyphPosition
    ensures { result ≡ freed_position across position }
{
    let mut there = position;
    if across {
        there.y_offset = 0;
    } else {
        there.x_offset = 0;
    }
    there.attach_chain = 0;
    there
}

fn join_at(
    positions: &mut [GlyphPosition],
    child: usize,
    to: usize,
    x: i32,
    y: i32,
    direction: Direction,
)
    requires child { child < length positions.old }
    requires near { is_near child to ≡ true }
    ensures { positions.new ≡ with_child_attached direction child to x y positions.old }
{
    let link = link_to(child, to);
    let position = positions[child];
    positions[child] = child_position(direction.is_horizontal(), x, y, link, position);
}

/// Unlinks a parent that was attached to its child.
fn free(positions: &mut [GlyphPosition], child: usize, to: usize, direction: Direction)
    requires to { to < length positions.old }
    ensures { positions.new ≡ with_parent_freed direction child to positions.old }
{
    let Some(there) = parent(positions, to) else {
        return;
    };
    if there == child {
        let position = positions[to];
        positions[to] = freed_position(direction.is_horizontal(), position);
    }
}

/// Attaches a cursive child to its parent at an offset across the line, once its old chain is reversed. A parent that
/// was attached to the child is unlinked. Where the parent is more than 32,767 glyphs away nothing changes.
pub fn attach_child(
    positions: &mut [GlyphPosition],
    child: usize,
    to: usize,
    x: i32,
    y: i32,
    direction: Direction,
)
    requires child { child < length positions.old }
    requires to { to < length positions.old }
    ensures { positions.new ≡ with_cursive_attached direction child to x y positions.old }
{
    if !is_near(child, to) {
        return;
    }
    turn(positions, to, child, direction);
    join_at(positions, child, to, x, y, direction);
    free(positions, child, to, direction);
}

fn first_ends(across: bool, exit: Anchor, position: GlyphPosition) -> GlyphPosition
    ensures { result ≡ first_ends across exit position }
{
    let mut there = position;
    if across {
        there.x_advance = plus(i32::from(exit.x), position.x_offset);
    } else {
        there.y_advance = plus(i32::from(exit.y), position.y_offset);
    }
    there
}

fn position_from_anchor(across: bool, anchor: Anchor, position: GlyphPosition) -> GlyphPosition
    ensures { result ≡ position_from_anchor across anchor position }
{
    let mut there = position;
    if across {
        let before = plus(i32::from(anchor.x), position.x_offset);
        there.x_advance = minus(position.x_advance, before);
        there.x_offset = minus(position.x_offset, before);
    } else {
        let before = plus(i32::from(anchor.y), position.y_offset);
        there.y_advance = minus(position.y_advance, before);
        there.y_offset = minus(position.y_offset, before);
    }
    there
}

/// Sets the advances of a join along the line: the first glyph ends at its exit and the second begins at its entry.
pub fn join_advances(
    positions: &mut [GlyphPosition],
    first: usize,
    exit: Anchor,
    second: usize,
    entry: Anchor,
    direction: Direction,
)
    requires first { first < length positions.old }
    requires second { second < length positions.old }
    ensures { positions.new ≡ joined_advances (is_forward direction) (is_horizontal direction) first exit second entry
        positions.old }
{
    let across = direction.is_horizontal();
    if direction.is_forward() {
        positions[first] = first_ends(across, exit, positions[first]);
        positions[second] = position_from_anchor(across, entry, positions[second]);
    } else {
        positions[first] = position_from_anchor(across, exit, positions[first]);
        positions[second] = first_ends(across, entry, positions[second]);
    }
}
