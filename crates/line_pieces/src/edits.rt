//! What of a paragraph has to be drawn again after an edit of its text.
ghost use Rattle.std.specs.Prelude.{ℕ, ◌≡◌, ◌≤◌, ◌<◌, ◌+◌, ◌&&◌, ◌↔◌, IfSome, IsSome, IsTrue, pos, true, length};
ghost use Rattle.kuspveli.specs.shaping_buffer.buffer_core.Sides.{all_glyphs};
ghost use Rattle.line_pieces.specs.Edits.{IsEdit, IsEditRange, IsFirstAfter, IsLastBefore, MayBeCompared};
ghost use Rattle.line_pieces.specs.Edits.{are_safe_at};
ghost use Rattle.line_pieces.specs.EditsInHand.{AreCompared, AreCuts, byte_if_safe};
ghost use Rattle.line_pieces.specs.Lines.{IsInLine};

use crate::cuts::{Cut, cut_at, first_cut};
use crate::steps::step_at;
use crate::tests_of_order::are_in_order;
use kuspveli::{Direction, GlyphBuffer};

/// An edit of a text: some of its bytes became others.
#[derive(Clone, Copy, PartialEq, Eq, Debug)]
pub struct Edit {
    /// The index of the first byte that was replaced, or before which others were inserted.
    pub start: usize,
    /// The index after the last byte that was replaced.
    pub old_end: usize,
    /// The index after the last of the bytes in their place.
    pub new_end: usize,
    /// How many bytes of the text follow, the same before the edit and after it.
    pub rest: usize,
}

/// The bytes of a text before and after an edit outside of which the glyphs are the same.
#[derive(Clone, Copy, PartialEq, Eq, Debug)]
pub struct EditRange {
    /// The index of their first byte in both texts.
    pub from: usize,
    /// The index after their last one in the old text.
    pub old_to: usize,
    /// The index after their last one in the new text.
    pub new_to: usize,
}

/// The text up to a byte before an edit, and up to one after it.
#[derive(Clone, Copy)]
pub struct Cuts {
    pub before: Cut,
    pub after: Cut,
}

/// What an edit of a text changes, from the results that shaping the text along a direction gave before the edit and after it,
/// where safe breaks were requested: `from` is the last byte up to the edit at which a break is safe in both texts, `old_to`
/// and `new_to` are the first such byte after it. None where the edit isn't one of a text, a result has 2^31 glyphs or more,
/// or clusters aren't in order.
pub fn edit_range(
    before: &GlyphBuffer,
    after: &GlyphBuffer,
    direction: Direction,
    edit: Edit,
) -> Option<EditRange>
    ensures range { IfSome result (IsEditRange direction before.now after.now edit) }
    ensures some { IsSome result ↔ MayBeCompared direction before.now after.now edit }
{
    if !is_edit(edit) {
        return None;
    }
    if !is_in_line(before, direction) {
        return None;
    }
    if !is_in_line(after, direction) {
        return None;
    }
    let count = bytes_after(before, after, direction, edit);
    Some(EditRange {
        from: last_before(before, after, direction, edit),
        old_to: edit.old_end + count,
        new_to: edit.new_end + count,
    })
}

/// Whether the bytes of an edit are in order, and both texts have an end.
fn is_edit(edit: Edit) -> bool
    ensures { IsTrue result ↔ IsEdit edit }
{
    if edit.old_end < edit.start {
        return false;
    }
    if edit.new_end < edit.start {
        return false;
    }
    if usize::MAX - edit.old_end < edit.rest {
        return false;
    }
    edit.rest <= usize::MAX - edit.new_end
}

/// Whether there are fewer than 2^31 glyphs, whose clusters are in order along a direction.
fn is_in_line(glyphs: &GlyphBuffer, direction: Direction) -> bool
    ensures line { IsTrue result ↔ IsInLine direction glyphs.now }
    ensures placed { length glyphs.now.positions ≡ length (all_glyphs glyphs.now) }
{
    // as many as there are glyphs
    if glyphs.glyph_positions().len() > i32::MAX as usize {
        return false;
    }
    are_in_order(glyphs.glyph_infos(), direction.is_backward())
}

/// The last byte up to the edit at which a break is safe in both texts.
fn last_before(before: &GlyphBuffer, after: &GlyphBuffer, direction: Direction, edit: Edit) -> usize
    requires compared { AreCompared direction before.now after.now edit }
    ensures { IsLastBefore direction before.now after.now edit result }
{
    let start = cuts_at(
        before,
        after,
        direction,
        edit,
        first_cuts(),
        edit.start,
        edit.start,
    );
    byte_if_safe(
        start,
        edit.start,
        last_inside(before, after, direction, edit),
    )
}

/// The last byte before that of the edit at which a break is safe in both texts, 0 if there is none.
fn last_inside(before: &GlyphBuffer, after: &GlyphBuffer, direction: Direction, edit: Edit) -> usize
    requires compared { AreCompared direction before.now after.now edit }
    ensures before { result ≤ edit.start }
    ensures safe { are_safe_at direction before.now after.now edit result result ≡ true }
    ensures last { (byte : ℕ) → byte < edit.start → are_safe_at direction before.now after.now edit byte byte ≡ true → byte ≤ result }
{
    let mut last = first_cuts();
    let mut from = 0;
    for i in 0..before.len() {
        let step = step_at(before, direction, i);
        let byte = step.cluster;
        if edit.start <= byte {
            return from;
        }
        let next = cuts_at(before, after, direction, edit, last, byte, byte);
        from = byte_if_safe(next, byte, from);
        last = next;
    }
    from
}

/// How many bytes after the edit are the first ones after which a break is safe in both texts.
fn bytes_after(before: &GlyphBuffer, after: &GlyphBuffer, direction: Direction, edit: Edit) -> usize
    requires compared { AreCompared direction before.now after.now edit }
    ensures { IsFirstAfter direction before.now after.now edit result }
{
    let first = first_cuts();
    let end = cuts_at(
        before,
        after,
        direction,
        edit,
        first,
        edit.old_end,
        edit.new_end,
    );
    if are_safe(end) {
        return 0;
    }
    let mut last = end;
    for i in end.before.glyphs..before.len() {
        let step = step_at(before, direction, i);
        let count = step.cluster - edit.old_end;
        if edit.rest <= count {
            return edit.rest;
        }
        let next = cuts_at(
            before,
            after,
            direction,
            edit,
            last,
            edit.old_end + count,
            edit.new_end + count,
        );
        if are_safe(next) {
            return count;
        }
        last = next;
    }
    edit.rest
}

/// The cuts before both texts.
fn first_cuts() -> Cuts
    ensures { result ≡ record {
      before = record { byte = 0; glyphs = 0; pen = pos 0; is_safe = true };
      after = record { byte = 0; glyphs = 0; pen = pos 0; is_safe = true };
    } }
{
    Cuts {
        before: first_cut(),
        after: first_cut(),
    }
}

/// The cuts at two bytes no earlier than those of others.
fn cuts_at(
    before: &GlyphBuffer,
    after: &GlyphBuffer,
    direction: Direction,
    edit: Edit,
    last: Cuts,
    old_byte: usize,
    new_byte: usize,
) -> Cuts
    requires compared { AreCompared direction before.now after.now edit }
    requires last { AreCuts direction before.now after.now edit last }
    requires old_after { last.before.byte ≤ old_byte }
    requires new_after { last.after.byte ≤ new_byte }
    ensures cuts { AreCuts direction before.now after.now edit result }
    ensures old_byte { result.before.byte ≡ old_byte }
    ensures new_byte { result.after.byte ≡ new_byte }
{
    // a run of one cluster is walked once
    if last.before.byte == old_byte && last.after.byte == new_byte {
        return last;
    }
    Cuts {
        before: cut_at(
            before,
            direction,
            edit.old_end + edit.rest,
            last.before,
            old_byte,
        ),
        after: cut_at(
            after,
            direction,
            edit.new_end + edit.rest,
            last.after,
            new_byte,
        ),
    }
}

/// Whether breaks at both cuts are safe.
fn are_safe(cuts: Cuts) -> bool
    ensures { result ≡ (cuts.before.is_safe && cuts.after.is_safe) }
{
    cuts.before.is_safe && cuts.after.is_safe
}

/// A byte, if breaks at both cuts are safe, else another one.
fn byte_if_safe(cuts: Cuts, byte: usize, other: usize) -> usize
    ensures { result ≡ byte_if_safe cuts byte other }
{
    if are_safe(cuts) { byte } else { other }
}
