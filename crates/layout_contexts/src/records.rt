//! The lookup records of a rule that matched (rustybuzz: hb/ot_layout_gsubgpos.rs, `apply_lookup`).
ghost use Rattle.std.specs.Prelude.{◌≡◌, ◌≢◌, ◌≤◌, ◌<◌, ◌+◌, ◌^◌, [], ℕ, true, false, length, slice_get, Some, OnOk, IfErr};
ghost use Rattle.buffer_stages.specs.Actions.{whole};
ghost use Rattle.buffer_stages.specs.Buffers.{cut_of};
ghost use Rattle.buffer_stages.specs.Performing.{cut_with};
ghost use Rattle.layout_contexts.specs.Nested.{Walks, cut_after_match, has_budget, holds};
ghost use Rattle.layout_contexts.specs.Nesting.{Nests};
ghost use Rattle.layout_contexts.specs.MatchIndices.{AreRising};
ghost use Rattle.layout_contexts.specs.Records.{after_spending, RecordBegins, IsMoved, IsMoveRefusal, IsSpent};
ghost use Rattle.layout_contexts.specs.Shifts.{moved_end, indices_after_resize};

use crate::counts::glyph_count;
use crate::match_indices::settle_indices;
use buffer_core::buffer::hb_buffer_t;
use buffer_glyphs::cause::ShapeCause;
use layout_match::MatchPositions;
use layout_tables::context::SequenceLookupRecord;

/// How deep lookups may be nested in others (HarfBuzz: `HB_MAX_NESTING_LEVEL`).
pub const MAX_NESTING_LEVEL: u32 = 64;

/// Moves the cursor to an index.
#[tactic(auto, using(crate::proofs::Cuts::went_there, crate::proofs::Cuts::held_is, crate::proofs::Cuts::not_held, crate::proofs::Cuts::short_memory))]
fn move_cursor_to(index: usize, buffer: &mut hb_buffer_t) -> Result<(), ShapeCause>
    requires kept { buffer.old.has_refused ≡ false }
    requires there { index ≤ length (whole (cut_of buffer.old)) }
    ensures held { OnOk result (holds index (cut_of buffer.old) ≡ true) }
    ensures ok { OnOk result (IsMoved index buffer.old buffer.new) }
    ensures err { IfErr result (λ e. IsMoveRefusal index (cut_of buffer.old) e) }
    ensures memory { buffer.old.is_open ≡ false → IfErr result (λ e. e ≢ ShapeCause.OutOfMemory) }
{
    // A list without an output is within its limit, so that no move in it is refused for length.
    let _count = buffer.len();
    if !buffer.move_to(index)? {
        return Err(ShapeCause::TooLong);
    }
    Ok(())
}

/// Takes a step of the budget of nested lookups (`max_ops`), and answers whether one was left. Where none is, the buffer
/// stays unchanged.
#[tactic(auto, using(crate::proofs::Cuts::spent_left, crate::proofs::Cuts::spent_there))]
pub fn spend(buffer: &mut hb_buffer_t) -> bool
    ensures left { result ≡ has_budget (cut_of buffer.old) }
    ensures taken { result ≡ true → IsSpent buffer.old buffer.new }
    ensures spent { result ≡ true → buffer.new ≡ after_spending buffer.old }
    ensures none { result ≡ false → buffer.new ≡ buffer.old }
{
    let left = buffer.max_ops();
    if left <= 0 {
        return false;
    }
    buffer.set_max_ops(left - 1);
    true
}

fn index_at(indices: &MatchPositions, i: usize) -> Option<usize>
    ensures { result ≡ slice_get indices.now.items i }
{
    indices.as_slice().get(i).copied()
}

/// Begins a record of a rule that matched at these indices: where its index is among them and in the list, and a step
/// is left, it takes the step, moves the cursor to that index and answers it. The record's lookup is then to be applied
/// there. Else it does nothing. It refuses for want of memory, or where a side of the buffer would have more glyphs
/// than it may.
pub fn begin_record(
    lookup_record: &SequenceLookupRecord,
    indices: &MatchPositions,
    buffer: &mut hb_buffer_t,
) -> Result<Option<usize>, ShapeCause>
    requires kept { buffer.old.has_refused ≡ false }
    ensures begins { RecordBegins lookup_record.now indices.now.items result buffer.old buffer.new }
    ensures memory { buffer.old.is_open ≡ false → IfErr result (λ e. e ≢ ShapeCause.OutOfMemory) }
{
    let Some(index) = index_at(indices, usize::from(lookup_record.sequence_index)) else {
        return Ok(None);
    };
    if glyph_count(buffer) <= index {
        return Ok(None);
    }
    if !spend(buffer) {
        return Ok(None);
    }
    if let Err(cause) = move_cursor_to(index, buffer) {
        return Err(cause);
    }
    Ok(Some(index))
}

/// Updates the indices of a match, and answers its end, once a record's lookup acted at its index on a list of `before`
/// glyphs, which may have become longer or shorter.
#[tactic(auto, using(crate::proofs::Settled::in_places, crate::proofs::Settled::room_to_settle))]
pub fn settle_match(
    lookup_record: &SequenceLookupRecord,
    index: usize,
    before: usize,
    end: usize,
    indices: &mut MatchPositions,
    buffer: &hb_buffer_t,
) -> usize
    requires there { slice_get indices.old.items lookup_record.now.sequence_index ≡ Some index }
    requires rising { AreRising 0 (before + 1) indices.old.items }
    requires ends { end ≤ before }
    requires small { before < 2 ^ 60 }
    ensures indices { indices.new.items
        ≡ indices_after_resize lookup_record.now.sequence_index before (length (whole (cut_of buffer.now))) indices.old.items }
    ensures end { result ≡ moved_end index before (length (whole (cut_of buffer.now))) end }
{
    let after = glyph_count(buffer);
    settle_indices(
        indices,
        usize::from(lookup_record.sequence_index),
        before,
        after,
    );
    index.max((end + after).saturating_sub(before))
}

/// Moves the cursor to the end of the match, or to the end of the list where that is before it.
pub fn move_to_match_end(end: usize, buffer: &mut hb_buffer_t) -> Result<bool, ShapeCause>
    requires kept { buffer.old.has_refused ≡ false }
    ensures nests { (random : ℕ) → Nests (cut_after_match (Walks (cut_with random buffer.old) [] end
        [])) result random random buffer.old buffer.new }
    ensures memory { buffer.old.is_open ≡ false → IfErr result (λ e. e ≢ ShapeCause.OutOfMemory) }
{
    let index = end.min(glyph_count(buffer));
    if let Err(cause) = move_cursor_to(index, buffer) {
        return Err(cause);
    }
    Ok(true)
}
