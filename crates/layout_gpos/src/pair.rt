//! Pair adjustment (OpenType, GPOS lookup type 2; rustybuzz: hb/ot_layout_gpos_table.rs, `PairAdjustment`).
ghost use Rattle.std.specs.Prelude.{ℕ, ◌≡◌, ◌<◌, ◌≤◌, ◌+◌, ◌==◌, IfErr, IfOk, None, Some, [], false, if◌then◌else◌, length};
ghost use Rattle.std.specs.List.{list_any};
ghost use Rattle.buffer_stages.specs.Actions.{Passes};
ghost use Rattle.buffer_stages.specs.Ready.{IsAtGlyphPosition, IsAtPosition};
ghost use Rattle.layout_tables.specs.Pairs.{glyph_pair_values};
ghost use Rattle.buffer_glyphs.specs.Items.{strip};
ghost use Rattle.layout_match.specs.Applied.{apply_context_of};
ghost use Rattle.buffer_stages.specs.Buffers.{IsPassed, cut_of};
ghost use Rattle.buffer_stages.specs.Performing.{IsPerformed, cut_with};
ghost use Rattle.layout_tables.specs.Covers.{covers_first_of_pair};
ghost use Rattle.layout_gpos.specs.Pairs.{has_no_effect, next_item, null_pair_events, pair_adjusted, pair_events, pair_has_no_effect, pair_length, pair_of, pair_second, pair_subtable, pair_values, takes_glyphs};

use crate::apply::Apply;
use crate::bases::LastSearches;
use crate::placing::{adjust_glyph, pass};
use crate::value::is_zero;
use buffer_core::buffer::hb_buffer_t;
use layout_match::marking::{mark_attempt, mark_match};
use layout_match::{hb_ot_apply_context_t, skipping_iterator_t};
use layout_tables::pair::{PairPos, PairValues};
use layout_tables::pair_rows::{PairRows, second_values};
use layout_tables::value::ValueRecord;

/// Whether there are pairs of a first glyph.
fn has_first(pairs: &PairRows, first: u16) -> bool
    ensures { result ≡ list_any (λ r. r.first == first) pairs.now }
{
    !pairs.rows_of(first).is_empty()
}

/// Whether a glyph is the first one of pairs.
fn covers_first_of_pair(subtable: &PairPos, first: u16) -> bool
    ensures { result ≡ covers_first_of_pair subtable.now first }
{
    match subtable {
        PairPos::Glyphs(pairs) => has_first(&pairs.rows, first),
        PairPos::Classes(pairs) => pairs.coverage.contains(first),
    }
}

/// Whether a glyph may be the first one of pairs. Rows of glyphs are looked up later and once, with the second glyph.
fn may_begin(subtable: &PairPos, first: u16) -> bool
    ensures { result ≡ false → covers_first_of_pair subtable.now first ≡ false }
{
    match subtable {
        PairPos::Glyphs(_) => true,
        PairPos::Classes(pairs) => pairs.coverage.contains(first),
    }
}

/// The adjustments of two glyphs, none where no pair begins with the first.
fn sought_glyphs(pairs: &PairRows, first: u16, second: u16) -> Option<Option<PairValues>>
    ensures { result ≡ (if list_any (λ r. r.first == first) pairs.now then Some (glyph_pair_values first second pairs.now)
        else None) }
{
    let rows = pairs.rows_of(first);
    if rows.is_empty() {
        return None;
    }
    Some(second_values(rows, second))
}

/// The adjustments of two glyphs, none where the first begins no pairs.
fn sought_pair(subtable: &PairPos, first: u16, second: u16) -> Option<Option<PairValues>>
    ensures { result ≡ (if covers_first_of_pair subtable.now first then Some (pair_values subtable.now first second)
        else None) }
{
    match subtable {
        PairPos::Glyphs(pairs) => sought_glyphs(&pairs.rows, first, second),
        PairPos::Classes(pairs) => {
            if pairs.coverage.contains(first) {
                Some(pairs.values(first, second))
            } else {
                None
            }
        }
    }
}

/// The nearest glyph after the one at the cursor that the lookup doesn't skip, counted from the cursor; else how far
/// the search read.
#[tactic(auto, using(crate::proofs::Lemmas::Read::read_inside, crate::proofs::Lemmas::Read::found_ahead))]
pub fn next_glyph(ctx: &hb_ot_apply_context_t, buffer: &hb_buffer_t) -> Result<usize, usize>
    requires { 0 < length buffer.now.ahead }
    ensures found { result ≡ next_item (apply_context_of ctx.now) (strip buffer.now.ahead) }
    ensures inside { IfOk result (λ at. (0 < at) × (at < length buffer.now.ahead)) }
    ensures read { IfErr result (λ end. end ≤ length buffer.now.ahead) }
{
    let mut iter = skipping_iterator_t::new(ctx, buffer, 1, false);
    iter.next(buffer)
}

fn has_no_effect(value: Option<ValueRecord>) -> bool
    ensures { result ≡ has_no_effect value }
{
    match value {
        None => true,
        Some(value) => is_zero(value),
    }
}

fn pair_has_no_effect(values: PairValues) -> bool
    ensures { result ≡ pair_has_no_effect values }
{
    is_zero(values.first) && has_no_effect(values.second)
}

/// The length of a pair whose second glyph is so far after the first: it includes the second glyph where that has a
/// record.
fn pair_length(apart: usize, value: Option<ValueRecord>) -> usize
    requires { apart < 0xFFFF_FFFF_FFFF_FFFF }
    ensures { result ≡ pair_length apart value }
{
    match value {
        None => apart,
        Some(_) => apart + 1,
    }
}

/// Whether a null pair takes its glyphs from other pairs: a glyph was skipped between the two, or the second one has a
/// record.
fn takes_glyphs(apart: usize, second: Option<ValueRecord>) -> bool
    ensures { result ≡ takes_glyphs apart second }
{
    apart > 1 || second.is_some()
}

/// Flags a null pair as unsafe to break, where PRODUCE_SAFE_BREAKS is set and it takes its glyphs from other pairs.
#[tactic(auto, using(crate::proofs::Paired::null_pair_unmarked))]
fn mark_null_pair(second: Option<ValueRecord>, apart: usize, buffer: &mut hb_buffer_t)
    requires closed { buffer.old.is_open ≡ false }
    requires within { apart < length buffer.old.ahead }
    ensures { IsPassed (null_pair_events apart second (cut_of buffer.old)) buffer.old buffer.new }
{
    // The number of glyphs bounds `apart + 1`.
    let _end = buffer.len();
    if takes_glyphs(apart, second) {
        let first = buffer.idx();
        buffer.unsafe_to_break_strictly(Some(first), Some(first + apart + 1));
    }
}

/// Flags a pair as unsafe to break, unless it is null.
#[tactic(auto, using(crate::proofs::Paired::pair_marked, crate::proofs::Paired::null_pair_marked))]
fn mark_pair(values: PairValues, apart: usize, buffer: &mut hb_buffer_t)
    requires closed { buffer.old.is_open ≡ false }
    requires within { apart < length buffer.old.ahead }
    ensures { IsPassed (pair_events values apart (cut_of buffer.old)) buffer.old buffer.new }
{
    // The number of glyphs bounds `apart + 1`.
    let _end = buffer.len();
    if pair_has_no_effect(values) {
        mark_null_pair(values.second, apart, buffer);
    } else {
        mark_match(0, apart + 1, buffer);
    }
}

/// Applies the first value record, and the second one to the second glyph of the pair where there is one; no-op for a
/// null pair.
fn adjust_pair(buffer: &mut hb_buffer_t, first: usize, apart: usize, values: PairValues)
    requires closed { buffer.old.is_open ≡ false }
    requires second { first + apart < length buffer.old.positions }
    ensures { buffer.new ≡ record buffer.old {
      positions = pair_adjusted buffer.old.direction first (first + apart)
          values buffer.old.positions;
    } }
{
    if pair_has_no_effect(values) {
        return;
    }
    // The number of positions bounds `first + apart`.
    let _count = buffer.pos_slice().len();
    adjust_glyph(buffer, first, values.first);
    if let Some(value) = values.second {
        adjust_glyph(buffer, first + apart, value);
    }
}

/// Applies the values of a pair to two glyphs, where they are a pair.
#[tactic(auto, using(crate::proofs::Lemmas::Performed::attempt_performed, crate::proofs::Paired::pair_acted))]
fn apply_values(values: Option<PairValues>, apart: usize, buffer: &mut hb_buffer_t) -> bool
    requires at_position { IsAtPosition buffer.old }
    requires some { 0 < apart }
    requires there { apart < length buffer.old.ahead }
    ensures { (random : ℕ) → IsPerformed (pair_of buffer.old.direction apart values (cut_with random buffer.old)) result
        random random buffer.old buffer.new }
{
    // The number of glyphs bounds `apart + 1`.
    let _end = buffer.len();
    let Some(values) = values else {
        mark_attempt(0, apart + 1, buffer);
        return false;
    };
    mark_pair(values, apart, buffer);
    let first = buffer.out_len();
    adjust_pair(buffer, first, apart, values);
    pass(buffer, pair_length(apart, values.second));
    true
}

/// Pair adjustment (OpenType, GPOS lookup type 2).
pub struct PairAdjustment;

impl Apply for PairAdjustment {
    ghost use Rattle.layout_gpos.specs.Lemmas.Uncovered.{pair_uncovered};

    type Subtable = PairPos;

    ghost action = { λ s d a. pair_subtable d a s };

    #[tactic(auto, using(buffer_stages::proofs::Lemmas::Glyphs::number_ahead, crate::proofs::Paired::pair_begun, crate::proofs::Paired::pair_not_begun))]
    fn apply(
        subtable: &PairPos,
        ctx: &hb_ot_apply_context_t,
        _last: &mut LastSearches,
        buffer: &mut hb_buffer_t,
    ) -> bool {
        let first = buffer.cur(0).as_glyph().0;
        may_begin(subtable, first) && apply_from(subtable, first, ctx, buffer)
    }

    ghost uncovered = { λ s d a. pair_uncovered d a s };
}

/// Pair adjustment (OpenType, GPOS lookup type 2) of the glyph at the cursor, where it begins pairs, and the nearest one
/// after it.
#[tactic(auto, using(layout_match::proofs::Lemmas::Idle::number_ahead_at, crate::proofs::Lemmas::Read::found_ahead))]
fn apply_from(
    subtable: &PairPos,
    first: u16,
    ctx: &hb_ot_apply_context_t,
    buffer: &mut hb_buffer_t,
) -> bool
    requires at_glyph_position { IsAtGlyphPosition buffer.old }
    ensures { (random : ℕ) → IsPerformed (if covers_first_of_pair subtable.now first
        then pair_second buffer.old.direction (λ y. pair_values subtable.now first y.number)
        (next_item (apply_context_of ctx.now) (strip buffer.old.ahead)) (cut_with random buffer.old)
        else Passes []) result random random buffer.old buffer.new }
{
    match next_glyph(ctx, buffer) {
        Ok(apart) => {
            let second = buffer.cur(apart).as_glyph().0;
            match sought_pair(subtable, first, second) {
                Some(values) => apply_values(values, apart, buffer),
                None => false,
            }
        }
        Err(end) => {
            if covers_first_of_pair(subtable, first) {
                mark_attempt(0, end, buffer);
            }
            false
        }
    }
}
