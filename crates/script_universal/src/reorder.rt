//! Moves a syllable's reph and its left vowels, reorder_syllable (rustybuzz: hb/ot_shaper_use.rs).
//!
//! A rule on syllables is a type with the trait `SyllableRule`; all its impls have this form.
ghost use Rattle.std.specs.Prelude.{◌≡◌, ◌≤◌, ◌<◌, ◌+◌, ◌-◌, length, nat_lt, not, ◌&&◌, slice_get, slice_range, false, true, OnOk, Some};
ghost use Rattle.std.specs.List.{prefix_len};
ghost use Rattle.buffer_glyphs.specs.Items.{item_of, strip};
ghost use Rattle.buffer_core.specs.Readings.{always};
ghost use Rattle.buffer_core.specs.Sides.{all_glyphs, items_of};
ghost use Rattle.buffer_stages.specs.Ready.{IsReady};
ghost use Rattle.buffer_stages.specs.Stages.{IsFollowed};
ghost use Rattle.buffer_stages.specs.Rewriting.{by_syllable};
ghost use Rattle.buffer_stages.specs.SyllableBuffers.{IsRewritten, with_rule};
ghost use Rattle.buffer_stages.specs.Moves.{reach};
ghost use Rattle.buffer_stages.specs.Fronts.{moves_to_front};
ghost use Rattle.buffer_stages.specs.Parts.{fronts_moved};
ghost use Rattle.script_universal.specs.Walked.{IsWalked, together};
ghost use Rattle.script_universal.specs.Reordering.{begins_with_reph, is_halant, is_left, left_walk, reph_end, reph_moved, stops_reph, universal_reordered, universal_syllable};

use crate::categories::{is_halant, is_left, stops_reph};
use buffer_core::buffer::hb_buffer_t;
use buffer_glyphs::info::hb_glyph_info_t;
use buffer_stages::fronts::FrontRule;
use buffer_stages::parts::first_to_back;
use buffer_stages::syllable_fronts::move_fronts;
use buffer_stages::walk::{SyllableRule, each_syllable};
use script_categories::category::R;
use script_categories::hb_ot_script_shaper_t::UNIVERSAL_SHAPER;
use script_categories::syllable_kinds::SYLLABLE_KIND;
use std::alloc::AllocError;

/// Reorders each syllable of a kind that is reordered (`reorder_syllable`): a reph at the start moves before the first
/// post-base glyph or unligated halant, else to the end; a left vowel moves after the last such halant before it, else
/// to the start. What moves merges with what it passes.
pub fn reorder_use(buffer: &mut hb_buffer_t) -> Result<(), AllocError>
    requires ready { IsReady buffer.old }
    ensures { OnOk result (IsFollowed (always (with_rule (by_syllable universal_syllable))) buffer.old buffer.new) }
{
    each_syllable(&UniversalOrder, buffer)
}

#[derive(Clone, Copy)]
struct UniversalOrder;

impl SyllableRule for UniversalOrder {
    ghost use Rattle.script_universal.specs.Reordering.{universal_syllable};
    ghost use Rattle.script_universal.specs.Lemmas.Sizes.{universal_keeps};

    ghost rewritten = { λ _. universal_syllable };

    fn rewrite(
        &self,
        buffer: &mut hb_buffer_t,
        start: usize,
        end: usize,
    ) -> Result<(), AllocError> {
        let first = glyph_at(buffer, start, end, 0);
        if !UNIVERSAL_SHAPER.is_reordered(first.syllable & SYLLABLE_KIND) {
            return Ok(());
        }
        reorder_syllable(buffer, start, end);
        Ok(())
    }

    ghost keeps_length = { λ _. universal_keeps };
}

/// The i-th of the glyphs `start..end`.
fn glyph_at(buffer: &hb_buffer_t, start: usize, end: usize, i: usize) -> hb_glyph_info_t
    requires ready { IsReady buffer.now }
    requires there { start + i < end }
    requires within { end ≤ length (all_glyphs buffer.now) }
    ensures { slice_get (slice_range (items_of buffer.now) start end) i ≡ Some (item_of result) }
{
    buffer.info_slice()[start + i]
}

#[tactic(auto, using(crate::proofs::Steps::reph_count))]
fn reorder_syllable(buffer: &mut hb_buffer_t, start: usize, end: usize)
    requires ready { IsReady buffer.old }
    requires ordered { start ≤ end }
    requires within { end ≤ length (all_glyphs buffer.old) }
    ensures { IsRewritten (universal_reordered (slice_range (items_of buffer.old) start end)) start end buffer.old
        buffer.new }
{
    move_reph(buffer, start, end);
    move_left(buffer, start, end);
}

fn move_reph(buffer: &mut hb_buffer_t, start: usize, end: usize)
    requires ready { IsReady buffer.old }
    requires ordered { start ≤ end }
    requires within { end ≤ length (all_glyphs buffer.old) }
    ensures { IsRewritten (reph_moved (slice_range (items_of buffer.old) start end)) start end buffer.old buffer.new }
{
    let count = reph_end(&buffer.info_slice()[start..end]);
    if count == 0 {
        return;
    }
    first_to_back(buffer, start, start + count, 1);
}

/// The number of glyphs from a reph at the start up to its new index, itself included; 0 where there is no reph.
fn reph_end(glyphs: &[hb_glyph_info_t]) -> usize
    ensures none { result ≡ 0 → begins_with_reph (strip glyphs.now) ≡ false }
    ensures some { 0 < result → begins_with_reph (strip glyphs.now) ≡ true }
    ensures count { 0 < result → result ≡ reph_end (strip glyphs.now) }
    ensures within { result ≤ length glyphs.now }
{
    if glyphs.len() < 2 {
        return 0;
    }
    if glyphs[0].category != R {
        return 0;
    }
    1 + passed_by_reph(&glyphs[1..])
}

/// The number of glyphs at the start that don't stop a reph.
#[tactic(auto, using(crate::proofs::Steps::passed_next, crate::proofs::Steps::passed_last, crate::proofs::Steps::all_passed))]
fn passed_by_reph(glyphs: &[hb_glyph_info_t]) -> usize
    ensures count { result ≡ prefix_len (λ y. not (stops_reph y)) (strip glyphs.now) }
    ensures within { result ≤ length glyphs.now }
{
    for (i, glyph) in glyphs.iter().enumerate() {
        if stops_reph(glyph) {
            return i;
        }
    }
    glyphs.len()
}

/// Moves each left vowel after the last halant before it, else to the start.
#[tactic(auto, using(crate::proofs::LeftRanges::none_walked))]
fn move_left(buffer: &mut hb_buffer_t, start: usize, end: usize)
    requires ready { IsReady buffer.old }
    requires ordered { start ≤ end }
    requires within { end ≤ length (all_glyphs buffer.old) }
    ensures { IsRewritten (left_walk (end - start) 0 0 (slice_range (items_of buffer.old) start end)) start end
        buffer.old
        buffer.new }
{
    let mut i = 0;
    while i < end - start {
        i = move_left_from(buffer, start, end, i);
    }
}

/// Moves the left vowels from an index up to the next halant; returns the index after that, or the end.
fn move_left_from(buffer: &mut hb_buffer_t, start: usize, end: usize, i: usize) -> usize
    requires ready { IsReady buffer.old }
    requires there { start + i < end }
    requires within { end ≤ length (all_glyphs buffer.old) }
    ensures walked { IsWalked start end i result buffer.old buffer.new }
    ensures onward { i < result }
    ensures inside { result ≤ end - start }
{
    let from = start + i;
    let count = before_halant(&buffer.info_slice()[from..end]);
    move_range(buffer, from, from + count);
    if from + count == end {
        return end - start;
    }
    i + count + 1
}

/// The number of glyphs at the start that are no halants.
#[tactic(auto, using(crate::proofs::Steps::halant_next, crate::proofs::Steps::halant_last, crate::proofs::Steps::no_halant))]
fn before_halant(glyphs: &[hb_glyph_info_t]) -> usize
    ensures count { result ≡ prefix_len (λ y. not (is_halant y)) (strip glyphs.now) }
    ensures within { result ≤ length glyphs.now }
{
    for (i, glyph) in glyphs.iter().enumerate() {
        if is_halant(glyph) {
            return i;
        }
    }
    glyphs.len()
}

/// Moves the left vowels of a range without halants to its start, and merges each with what it passes.
fn move_range(buffer: &mut hb_buffer_t, start: usize, end: usize)
    requires ready { IsReady buffer.old }
    requires ordered { start ≤ end }
    requires within { end ≤ length (all_glyphs buffer.old) }
    ensures { IsRewritten (fronts_moved together is_left 0 (slice_range (items_of buffer.old) start end)) start end
        buffer.old
        buffer.new }
{
    let merged = end_of_left(&buffer.info_slice()[start..end]);
    if merged < 2 {
        return;
    }
    move_fronts(&LeftVowels, buffer, start, end, 0, merged);
}

/// The number of glyphs up to the last left vowel that moves, or 1.
#[tactic(auto, using(crate::proofs::LeftRanges::left_next, crate::proofs::LeftRanges::other_next, crate::proofs::LeftRanges::left_all, crate::proofs::LeftRanges::left_fits))]
fn end_of_left(glyphs: &[hb_glyph_info_t]) -> usize
    ensures reach { result ≡ reach 1 (moves_to_front together is_left 0 (strip glyphs.now)) }
    ensures within { 1 < result → result ≤ length glyphs.now }
{
    let mut end = 1;
    for (i, glyph) in glyphs.iter().enumerate() {
        if moves(glyph, i) {
            end = i + 1;
        }
    }
    end
}

/// Whether the glyph at an index of the range moves: the first one stays.
fn moves(glyph: &hb_glyph_info_t, i: usize) -> bool
    ensures { result ≡ (is_left (item_of glyph.now) && nat_lt 0 i) }
{
    is_left(glyph) && 0 < i
}

/// Moves left vowels to the front one by one.
struct LeftVowels;

impl FrontRule for LeftVowels {
    ghost use Rattle.script_universal.specs.Reordering.{is_left};
    ghost use Rattle.script_universal.specs.Walked.{together, never_together};

    ghost pairs = { λ _. together };

    ghost ones = { λ _. is_left };

    fn comes_with(&self, _glyph: &hb_glyph_info_t, _next: &hb_glyph_info_t) -> bool {
        false
    }

    fn comes(&self, glyph: &hb_glyph_info_t) -> bool {
        is_left(glyph)
    }

    ghost apart = { λ _. never_together };
}
