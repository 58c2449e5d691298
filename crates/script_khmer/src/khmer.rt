//! Khmer: decomposes split vowels, and moves coeng forms and left matras to the start of their syllable
//! (rustybuzz: hb/ot_shaper_khmer.rs).
//!
//! The steps for coeng forms and for left matras have clauses of one form, each by its own definition.
ghost use Rattle.std.specs.Prelude.{◌≡◌, ◌≤◌, ◌<◌, ◌+◌, ◌-◌, length, nat_le, slice_range, true, OnOk};
ghost use Rattle.buffer_glyphs.specs.Items.{item_of};
ghost use Rattle.buffer_core.specs.Readings.{always};
ghost use Rattle.buffer_core.specs.Sides.{all_glyphs, items_of};
ghost use Rattle.buffer_stages.specs.Ready.{IsReady};
ghost use Rattle.buffer_stages.specs.Stages.{IsFollowed};
ghost use Rattle.buffer_stages.specs.Rewriting.{by_syllable};
ghost use Rattle.buffer_stages.specs.SyllableBuffers.{IsRewritten, with_rule};
ghost use Rattle.script_khmer.specs.Khmer.{coeng_step, coeng_moved, khmer_at, khmer_reordered, khmer_split, khmer_syllable, khmer_walk, vowel_step};
ghost use Rattle.script_khmer.specs.Runs.{IsRun, IsWalked, OpensForms};

use crate::runs::{move_forms, move_run, opens_forms, run_length};
use buffer_core::buffer::hb_buffer_t;
use buffer_glyphs::info::{hb_glyph_info_t, hb_mask_t};
use buffer_stages::parts::{add_mask, first_to_back};
use buffer_stages::walk::{SyllableRule, each_syllable};
use buffer_unicode_tables::UnicodeTables;
use script_categories::hb_ot_script_shaper_t::KHMER_SHAPER;
use script_categories::ot_category_t::{OT_H, OT_Ra, OT_VPre};
use script_categories::syllable_kinds::SYLLABLE_KIND;
use script_syllabic::syllable_glyphs::glyph_in;
use std::alloc::AllocError;

/// The masks of the features of a syllable's glyphs.
#[derive(Clone, Copy)]
pub struct KhmerMasks {
    /// The mask of a coeng and the Ro after it.
    pub pref: hb_mask_t,
    /// The mask of all glyphs after the first: blwf, abvf and pstf together.
    pub post_base: hb_mask_t,
    /// The mask of the glyphs after a coeng form.
    pub cfar: hb_mask_t,
}

/// The decomposition of a character (`decompose`): a vowel with a left half becomes U+17C1 and itself, as fonts for
/// Khmer have it; U+17C1 does not decompose; all others decompose as in Unicode.
pub fn decompose(tables: &UnicodeTables, ab: char) -> Option<(char, char)>
    ensures { result ≡ khmer_split tables.now ab }
{
    match ab {
        '\u{17C1}' => None,
        '\u{17BE}' | '\u{17BF}' | '\u{17C0}' | '\u{17C4}' | '\u{17C5}' => Some(('\u{17C1}', ab)),
        _ => buffer_unicode_tables::decompose(tables, ab),
    }
}

/// Reorders each Khmer syllable of a kind that is reordered (`reorder_consonant_syllable`): all glyphs after the first
/// get the post-base mask; then each coeng with a Ro after it and each left matra, from the second glyph on, moves to
/// the syllable's start and merges with all glyphs that it passes. A coeng counts while at most two were counted; a
/// coeng with Ro sets the count to two.
pub fn reorder_khmer(masks: &KhmerMasks, buffer: &mut hb_buffer_t) -> Result<(), AllocError>
    requires ready { IsReady buffer.old }
    ensures { OnOk result
        (IsFollowed (always (with_rule (by_syllable (khmer_syllable masks.now)))) buffer.old buffer.new) }
{
    each_syllable(masks, buffer)
}

impl SyllableRule for KhmerMasks {
    ghost use Rattle.script_khmer.specs.Lemmas.KhmerSize.{khmer_keeps};

    ghost rewritten = { khmer_syllable };

    #[tactic(auto, using(script_syllabic::proofs::There::there))]
    fn rewrite(
        &self,
        buffer: &mut hb_buffer_t,
        start: usize,
        end: usize,
    ) -> Result<(), AllocError> {
        let Some(first) = glyph_in(buffer, start, end, 0) else {
            return Ok(());
        };
        if KHMER_SHAPER.is_reordered(first.syllable & SYLLABLE_KIND) {
            reorder_syllable(self, buffer, start, end);
        }
        Ok(())
    }

    ghost keeps_length = { khmer_keeps };
}

fn reorder_syllable(masks: &KhmerMasks, buffer: &mut hb_buffer_t, start: usize, end: usize)
    requires ready { IsReady buffer.old }
    requires some { start < end }
    requires within { end ≤ length (all_glyphs buffer.old) }
    ensures { IsRewritten (khmer_reordered masks.now (slice_range (items_of buffer.old) start end)) start end buffer.old
        buffer.new }
{
    add_mask(buffer, start + 1, end, masks.post_base);
    reorder_from_second(masks, buffer, start, end);
}

/// How far the walk of a syllable is.
#[derive(Clone, Copy)]
struct Walk {
    /// The index of the next glyph.
    index: usize,
    /// The number of coengs that were counted.
    count: u32,
}

#[tactic(auto, using(crate::proofs::KhmerWalk::none_walked))]
fn reorder_from_second(masks: &KhmerMasks, buffer: &mut hb_buffer_t, start: usize, end: usize)
    requires ready { IsReady buffer.old }
    requires ordered { start ≤ end }
    requires within { end ≤ length (all_glyphs buffer.old) }
    ensures { IsRewritten (khmer_walk masks.now (end - start - 1) 1 0 (slice_range (items_of buffer.old) start end))
        start
        end buffer.old buffer.new }
{
    let mut walk = Walk { index: 1, count: 0 };
    while walk.index < end - start {
        walk = reorder_from(masks, buffer, start, end, walk);
    }
}

/// Walks the glyphs from an index on: a whole run where there is one, else one glyph. Only a coeng of no form, or the
/// glyph that a form finds before it, ends a run, and a coeng of no form does so at most three times: a syllable with
/// left matras has few runs.
fn reorder_from(
    masks: &KhmerMasks,
    buffer: &mut hb_buffer_t,
    start: usize,
    end: usize,
    walk: Walk,
) -> Walk
    requires ready { IsReady buffer.old }
    requires some { 0 < walk.index }
    requires there { start + walk.index < end }
    requires within { end ≤ length (all_glyphs buffer.old) }
    ensures walked { IsWalked masks.now start end walk.index walk.count
        result.index result.count buffer.old buffer.new }
    ensures onward { walk.index < result.index }
{
    let from = start + walk.index;
    let forms = opens_forms(buffer, start, end, walk.index, walk.count);
    let run = run_length(&buffer.info_slice()[from..end], forms, walk.count <= 2);
    if run == 0 {
        return reorder_one(masks, buffer, start, end, walk);
    }
    reorder_run(masks, buffer, start, end, walk, run, forms)
}

fn reorder_one(
    masks: &KhmerMasks,
    buffer: &mut hb_buffer_t,
    start: usize,
    end: usize,
    walk: Walk,
) -> Walk
    requires ready { IsReady buffer.old }
    requires there { start + walk.index < end }
    requires within { end ≤ length (all_glyphs buffer.old) }
    ensures walked { IsWalked masks.now start end walk.index walk.count
        result.index result.count buffer.old buffer.new }
    ensures onward { result.index ≡ walk.index + 1 }
{
    let count = reorder_at(masks, buffer, start, end, walk.index, walk.count);
    Walk {
        index: walk.index + 1,
        count,
    }
}

/// Walks the run of glyphs that begins at an index.
fn reorder_run(
    masks: &KhmerMasks,
    buffer: &mut hb_buffer_t,
    start: usize,
    end: usize,
    walk: Walk,
    run: usize,
    forms: bool,
) -> Walk
    requires ready { IsReady buffer.old }
    requires some { 0 < walk.index }
    requires there { start + (walk.index + run) ≤ end }
    requires within { end ≤ length (all_glyphs buffer.old) }
    requires opens { forms ≡ true → OpensForms walk.count walk.index (slice_range (items_of buffer.old) start end) }
    requires run { IsRun forms (nat_le walk.count 2) (slice_range (items_of buffer.old) (start + walk.index)
        (start + (walk.index + run))) }
    requires long { 0 < run }
    ensures walked { IsWalked masks.now start end walk.index walk.count
        result.index result.count buffer.old buffer.new }
    ensures onward { result.index ≡ walk.index + run }
{
    let to = walk.index + run;
    if forms {
        move_forms(masks, buffer, start, end, walk.index, to);
        return Walk {
            index: to,
            count: 2,
        };
    }
    move_run(buffer, start, start + to, walk.index, false);
    Walk {
        index: to,
        count: walk.count,
    }
}

/// Handles the glyph at an index of a syllable, and returns the number of coengs counted so far.
fn reorder_at(
    masks: &KhmerMasks,
    buffer: &mut hb_buffer_t,
    start: usize,
    end: usize,
    index: usize,
    count: u32,
) -> u32
    requires ready { IsReady buffer.old }
    requires ordered { start ≤ end }
    requires within { end ≤ length (all_glyphs buffer.old) }
    ensures rewritten { IsRewritten
        (khmer_at masks.now index count (slice_range (items_of buffer.old) start end)).rewritten start end
        buffer.old buffer.new }
    ensures count { result ≡ (khmer_at masks.now index count (slice_range (items_of buffer.old) start end)).count }
{
    let Some(glyph) = glyph_in(buffer, start, end, index) else {
        return count;
    };
    let Some(next) = glyph_in(buffer, start, end, index + 1) else {
        return reorder_vowel(buffer, start, end, index, count, glyph);
    };
    if glyph.category == OT_H && count <= 2 {
        return reorder_coeng(masks, buffer, start, end, index, count, next);
    }
    reorder_vowel(buffer, start, end, index, count, glyph)
}

#[tactic(auto, using(crate::proofs::KhmerMoves::passed_does))]
fn reorder_coeng(
    masks: &KhmerMasks,
    buffer: &mut hb_buffer_t,
    start: usize,
    end: usize,
    index: usize,
    count: u32,
    next: hb_glyph_info_t,
) -> u32
    requires ready { IsReady buffer.old }
    requires there { start + (index + 2) ≤ end }
    requires within { end ≤ length (all_glyphs buffer.old) }
    requires few { count ≤ 2 }
    ensures rewritten { IsRewritten
        (coeng_step masks.now index count (slice_range (items_of buffer.old) start end) (item_of next)).rewritten start
        end buffer.old buffer.new }
    ensures count { result
        ≡ (coeng_step masks.now index count (slice_range (items_of buffer.old) start end) (item_of next)).count }
{
    if next.category != OT_Ra {
        return count + 1;
    }
    move_coeng(masks, buffer, start, end, index);
    2
}

fn move_coeng(masks: &KhmerMasks, buffer: &mut hb_buffer_t, start: usize, end: usize, index: usize)
    requires ready { IsReady buffer.old }
    requires there { start + (index + 2) ≤ end }
    requires within { end ≤ length (all_glyphs buffer.old) }
    ensures { IsRewritten (coeng_moved masks.now index (slice_range (items_of buffer.old) start end)) start end
        buffer.old buffer.new }
{
    add_mask(buffer, start + index, start + (index + 2), masks.pref);
    first_to_back(buffer, start, start + (index + 2), index);
    add_mask(buffer, start + (index + 2), end, masks.cfar);
}

#[tactic(auto, using(crate::proofs::KhmerMoves::passed_does))]
fn reorder_vowel(
    buffer: &mut hb_buffer_t,
    start: usize,
    end: usize,
    index: usize,
    count: u32,
    glyph: hb_glyph_info_t,
) -> u32
    requires ready { IsReady buffer.old }
    requires there { start + (index + 1) ≤ end }
    requires within { end ≤ length (all_glyphs buffer.old) }
    ensures rewritten { IsRewritten
        (vowel_step index count (slice_range (items_of buffer.old) start end) (item_of glyph)).rewritten start end
        buffer.old buffer.new }
    ensures count { result
        ≡ (vowel_step index count (slice_range (items_of buffer.old) start end) (item_of glyph)).count }
{
    if glyph.category != OT_VPre {
        return count;
    }
    first_to_back(buffer, start, start + (index + 1), index);
    count
}
