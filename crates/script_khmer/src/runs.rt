//! Runs of glyphs of a Khmer syllable that are handled at once: coeng forms with Ro, and left matras.
ghost use Rattle.std.specs.Prelude.{◌≡◌, ◌≤◌, ◌<◌, ◌+◌, ◌++◌, true, false, drop, length, slice_get, slice_range, take, Some};
ghost use Rattle.buffer_glyphs.specs.Items.{item_of, strip};
ghost use Rattle.buffer_core.specs.Sides.{all_glyphs, items_of};
ghost use Rattle.buffer_stages.specs.Ready.{IsReady};
ghost use Rattle.buffer_stages.specs.Moves.{reach};
ghost use Rattle.buffer_stages.specs.Fronts.{moves_to_front, pair_seen};
ghost use Rattle.buffer_glyphs.specs.Rewriting.{eventless_arrangement};
ghost use Rattle.buffer_stages.specs.Parts.{fronts_moved, glyph_masked, item_with_features};
ghost use Rattle.buffer_stages.specs.SyllableBuffers.{IsRewritten};
ghost use Rattle.script_khmer.specs.Runs.{OpensForms, ends_run, forms_masked, forms_moved, is_vowel, run_length, front_count, together};

use crate::khmer::KhmerMasks;
use buffer_core::buffer::hb_buffer_t;
use buffer_glyphs::info::{hb_glyph_info_t, hb_mask_t};
use buffer_stages::fronts::FrontRule;
use buffer_stages::parts::{add_mask, mask_within};
use buffer_stages::syllable_fronts::move_fronts;
use script_categories::ot_category_t::{OT_H, OT_Ra, OT_VPre};

/// Whether a run begins at an index: a form is there, at most two coengs were counted, and the glyph before it is
/// neither a coeng nor a left matra, so that nothing changes when the walk meets it again.
pub(crate) fn opens_forms(
    buffer: &hb_buffer_t,
    start: usize,
    end: usize,
    index: usize,
    count: u32,
) -> bool
    requires ready { IsReady buffer.now }
    requires some { 0 < index }
    requires there { start + index < end }
    requires within { end ≤ length (all_glyphs buffer.now) }
    ensures { result ≡ true → OpensForms count index (slice_range (items_of buffer.now) start end) }
{
    if count > 2 || start + index + 1 == end {
        return false;
    }
    let before = glyph_at(buffer, start, end, index - 1);
    let glyph = glyph_at(buffer, start, end, index);
    let next = glyph_at(buffer, start, end, index + 1);
    if before.category == OT_H || before.category == OT_VPre {
        return false;
    }
    is_form(&glyph, &next)
}

/// The i-th of the glyphs `start..end`.
#[tactic(auto, using(script_syllabic::proofs::There::there))]
fn glyph_at(buffer: &hb_buffer_t, start: usize, end: usize, i: usize) -> hb_glyph_info_t
    requires ready { IsReady buffer.now }
    requires there { start + i < end }
    requires within { end ≤ length (all_glyphs buffer.now) }
    ensures { slice_get (slice_range (items_of buffer.now) start end) i ≡ Some (item_of result) }
{
    buffer.info_slice()[start + i]
}

fn is_form(glyph: &hb_glyph_info_t, next: &hb_glyph_info_t) -> bool
    ensures { result ≡ together true (item_of glyph.now) (item_of next.now) }
{
    glyph.category == OT_H && next.category == OT_Ra
}

/// The length of the run at the start: up to a coeng of no form, while few coengs were counted.
#[tactic(auto, using(crate::proofs::KhmerScan::run_next, crate::proofs::KhmerScan::run_last, crate::proofs::KhmerScan::run_all))]
pub(crate) fn run_length(glyphs: &[hb_glyph_info_t], forms: bool, few: bool) -> usize
    ensures count { result ≡ run_length forms few (strip glyphs.now) }
    ensures within { result ≤ length glyphs.now }
{
    for i in 0..glyphs.len() {
        if ends_run(glyphs, i, forms, few) {
            return i;
        }
    }
    glyphs.len()
}

fn ends_run(glyphs: &[hb_glyph_info_t], i: usize, forms: bool, few: bool) -> bool
    requires there { i < length glyphs.now }
    ensures { result ≡ ends_run forms few (strip (drop i glyphs.now)) }
{
    if glyphs[i].category != OT_H || !few {
        return false;
    }
    if i + 1 == glyphs.len() {
        return true;
    }
    !(forms && is_form(&glyphs[i], &glyphs[i + 1]))
}

/// Sets the masks of a run's forms and, after the first form, of all other glyphs; then moves forms and left matras to
/// the start of the syllable.
pub(crate) fn move_forms(
    masks: &KhmerMasks,
    buffer: &mut hb_buffer_t,
    start: usize,
    end: usize,
    index: usize,
    to: usize,
)
    requires ready { IsReady buffer.old }
    requires some { 0 < index }
    requires two { index + 2 ≤ to }
    requires there { start + to ≤ end }
    requires within { end ≤ length (all_glyphs buffer.old) }
    ensures { IsRewritten (forms_moved masks.now index to (slice_range (items_of buffer.old) start end)) start end
        buffer.old buffer.new }
{
    add_mask(buffer, start + (index + 2), end, masks.cfar);
    mask_run(buffer, start + index, start + to, masks.pref);
    move_run(buffer, start, start + to, index, true);
}

/// Adds a mask to the forms among the glyphs `start..end`.
fn mask_run(buffer: &mut hb_buffer_t, start: usize, end: usize, mask: hb_mask_t)
    requires ready { IsReady buffer.old }
    requires ordered { start ≤ end }
    requires within { end ≤ length (all_glyphs buffer.old) }
    ensures { IsRewritten (eventless_arrangement (forms_masked (together true) (item_with_features mask)
        (slice_range (items_of buffer.old) start end))) start
        end buffer.old buffer.new }
{
    let known = buffer.known_order();
    mask_part(buffer.info_slice_mut(), start, end, mask);
    buffer.keep_order(known);
}

fn mask_part(glyphs: &mut [hb_glyph_info_t], start: usize, end: usize, mask: hb_mask_t)
    requires ordered { start ≤ end }
    requires within { end ≤ length glyphs.old }
    ensures { glyphs.new ≡ take start glyphs.old
        ++ forms_masked (pair_seen (together true)) (glyph_masked mask) (slice_range glyphs.old start end)
        ++ drop end glyphs.old }
{
    mask_forms(&mut glyphs[start..end], mask);
}

#[tactic(auto, using(crate::proofs::KhmerScan::all_formed))]
fn mask_forms(glyphs: &mut [hb_glyph_info_t], mask: hb_mask_t)
    ensures { glyphs.new ≡ forms_masked (pair_seen (together true)) (glyph_masked mask) glyphs.old }
{
    let mut i = 0;
    while i + 1 < glyphs.len() {
        i = mask_at(glyphs, i, mask);
    }
}

/// Adds a mask to the form at an index, if there is one; returns the index after what is there.
fn mask_at(glyphs: &mut [hb_glyph_info_t], i: usize, mask: hb_mask_t) -> usize
    requires there { i + 2 ≤ length glyphs.old }
    ensures masked { take result glyphs.new
        ++ forms_masked (pair_seen (together true)) (glyph_masked mask) (drop result glyphs.new)
        ≡ take i glyphs.old ++ forms_masked (pair_seen (together true)) (glyph_masked mask) (drop i glyphs.old) }
    ensures size { length glyphs.new ≡ length glyphs.old }
    ensures onward { i < result }
    ensures inside { result ≤ length glyphs.old }
{
    if !is_form(&glyphs[i], &glyphs[i + 1]) {
        return i + 1;
    }
    mask_within(glyphs, i, i + 2, mask);
    i + 2
}

/// Moves the forms and left matras among the glyphs `start..end`, from an index on, to the front, and merges each with
/// the glyphs it passes.
pub(crate) fn move_run(
    buffer: &mut hb_buffer_t,
    start: usize,
    end: usize,
    index: usize,
    forms: bool,
)
    requires ready { IsReady buffer.old }
    requires some { 0 < index }
    requires there { start + index ≤ end }
    requires within { end ≤ length (all_glyphs buffer.old) }
    ensures { IsRewritten (fronts_moved (together forms) is_vowel index (slice_range (items_of buffer.old) start end))
        start end
        buffer.old buffer.new }
{
    let merged = merged_length(&buffer.info_slice()[start..end], index, forms);
    move_fronts(&Fronts { forms }, buffer, start, end, index, merged);
}

/// The number of glyphs up to the last one that moves to the front, or 1.
#[tactic(auto, using(crate::proofs::KhmerScan::all_seen))]
fn merged_length(glyphs: &[hb_glyph_info_t], index: usize, forms: bool) -> usize
    requires some { 0 < index }
    requires inside { index ≤ length glyphs.now }
    ensures reach { result ≡ reach 1 (moves_to_front (together forms) is_vowel index (drop index (strip glyphs.now))) }
    ensures within { result ≤ length glyphs.now }
{
    let mut merged = 1;
    for i in index..glyphs.len() {
        merged = merged_at(glyphs, i, forms, merged);
    }
    merged
}

/// The number of glyphs up to the last one that moves to the front, at an index or before it.
fn merged_at(glyphs: &[hb_glyph_info_t], i: usize, forms: bool, merged: usize) -> usize
    requires some { 0 < i }
    requires there { i < length glyphs.now }
    requires inside { merged ≤ length glyphs.now }
    ensures reach { reach result (moves_to_front (together forms) is_vowel (i + 1) (drop (i + 1) (strip glyphs.now)))
        ≡ reach merged (moves_to_front (together forms) is_vowel i (drop i (strip glyphs.now))) }
    ensures within { result ≤ length glyphs.now }
{
    let count = front_count(glyphs, i, forms);
    if count == 0 {
        return merged;
    }
    i + count
}

/// The number of glyphs that move to the front from an index.
fn front_count(glyphs: &[hb_glyph_info_t], i: usize, forms: bool) -> usize
    requires there { i < length glyphs.now }
    ensures value { result ≡ front_count forms (strip (drop i glyphs.now)) }
    ensures within { i + result ≤ length glyphs.now }
{
    if forms && i + 1 < glyphs.len() && is_form(&glyphs[i], &glyphs[i + 1]) {
        return 2;
    }
    if glyphs[i].category == OT_VPre {
        return 1;
    }
    0
}

/// What moves to the front: a form where coengs make forms, and each left matra.
#[derive(Clone, Copy)]
struct Fronts {
    forms: bool,
}

impl FrontRule for Fronts {
    ghost use Rattle.script_khmer.specs.Runs.{is_vowel, together};
    ghost use Rattle.script_khmer.specs.Lemmas.Forms.{forms_apart};

    ghost pairs = { λ rule. together rule.forms };

    ghost ones = { λ _. is_vowel };

    fn comes_with(&self, glyph: &hb_glyph_info_t, next: &hb_glyph_info_t) -> bool {
        self.forms && is_form(glyph, next)
    }

    fn comes(&self, glyph: &hb_glyph_info_t) -> bool {
        glyph.category == OT_VPre
    }

    ghost apart = { λ rule. forms_apart rule.forms };
}
