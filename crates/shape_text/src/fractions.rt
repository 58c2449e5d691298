//! The masks of numbers around a fraction slash, setup_masks_fraction (rustybuzz: hb/ot_shape.rs).
ghost use Rattle.std.specs.Prelude.{◌≡◌, ◌<◌, ◌≤◌, ◌+◌, ◌-◌, ◌==◌, ◌||◌, length};
ghost use Rattle.std.specs.Int.RustNames.{bit_and};
ghost use Rattle.buffer_glyphs.specs.declared.info.TheConstants.{DEFINED};
ghost use Rattle.buffer_glyphs.specs.Items.{item_of, strip};
ghost use Rattle.buffer_core.specs.Readings.{always};
ghost use Rattle.buffer_core.specs.Sides.{all_glyphs, items_of};
ghost use Rattle.buffer_stages.specs.Ready.{IsReady};
ghost use Rattle.buffer_stages.specs.Stages.{Becomes, IsFollowed};
ghost use Rattle.shape_text.specs.Fractions.{around_slash, fraction_at, digits_before, digits_after, first_mask, fraction_items, is_slash, last_mask, with_features_within, with_fractions};

use buffer_common::direction::Direction;
use buffer_core::buffer::hb_buffer_t;
use buffer_glyphs::info::{hb_glyph_info_t, hb_mask_t};
use buffer_glyphs::marks::flag_within;
use buffer_properties::categories::is_decimal_number;

const FRACTION_SLASH: u32 = 0x2044;

/// The masks of the features frac, numr and dnom.
#[derive(Clone, Copy)]
pub struct FractionMasks {
    pub frac: hb_mask_t,
    pub numr: hb_mask_t,
    pub dnom: hb_mask_t,
}

impl FractionMasks {
    fn first(self, direction: Direction) -> hb_mask_t
        ensures { result ≡ first_mask direction self }
    {
        self.frac
            | if direction.is_backward() {
                self.dnom
            } else {
                self.numr
            }
    }

    fn last(self, direction: Direction) -> hb_mask_t
        ensures { result ≡ last_mask direction self }
    {
        self.frac
            | if direction.is_backward() {
                self.numr
            } else {
                self.dnom
            }
    }
}

/// Adds the masks of fractions to each U+2044 between decimal numbers and to those numbers, and flags them as unsafe to
/// break (`setup_masks_fraction`); a slash without a number on one side is flagged as unsafe to concat. No mask may
/// have a glyph flag. It takes linear time and no memory.
#[tactic(auto, using(crate::proofs::Slashes::none_done, crate::proofs::Slashes::next_done, crate::proofs::Slashes::all_done))]
pub fn setup_masks_fraction(masks: FractionMasks, buffer: &mut hb_buffer_t)
    requires ready { IsReady buffer.old }
    requires frac { bit_and masks.frac DEFINED ≡ 0 }
    requires numr { bit_and masks.numr DEFINED ≡ 0 }
    requires dnom { bit_and masks.dnom DEFINED ≡ 0 }
    ensures { IsFollowed (always (with_fractions masks)) buffer.old buffer.new }
{
    let count = buffer.info_slice().len();
    for at in 0..count {
        mask_fraction_at(masks, at, buffer);
    }
}

#[tactic(auto, using(crate::proofs::Slashes::fraction_at_slash, crate::proofs::Slashes::fraction_at_none))]
fn mask_fraction_at(masks: FractionMasks, at: usize, buffer: &mut hb_buffer_t)
    requires ready { IsReady buffer.old }
    requires frac { bit_and masks.frac DEFINED ≡ 0 }
    requires numr { bit_and masks.numr DEFINED ≡ 0 }
    requires dnom { bit_and masks.dnom DEFINED ≡ 0 }
    requires within { at < length (all_glyphs buffer.old) }
    ensures followed { IsFollowed (always (fraction_at masks at)) buffer.old buffer.new }
    ensures as_many { length (all_glyphs buffer.new) ≡ length (all_glyphs buffer.old) }
{
    if is_slash(&buffer.info_slice()[at]) {
        let start = numbers_start(buffer.info_slice(), at);
        let end = numbers_end(buffer.info_slice(), at);
        mark_slash(masks, start, at, end, buffer);
    }
}

fn is_slash(glyph: &hb_glyph_info_t) -> bool
    ensures { result ≡ is_slash (item_of glyph.now) }
{
    glyph.glyph_id == FRACTION_SLASH
}

#[tactic(auto, using(crate::proofs::Digits::back_begins, crate::proofs::Digits::back_goes_on, crate::proofs::Digits::back_is_all, crate::proofs::Digits::back_stops))]
/// The start of the decimal numbers before an index.
fn numbers_start(glyphs: &[hb_glyph_info_t], at: usize) -> usize
    requires { at ≤ length glyphs.now }
    ensures value { at - result ≡ digits_before at (strip glyphs.now) }
    ensures within { result ≤ at }
{
    let mut start = at;
    while start > 0 && is_decimal_number(&glyphs[start - 1]) {
        start -= 1;
    }
    start
}

#[tactic(auto, using(crate::proofs::Digits::after_begins, crate::proofs::Digits::after_goes_on, crate::proofs::Digits::after_is_all, crate::proofs::Digits::after_stops))]
/// The end of the decimal numbers after an index.
fn numbers_end(glyphs: &[hb_glyph_info_t], at: usize) -> usize
    requires { at < length glyphs.now }
    ensures value { result - (at + 1) ≡ digits_after at (strip glyphs.now) }
    ensures from { at < result }
    ensures within { result ≤ length glyphs.now }
{
    let mut end = at + 1;
    while end < glyphs.len() && is_decimal_number(&glyphs[end]) {
        end += 1;
    }
    end
}

/// Whether a slash has no number on one side.
fn is_alone(start: usize, at: usize, end: usize) -> bool
    requires start { start ≤ at }
    requires end { at < end }
    ensures { result ≡ (at - start == 0 || end - (at + 1) == 0) }
{
    at - start == 0 || end - (at + 1) == 0
}

#[tactic(auto, using(crate::proofs::Slashes::concat_happens, crate::proofs::Slashes::slash_alone, crate::proofs::Slashes::slash_between, crate::proofs::Slashes::happens_as_many, crate::proofs::RangeMasks::as_many_now, buffer_stages::proofs::Lemmas::Happened::break_happens, buffer_stages::proofs::Lemmas::Happened::end_of_input))]
fn mark_slash(masks: FractionMasks, start: usize, at: usize, end: usize, buffer: &mut hb_buffer_t)
    requires ready { IsReady buffer.old }
    requires frac { bit_and masks.frac DEFINED ≡ 0 }
    requires numr { bit_and masks.numr DEFINED ≡ 0 }
    requires dnom { bit_and masks.dnom DEFINED ≡ 0 }
    requires start { start ≤ at }
    requires slash { at < end }
    requires end { end ≤ length (all_glyphs buffer.old) }
    ensures followed { IsFollowed (always (around_slash masks at (at - start) (end - (at + 1)))) buffer.old buffer.new }
    ensures as_many { length (all_glyphs buffer.new) ≡ length (all_glyphs buffer.old) }
{
    if is_alone(start, at, end) {
        buffer.unsafe_to_concat(Some(at), Some(at + 1));
        return;
    }
    buffer.unsafe_to_break(Some(start), Some(end));
    mask_fraction(masks, start, at, end, buffer);
}

#[tactic(auto, using(crate::proofs::Slashes::first_flagless, crate::proofs::Slashes::last_flagless, crate::proofs::Slashes::fraction_becomes, crate::proofs::RangeMasks::as_many_now))]
fn mask_fraction(
    masks: FractionMasks,
    start: usize,
    at: usize,
    end: usize,
    buffer: &mut hb_buffer_t,
)
    requires ready { IsReady buffer.old }
    requires frac { bit_and masks.frac DEFINED ≡ 0 }
    requires numr { bit_and masks.numr DEFINED ≡ 0 }
    requires dnom { bit_and masks.dnom DEFINED ≡ 0 }
    requires start { start ≤ at }
    requires slash { at < end }
    requires end { end ≤ length (all_glyphs buffer.old) }
    ensures { Becomes (fraction_items buffer.old.direction masks start at end (items_of buffer.old))
        buffer.old.positions
        buffer.old buffer.new }
{
    let direction = buffer.direction();
    mask_range(masks.first(direction), start, at, buffer);
    mask_range(masks.frac, at, at + 1, buffer);
    mask_range(masks.last(direction), at + 1, end, buffer);
}

#[tactic(auto, using(crate::proofs::RangeMasks::range_becomes))]
fn mask_range(mask: hb_mask_t, start: usize, end: usize, buffer: &mut hb_buffer_t)
    requires ready { IsReady buffer.old }
    requires flagless { bit_and mask DEFINED ≡ 0 }
    requires ordered { start ≤ end }
    requires within { end ≤ length (all_glyphs buffer.old) }
    ensures { Becomes (with_features_within mask start end (items_of buffer.old)) buffer.old.positions buffer.old
        buffer.new }
{
    flag_within(buffer.info_slice_mut(), start, end, mask);
}
