//! The indices that the final reordering finds in a syllable whose forms are made (rustybuzz: hb/ot_shaper_indic.rs).
ghost use Rattle.std.specs.Prelude.{◌≡◌, ◌≤◌, ◌<◌, length, not, IfSome};
ghost use Rattle.std.specs.List.{position_or_len};
ghost use Rattle.buffer_glyphs.specs.Items.{item_of, strip};
ghost use Rattle.script_indic_reordering.specs.Final.{after_halant, back_over, begins_with_reph, first_halant, formed_base, has_form, is_reph, last_halant, passed_by_position, passed_by_reph, passed_from_base, pref_form, pref_target, stands_from_post, stands_up_to_main, up_to_signs};

use crate::glyphs::stands_at;
use crate::reph::joiners;
use crate::sought::Sought;
use buffer_glyphs::info::{hb_glyph_info_t, hb_mask_t};
use buffer_glyphs::ligature_words::_hb_glyph_info_ligated;
use script_categories::ot_category_t::OT_Repha;
use script_categories::ot_position_t::{
    POS_AFTER_MAIN, POS_AFTER_POST, POS_AFTER_SUB, POS_BASE_C, POS_RA_TO_BECOME_REPH, Position,
};

/// The index of the base once forms are made; the length where there is none.
pub(crate) fn formed_base(glyphs: &[hb_glyph_info_t]) -> usize
    ensures index { result ≡ formed_base (strip glyphs.now) }
    ensures within { result ≤ length glyphs.now }
{
    let first = Sought::FromBase.index(glyphs);
    if first == glyphs.len() {
        return first;
    }
    if stands_at(POS_BASE_C, &glyphs[first]) {
        return back_over(glyphs, first);
    }
    back_over(glyphs, first.saturating_sub(1))
}

/// The index of the nearest glyph at or before an index that is no nukta and no halant; 0 where there is none.
fn back_over(glyphs: &[hb_glyph_info_t], from: usize) -> usize
    requires { from < length glyphs.now }
    ensures index { result ≡ back_over from (strip glyphs.now) }
    ensures within { result ≤ from }
{
    match Sought::NoNuktaOrHalant.last_from(&glyphs[..from + 1], 0) {
        Some(i) => i,
        None => 0,
    }
}

/// The index after a halant, and after its joiner where that precedes the base.
pub(crate) fn after_halant(glyphs: &[hb_glyph_info_t], base: usize, halant: usize) -> usize
    requires before { halant < base }
    requires within { base ≤ length glyphs.now }
    ensures index { result ≡ after_halant base (strip glyphs.now) halant }
    ensures after { halant < result }
    ensures within { result ≤ base }
{
    let next = halant + 1;
    if next == base {
        return next;
    }
    next + joiners(&glyphs[next..next + 1])
}

/// The last halant before the base that is attached to no left matra.
pub(crate) fn last_halant(glyphs: &[hb_glyph_info_t], base: usize) -> Option<usize>
    requires { base ≤ length glyphs.now }
    ensures value { result ≡ last_halant base (strip glyphs.now) }
    ensures within { IfSome result (λ h. h < base) }
{
    Sought::Stop.last_from(&glyphs[..base], 0)
}

/// Whether a syllable of two glyphs or more begins with a reph.
#[tactic(auto, using(crate::proofs::Lemmas::Formed::begins_reph, crate::proofs::Lemmas::Formed::too_few))]
pub(crate) fn begins_with_reph(glyphs: &[hb_glyph_info_t]) -> bool
    ensures { result ≡ begins_with_reph (strip glyphs.now) }
{
    if glyphs.len() < 2 {
        return false;
    }
    is_reph(&glyphs[0])
}

fn is_reph(glyph: &hb_glyph_info_t) -> bool
    ensures { result ≡ is_reph (item_of glyph.now) }
{
    stands_at(POS_RA_TO_BECOME_REPH, glyph) && has_form(glyph)
}

fn has_form(glyph: &hb_glyph_info_t) -> bool
    ensures { result ≡ has_form (item_of glyph.now) }
{
    _hb_glyph_info_ligated(glyph) || glyph.category == OT_Repha
}

/// The number of glyphs up to where the reph moves, with the reph counted.
pub(crate) fn passed_by_reph(glyphs: &[hb_glyph_info_t], reph_pos: Position, base: usize) -> usize
    requires some { 0 < length glyphs.now }
    requires within { base ≤ length glyphs.now }
    ensures count { result ≡ passed_by_reph reph_pos base (strip glyphs.now) }
    ensures some { 0 < result }
    ensures within { result ≤ length glyphs.now }
{
    if reph_pos == POS_AFTER_POST {
        return up_to_signs(glyphs);
    }
    match first_halant(glyphs, base) {
        Some(halant) => after_halant(glyphs, base, halant),
        None => passed_by_position(glyphs, reph_pos, base),
    }
}

/// The first halant after the reph that precedes the base.
fn first_halant(glyphs: &[hb_glyph_info_t], base: usize) -> Option<usize>
    requires { base ≤ length glyphs.now }
    ensures value { result ≡ first_halant base (strip glyphs.now) }
    ensures within { IfSome result (λ h. h < base) }
{
    Sought::FreeHalant.first_from(&glyphs[..base], 1)
}

/// The number of glyphs up to where the reph moves, where no halant precedes the base.
fn passed_by_position(glyphs: &[hb_glyph_info_t], reph_pos: Position, base: usize) -> usize
    requires some { 0 < length glyphs.now }
    requires within { base ≤ length glyphs.now }
    ensures count { result ≡ passed_by_position reph_pos base (strip glyphs.now) }
    ensures some { 0 < result }
    ensures within { result ≤ length glyphs.now }
{
    if base == glyphs.len() {
        return up_to_signs(glyphs);
    }
    passed_from_base(glyphs, reph_pos, base)
}

fn passed_from_base(glyphs: &[hb_glyph_info_t], reph_pos: Position, base: usize) -> usize
    requires { base < length glyphs.now }
    ensures count { result ≡ passed_from_base reph_pos base (strip glyphs.now) }
    ensures some { 0 < result }
    ensures within { result ≤ length glyphs.now }
{
    if reph_pos == POS_AFTER_MAIN {
        return base + 1 + count_to_main(&glyphs[base + 1..]);
    }
    if reph_pos == POS_AFTER_SUB {
        return base + 1 + count_to_post(&glyphs[base + 1..]);
    }
    up_to_signs(glyphs)
}

/// The number of glyphs at the start that have the position after the base or an earlier one.
fn count_to_main(glyphs: &[hb_glyph_info_t]) -> usize
    ensures count { result ≡ position_or_len (λ x. not (stands_up_to_main x)) (strip glyphs.now) }
    ensures within { result ≤ length glyphs.now }
{
    Sought::PastMain.index(glyphs)
}

/// The number of glyphs at the start that precede the forms after the base.
fn count_to_post(glyphs: &[hb_glyph_info_t]) -> usize
    ensures count { result ≡ position_or_len (λ x. stands_from_post x) (strip glyphs.now) }
    ensures within { result ≤ length glyphs.now }
{
    Sought::FromPost.index(glyphs)
}

/// The number of glyphs before the syllable modifiers that end a syllable, 1 at least.
fn up_to_signs(glyphs: &[hb_glyph_info_t]) -> usize
    requires { 0 < length glyphs.now }
    ensures count { result ≡ up_to_signs (strip glyphs.now) }
    ensures some { 0 < result }
    ensures within { result ≤ length glyphs.now }
{
    match Sought::NoSign.last_from(glyphs, 1) {
        Some(i) => 1 + i,
        None => 1,
    }
}

/// The index of the first glyph after the base that a ligature made with the feature pref.
pub(crate) fn pref_form(glyphs: &[hb_glyph_info_t], mask: hb_mask_t, base: usize) -> Option<usize>
    requires { base ≤ length glyphs.now }
    ensures value { result ≡ pref_form mask base (strip glyphs.now) }
    ensures after { IfSome result (λ i. base < i) }
    ensures within { IfSome result (λ i. i < length glyphs.now) }
{
    Sought::Formed(mask).first_from(glyphs, base + 1)
}

/// The index to which such a glyph moves.
pub(crate) fn pref_target(glyphs: &[hb_glyph_info_t], base: usize) -> usize
    requires { base ≤ length glyphs.now }
    ensures index { result ≡ pref_target base (strip glyphs.now) (last_halant base (strip glyphs.now)) }
    ensures within { result ≤ base }
{
    match last_halant(glyphs, base) {
        Some(halant) => after_halant(glyphs, base, halant),
        None => base,
    }
}
