//! The base of a syllable (rustybuzz: hb/ot_shaper_indic.rs).
ghost use Rattle.std.specs.Prelude.{◌≡◌, ◌≤◌, ◌+◌, ◌<◌, ◌&&◌, ◌||◌, drop, if◌then◌else◌, length, true, IfSome, Some};
ghost use Rattle.buffer_glyphs.specs.Items.{item_of, strip};
ghost use Rattle.script_indic_reordering.specs.Base.{base_after, base_from, ends_search, reph_and_base, is_below_consonant, may_be_base, search_start};
ghost use Rattle.script_indic_reordering.specs.Glyphs.{is_consonant, is_halant, is_zwj};
ghost use Rattle.script_indic_reordering.specs.Indices.{last_at};

use crate::forms::IndicForms;
use crate::glyphs::{is_below, is_consonant, is_halant, is_post, is_zwj};
use crate::reph::reph_front;
use crate::script::RephMode;
use buffer_glyphs::info::hb_glyph_info_t;

/// Whether a syllable has a reph, and the index of its base; its length where it has none.
#[derive(Clone, Copy)]
pub(crate) struct Base {
    pub has_reph: bool,
    pub index: usize,
}

/// Finds the reph of a syllable and its base. It takes linear time, but for the font's answers.
pub(crate) fn find_base<F: IndicForms>(
    forms: &F,
    mode: RephMode,
    glyphs: &[hb_glyph_info_t],
) -> Base
    ensures reph { result.has_reph ≡ (reph_and_base mode (F.forms_of forms.now) (strip glyphs.now)).has_reph }
    ensures base { result.index ≡ (reph_and_base mode (F.forms_of forms.now) (strip glyphs.now)).base }
    ensures within { result.index ≤ length glyphs.now }
{
    let count = reph_front(forms, mode, glyphs);
    match base_after(glyphs, count) {
        Some(index) => Base {
            has_reph: count > 0,
            index,
        },
        None if count == 0 => Base {
            has_reph: false,
            index: glyphs.len(),
        },
        None => Base {
            has_reph: count > 2,
            index: 0,
        },
    }
}

/// The base after the first `count` glyphs, which are a reph.
fn base_after(glyphs: &[hb_glyph_info_t], count: usize) -> Option<usize>
    requires { count ≤ length glyphs.now }
    ensures value { result ≡ base_after count (strip glyphs.now) }
    ensures within { IfSome result (λ i. i < length glyphs.now) }
{
    let start = search_start(glyphs, count);
    base_from(glyphs, start)
}

/// The index after the last ZWJ that follows a halant, else that after the reph.
fn search_start(glyphs: &[hb_glyph_info_t], count: usize) -> usize
    requires { count ≤ length glyphs.now }
    ensures value { result ≡ search_start count (strip glyphs.now) }
    ensures within { result ≤ length glyphs.now }
{
    match last_joined(glyphs, count.saturating_sub(1)) {
        Some(i) => i + 2,
        None => count,
    }
}

/// The last index from one on where a ZWJ follows a halant.
#[tactic(auto, using(crate::proofs::Lemmas::Walks::joined_begun, crate::proofs::Lemmas::Walks::joined_next, crate::proofs::Lemmas::Walks::joined_found, crate::proofs::Lemmas::Walks::joined_none))]
fn last_joined(glyphs: &[hb_glyph_info_t], from: usize) -> Option<usize>
    requires { from ≤ length glyphs.now }
    ensures value { result ≡ last_at ends_search from (drop from (strip glyphs.now)) }
    ensures within { IfSome result (λ i. i + 2 ≤ length glyphs.now) }
{
    let mut i = glyphs.len();
    while i > from {
        i -= 1;
        if joins(glyphs, i) {
            return Some(i);
        }
    }
    None
}

/// Whether a halant stands at an index, and a ZWJ after it.
#[tactic(auto, using(crate::proofs::Lemmas::Walks::last_joins_none, crate::proofs::Lemmas::Walks::two_join))]
fn joins(glyphs: &[hb_glyph_info_t], i: usize) -> bool
    requires { i < length glyphs.now }
    ensures value { result ≡ ends_search (drop i (strip glyphs.now)) }
    ensures there { result ≡ true → i + 2 ≤ length glyphs.now }
{
    if i + 1 == glyphs.len() {
        return false;
    }
    are_joined(&glyphs[i], &glyphs[i + 1])
}

fn are_joined(glyph: &hb_glyph_info_t, next: &hb_glyph_info_t) -> bool
    ensures { result ≡ (is_halant (item_of glyph.now) && is_zwj (item_of next.now)) }
{
    is_halant(glyph) && is_zwj(next)
}

/// The last consonant from an index on that may be the base, else the first.
#[tactic(auto, using(crate::proofs::Lemmas::Walks::seeking_begun, crate::proofs::Lemmas::Walks::seeking_found, crate::proofs::Lemmas::Walks::seeking_next, crate::proofs::Lemmas::Walks::seeking_done, crate::proofs::Lemmas::Walks::seeking_within))]
fn base_from(glyphs: &[hb_glyph_info_t], from: usize) -> Option<usize>
    requires { from ≤ length glyphs.now }
    ensures value { result ≡ base_from from (drop from (strip glyphs.now)) }
    ensures within { IfSome result (λ i. i < length glyphs.now) }
{
    let mut first = None;
    let mut has_below = false;
    let mut i = glyphs.len();
    while i > from {
        i -= 1;
        if may_be_base(&glyphs[i], has_below) {
            return Some(i);
        }
        first = first_with(first, &glyphs[i], i);
        has_below = below_with(has_below, &glyphs[i]);
    }
    first
}

/// The first consonant of those from an index on, by the first after it.
fn first_with(first: Option<usize>, glyph: &hb_glyph_info_t, i: usize) -> Option<usize>
    ensures { result ≡ (if is_consonant (item_of glyph.now) then Some i else first) }
{
    if is_consonant(glyph) {
        return Some(i);
    }
    first
}

/// Whether a consonant with a form below stands from an index on, by whether one does after it.
fn below_with(has_below: bool, glyph: &hb_glyph_info_t) -> bool
    ensures { result ≡ (is_below_consonant (item_of glyph.now) || has_below) }
{
    is_below_consonant(glyph) || has_below
}

/// Whether a glyph may be the base, by whether a consonant with a form below follows it.
fn may_be_base(glyph: &hb_glyph_info_t, has_below: bool) -> bool
    ensures { result ≡ may_be_base (item_of glyph.now) has_below }
{
    is_consonant(glyph) && !is_below(glyph) && (!is_post(glyph) || has_below)
}

fn is_below_consonant(glyph: &hb_glyph_info_t) -> bool
    ensures { result ≡ is_below_consonant (item_of glyph.now) }
{
    is_consonant(glyph) && is_below(glyph)
}
