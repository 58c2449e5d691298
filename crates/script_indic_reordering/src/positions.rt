//! The syllabic positions of the glyphs of a syllable, by its base (rustybuzz: hb/ot_shaper_indic.rs).
ghost use Rattle.std.specs.Prelude.{◌≡◌};
ghost use Rattle.buffer_glyphs.specs.Items.{item_of, strip};
ghost use Rattle.buffer_glyphs.specs.Origins.{origin_of};
ghost use Rattle.script_categories.specs.declared.ot_position_t.TheConstants as position;
ghost use Rattle.buffer_stages.specs.Ordering.{AreMade};
ghost use Rattle.script_indic_reordering.specs.Initial.{all_placed, signs_attached, attached_position, base_placed, before_base, lead_position, leads, all_led_after, led_item, with_led_position, led_position_with, reph_placed};

use crate::base::Base;
use crate::glyphs::{is_attached, is_consonant, is_matra, with_position};
use buffer_glyphs::info::hb_glyph_info_t;
use buffer_stages::rewriting::PartRule;
use script_categories::ot_position_t::{
    POS_BASE_C, POS_PRE_C, POS_RA_TO_BECOME_REPH, POS_SMVD, POS_START, Position,
};

impl PartRule for Base {
    ghost use Rattle.script_indic_reordering.specs.Initial.{all_placed};

    ghost made = { λ b. all_placed (record { has_reph = b.has_reph; base = b.index }) };

    #[tactic(auto, using(crate::proofs::Lemmas::Walks::positions_made))]
    fn make(&self, glyphs: &mut [hb_glyph_info_t]) {
        set_base_position(self.index, glyphs);
        set_reph_position(self.has_reph, glyphs);
        attach(glyphs);
        lead(self.index, glyphs);
    }
}

/// Sets the positions of the glyphs before the base and of the base.
#[tactic(auto, using(crate::proofs::Lemmas::Walks::basing_begun, crate::proofs::Lemmas::Walks::basing_next, crate::proofs::Lemmas::Walks::basing_here, crate::proofs::Lemmas::Walks::basing_past))]
fn set_base_position(base: usize, glyphs: &mut [hb_glyph_info_t])
    ensures { AreMade (base_placed base (strip glyphs.old)) glyphs.old glyphs.new }
{
    for i in 0..glyphs.len() {
        if i == base {
            glyphs[i] = with_position(POS_BASE_C, glyphs[i]);
            return;
        }
        glyphs[i] = before_base(glyphs[i]);
    }
}

fn before_base(glyph: hb_glyph_info_t) -> hb_glyph_info_t
    ensures item { item_of result ≡ before_base (item_of glyph) }
    ensures origin { origin_of result ≡ origin_of glyph }
{
    with_position(POS_PRE_C.min(glyph.auxiliary), glyph)
}

fn set_reph_position(has_reph: bool, glyphs: &mut [hb_glyph_info_t])
    ensures { AreMade (reph_placed has_reph (strip glyphs.old)) glyphs.old glyphs.new }
{
    if !has_reph || glyphs.is_empty() {
        return;
    }
    glyphs[0] = with_position(POS_RA_TO_BECOME_REPH, glyphs[0]);
}

/// Gives attached glyphs the position of the one before them.
#[tactic(auto, using(crate::proofs::Lemmas::Walks::attaching_begun, crate::proofs::Lemmas::Walks::attaching_next, crate::proofs::Lemmas::Walks::attaching_done))]
fn attach(glyphs: &mut [hb_glyph_info_t])
    ensures { AreMade (signs_attached position.POS_START (strip glyphs.old)) glyphs.old glyphs.new }
{
    let mut pos = POS_START;
    for i in 0..glyphs.len() {
        pos = attached_position(pos, &glyphs[i]);
        glyphs[i] = with_position(pos, glyphs[i]);
    }
}

/// The position of a glyph, by that of the one before it.
fn attached_position(before: Position, glyph: &hb_glyph_info_t) -> Position
    ensures { result ≡ attached_position before (item_of glyph.now) }
{
    if is_attached(glyph) {
        return before;
    }
    glyph.auxiliary
}

/// Gives signs after the base the position of the next consonant, where no matra is between. It takes linear time, since
/// it walks from the end and keeps the position to give.
#[tactic(auto, using(crate::proofs::Lemmas::Walks::leading_begun, crate::proofs::Lemmas::Walks::leading_next, crate::proofs::Lemmas::Walks::leading_done))]
fn lead(base: usize, glyphs: &mut [hb_glyph_info_t])
    ensures { AreMade (all_led_after base (strip glyphs.old)) glyphs.old glyphs.new }
{
    let mut pos = None;
    let mut i = glyphs.len();
    while i > 0 && i - 1 > base {
        i -= 1;
        let glyph = glyphs[i];
        glyphs[i] = led_glyph(pos, glyph);
        pos = led_position(pos, &glyph);
    }
}

/// A glyph, by the position that the next consonant or matra gives.
fn led_glyph(pos: Option<Position>, glyph: hb_glyph_info_t) -> hb_glyph_info_t
    ensures item { item_of result ≡ led_item pos (item_of glyph) }
    ensures origin { origin_of result ≡ origin_of glyph }
{
    if leads(&glyph) {
        return glyph;
    }
    with_led_position(pos, glyph)
}

/// The position that signs before a glyph get, by the one that signs after it get.
fn led_position(pos: Option<Position>, glyph: &hb_glyph_info_t) -> Option<Position>
    ensures { result ≡ led_position_with pos (item_of glyph.now) }
{
    if leads(glyph) {
        return lead_position(glyph);
    }
    pos
}

fn leads(glyph: &hb_glyph_info_t) -> bool
    ensures { result ≡ leads (item_of glyph.now) }
{
    is_consonant(glyph) || is_matra(glyph)
}

/// The position that a consonant gives to signs before it.
fn lead_position(glyph: &hb_glyph_info_t) -> Option<Position>
    ensures { result ≡ lead_position (item_of glyph.now) }
{
    if is_consonant(glyph) {
        Some(glyph.auxiliary)
    } else {
        None
    }
}

/// A sign before a consonant that gives it a position; syllable modifiers, and positions after theirs, stay.
fn with_led_position(pos: Option<Position>, glyph: hb_glyph_info_t) -> hb_glyph_info_t
    ensures item { item_of result ≡ with_led_position pos (item_of glyph) }
    ensures origin { origin_of result ≡ origin_of glyph }
{
    match pos {
        Some(pos) if glyph.auxiliary < POS_SMVD => with_position(pos, glyph),
        _ => glyph,
    }
}
