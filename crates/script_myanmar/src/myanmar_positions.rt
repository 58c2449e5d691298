//! The positions of the glyphs of a Myanmar syllable around its base, initial_reordering_consonant_syllable
//! (rustybuzz: hb/ot_shaper_myanmar.rs).
ghost use Rattle.std.specs.Prelude.{◌≡◌, ◌≤◌, length, map, replicate};
ghost use Rattle.script_categories.specs.declared.ot_position_t.TheConstants as position;
ghost use Rattle.script_myanmar.specs.Myanmar.{base_of, positions_by_base, from_base, is_base, kinzi, myanmar_positions, position_after, position_below, position_of, position_there, positions_after};
ghost use Rattle.script_myanmar.specs.Turned.{glyph_at, glyphs_at};

use buffer_glyphs::info::hb_glyph_info_t;
use script_categories::ot_category_t::{
    Category, OT_A, OT_As, OT_C, OT_CS, OT_DOTTEDCIRCLE, OT_H, OT_MR, OT_PLACEHOLDER, OT_Ra, OT_V,
    OT_VBlw, OT_VPre, OT_VS,
};
use script_categories::ot_position_t::{
    POS_AFTER_MAIN, POS_AFTER_SUB, POS_BASE_C, POS_BEFORE_SUB, POS_BELOW_C, POS_PRE_C, POS_PRE_M,
    Position,
};

/// Sets the positions of a syllable's glyphs: a kinzi at the start is positioned after the base, which is the first
/// consonant, else the first glyph after the kinzi.
pub(crate) fn set_positions(glyphs: &mut [hb_glyph_info_t])
    ensures { glyphs.new ≡ glyphs_at (myanmar_positions (map (λ g. g.category) glyphs.old)) glyphs.old }
{
    let kinzi = kinzi(glyphs);
    position_all(&mut glyphs[..kinzi], POS_AFTER_MAIN);
    position_by_base(&mut glyphs[kinzi..]);
}

fn position_by_base(glyphs: &mut [hb_glyph_info_t])
    ensures { glyphs.new ≡ glyphs_at (positions_by_base (map (λ g. g.category) glyphs.old)) glyphs.old }
{
    let base = base_of(glyphs);
    position_all(&mut glyphs[..base], POS_PRE_C);
    position_from_base(&mut glyphs[base..]);
}

fn position_from_base(glyphs: &mut [hb_glyph_info_t])
    ensures { glyphs.new ≡ glyphs_at (from_base (map (λ g. g.category) glyphs.old)) glyphs.old }
{
    if glyphs.is_empty() {
        return;
    }
    position_all(&mut glyphs[..1], POS_BASE_C);
    position_rest(&mut glyphs[1..]);
}

#[tactic(auto, using(crate::proofs::Placing::all_one))]
fn position_all(glyphs: &mut [hb_glyph_info_t], at: Position)
    ensures { glyphs.new ≡ glyphs_at (replicate (length glyphs.old) at) glyphs.old }
{
    for glyph in glyphs.iter_mut() {
        *glyph = glyph_at(*glyph, at);
    }
}

#[tactic(auto, using(crate::proofs::Placing::placing_begun, crate::proofs::Placing::placing_done))]
fn position_rest(glyphs: &mut [hb_glyph_info_t])
    ensures { glyphs.new ≡ glyphs_at (positions_after position.POS_AFTER_MAIN position.POS_BASE_C
        (map (λ g. g.category) glyphs.old)) glyphs.old }
{
    let mut now = POS_AFTER_MAIN;
    let mut before = POS_BASE_C;
    for glyph in glyphs.iter_mut() {
        before = position_of(now, before, glyph.category);
        now = position_after(now, glyph.category);
        *glyph = glyph_at(*glyph, before);
    }
}

fn glyph_at(glyph: hb_glyph_info_t, at: Position) -> hb_glyph_info_t
    ensures { result ≡ glyph_at at glyph }
{
    hb_glyph_info_t {
        auxiliary: at,
        ..glyph
    }
}

/// The position of a glyph after the base, by the position that the walk is in and that of the glyph before it.
fn position_of(now: Position, before: Position, category: Category) -> Position
    ensures { result ≡ position_of now before category }
{
    match category {
        OT_MR => POS_PRE_C,
        OT_VPre => POS_PRE_M,
        OT_VS => before,
        _ => position_there(now, category),
    }
}

/// The position that the walk is in after a glyph.
fn position_after(now: Position, category: Category) -> Position
    ensures { result ≡ position_after now category }
{
    if matches!(category, OT_MR | OT_VPre | OT_VS) {
        return now;
    }
    if now == POS_BELOW_C && category == OT_A {
        return now;
    }
    position_there(now, category)
}

fn position_there(now: Position, category: Category) -> Position
    ensures { result ≡ position_there now category }
{
    if now == POS_AFTER_MAIN && category == OT_VBlw {
        return POS_BELOW_C;
    }
    if now == POS_BELOW_C {
        return position_below(category);
    }
    now
}

fn position_below(category: Category) -> Position
    ensures { result ≡ position_below category }
{
    match category {
        OT_A => POS_BEFORE_SUB,
        OT_VBlw => POS_BELOW_C,
        _ => POS_AFTER_SUB,
    }
}

/// The number of glyphs of a kinzi at the start.
fn kinzi(glyphs: &[hb_glyph_info_t]) -> usize
    ensures count { result ≡ kinzi (map (λ g. g.category) glyphs.now) }
    ensures within { result ≤ length glyphs.now }
{
    if glyphs.len() < 3 {
        return 0;
    }
    if glyphs[0].category == OT_Ra && glyphs[1].category == OT_As && glyphs[2].category == OT_H {
        3
    } else {
        0
    }
}

/// The index of the first consonant, else 0.
#[tactic(auto, using(crate::proofs::Placing::sought_from, crate::proofs::Placing::sought_next, crate::proofs::Placing::base_found, crate::proofs::Placing::none_found))]
fn base_of(glyphs: &[hb_glyph_info_t]) -> usize
    ensures index { result ≡ base_of (map (λ g. g.category) glyphs.now) }
    ensures within { result ≤ length glyphs.now }
{
    for (i, glyph) in glyphs.iter().enumerate() {
        if is_base(glyph.category) {
            return i;
        }
    }
    0
}

fn is_base(category: Category) -> bool
    ensures { result ≡ is_base category }
{
    matches!(
        category,
        OT_C | OT_CS | OT_Ra | OT_V | OT_PLACEHOLDER | OT_DOTTEDCIRCLE
    )
}
