//! Thai in fonts with private-use presentation forms, do_thai_pua_shaping (rustybuzz: hb/ot_shaper_thai.rs).
ghost use Rattle.std.specs.Prelude.{◌≡◌, Some, map};
ghost use Rattle.std.specs.Option.{option_or};
ghost use Rattle.buffer_core.specs.Readings.{always};
ghost use Rattle.buffer_stages.specs.Ready.{IsReady};
ghost use Rattle.script_thai.specs.ThaiGlyphs.{glyphs_shaped, number_of};
ghost use Rattle.script_thai.specs.ThaiPrivate.{above_action, above_next, above_start, action_on, below_action, below_next, below_start, character_after, character_shaped, consonant_action, consonant_of, first_known, is_followed_below, mark_of, start_state, state_after, with_private};
ghost use Rattle.buffer_stages.specs.Stages.{IsFollowed};

use buffer_core::buffer::hb_buffer_t;
use buffer_glyphs::info::hb_glyph_info_t;
use buffer_unicode_tables::UnicodeTables;
use layout_face::Face;
use script_categories::thai_action::{RD, SD, SDL, SL};

/// The types of consonants, by how they combine with marks.
#[derive(Clone, Copy)]
pub enum Consonant {
    /// Neither an ascender nor a descender.
    NC,
    /// With an ascender.
    AC,
    /// With a removable descender.
    RC,
    /// With a strict descender.
    DC,
    NotConsonant,
}

/// The types of marks (HarfBuzz: get_mark_type).
#[derive(Clone, Copy)]
pub enum Mark {
    /// A vowel above.
    AV,
    /// A vowel below.
    BV,
    /// A tone.
    T,
    NotMark,
}

/// The state above the last consonant.
#[derive(Clone, Copy)]
pub enum Above {
    /// Nothing.
    T0,
    /// An ascender of the consonant.
    T1,
    /// An ascender, and a mark.
    T2,
    /// A mark.
    T3,
}

/// The state below the last consonant.
#[derive(Clone, Copy)]
pub enum Below {
    /// Nothing.
    B0,
    /// A removable descender.
    B1,
    /// A strict descender, or a mark.
    B2,
}

/// The states above and below the last consonant.
#[derive(Clone, Copy)]
pub struct State {
    pub above: Above,
    pub below: Below,
}

/// Replaces marks that must be shifted down or left, and consonants that must lose their descender, by the private-use
/// characters of those forms, where the font has them (`do_thai_pua_shaping`). It takes linear time and no memory.
pub fn shape_private(face: &Face, tables: &UnicodeTables, buffer: &mut hb_buffer_t)
    requires ready { IsReady buffer.old }
    ensures { IsFollowed (always (with_private tables.now face.now)) buffer.old buffer.new }
{
    shape(
        face,
        tables,
        start_state(Consonant::NotConsonant),
        buffer.info_slice_mut(),
    );
}

#[tactic(auto, using(crate::proofs::Shaped::none_shaped, crate::proofs::Shaped::next_shaped, crate::proofs::Shaped::all_shaped))]
fn shape(face: &Face, tables: &UnicodeTables, start: State, glyphs: &mut [hb_glyph_info_t])
    ensures { glyphs.new ≡ glyphs_shaped tables.now face.now start glyphs.old }
{
    let mut state = start;
    for at in 0..glyphs.len() {
        let u = glyphs[at].glyph_id;
        let shaped = character_shaped(face, tables, state, u, &glyphs[at + 1..]);
        glyphs[at].glyph_id = shaped;
        state = state_after(state, u);
    }
}

/// The character that replaces one, by those after it.
fn character_shaped(
    face: &Face,
    tables: &UnicodeTables,
    state: State,
    u: u32,
    rest: &[hb_glyph_info_t],
) -> u32
    ensures { result ≡ character_shaped tables.now face.now state u (map number_of rest.now) }
{
    match action_on(state, mark_of(u), u, rest) {
        Some(action) => character_after(face, tables, action, u),
        None => u,
    }
}

fn character_after(face: &Face, tables: &UnicodeTables, action: u8, u: u32) -> u32
    ensures { result ≡ character_after tables.now face.now (Some action) u }
{
    match char::from_u32(u) {
        Some(c) => first_known(face, u, tables.thai(c, action)),
        None => u,
    }
}

fn first_known(face: &Face, u: u32, row: Option<(char, char)>) -> u32
    ensures { result ≡ first_known face.now u row }
{
    match row {
        Some((first, _)) if face.has_glyph(first) => u32::from(first),
        Some((_, second)) if face.has_glyph(second) => u32::from(second),
        _ => u,
    }
}

fn action_on(state: State, mark: Mark, u: u32, rest: &[hb_glyph_info_t]) -> Option<u8>
    ensures { result ≡ action_on state mark u (map number_of rest.now) }
{
    match mark {
        Mark::NotMark => consonant_action(consonant_of(u), rest),
        Mark::AV | Mark::BV | Mark::T => mark_action(state, mark),
    }
}

fn consonant_action(consonant: Consonant, rest: &[hb_glyph_info_t]) -> Option<u8>
    ensures { result ≡ consonant_action consonant (map number_of rest.now) }
{
    match consonant {
        Consonant::RC if is_followed_below(rest) => Some(RD),
        _ => None,
    }
}

/// Whether a vowel below is among the marks that follow.
#[tactic(auto, using(crate::proofs::Shaped::none_passed, crate::proofs::Shaped::next_passed, crate::proofs::Shaped::tone_passed, crate::proofs::Shaped::passed_below, crate::proofs::Shaped::passed_other, crate::proofs::Shaped::passed_all))]
fn is_followed_below(rest: &[hb_glyph_info_t]) -> bool
    ensures { result ≡ is_followed_below (map number_of rest.now) }
{
    for at in 0..rest.len() {
        match mark_of(rest[at].glyph_id) {
            Mark::BV => return true,
            Mark::NotMark => return false,
            Mark::AV | Mark::T => {}
        }
    }
    false
}

fn mark_action(state: State, mark: Mark) -> Option<u8>
    ensures { result ≡ option_or (above_action state.above mark) (below_action state.below mark) }
{
    match above_action(state.above, mark) {
        Some(action) => Some(action),
        None => below_action(state.below, mark),
    }
}

fn above_action(above: Above, mark: Mark) -> Option<u8>
    ensures { result ≡ above_action above mark }
{
    match (above, mark) {
        (Above::T0, Mark::T) => Some(SD),
        (Above::T1, Mark::AV) | (Above::T2, Mark::T) => Some(SL),
        (Above::T1, Mark::T) => Some(SDL),
        _ => None,
    }
}

fn below_action(below: Below, mark: Mark) -> Option<u8>
    ensures { result ≡ below_action below mark }
{
    match (below, mark) {
        (Below::B2, Mark::BV) => Some(SD),
        _ => None,
    }
}

fn state_after(state: State, u: u32) -> State
    ensures { result ≡ state_after state u }
{
    let mark = mark_of(u);
    match mark {
        Mark::NotMark => start_state(consonant_of(u)),
        Mark::AV | Mark::BV | Mark::T => State {
            above: above_next(state.above, mark),
            below: below_next(state.below, mark),
        },
    }
}

fn above_next(above: Above, mark: Mark) -> Above
    ensures { result ≡ above_next above mark }
{
    match (above, mark) {
        (Above::T0 | Above::T2, Mark::AV | Mark::T) => Above::T3,
        (Above::T1, Mark::AV | Mark::T) => Above::T2,
        _ => above,
    }
}

fn below_next(below: Below, mark: Mark) -> Below
    ensures { result ≡ below_next below mark }
{
    match mark {
        Mark::BV => Below::B2,
        Mark::AV | Mark::T | Mark::NotMark => below,
    }
}

fn start_state(consonant: Consonant) -> State
    ensures { result ≡ start_state consonant }
{
    State {
        above: above_start(consonant),
        below: below_start(consonant),
    }
}

fn above_start(consonant: Consonant) -> Above
    ensures { result ≡ above_start consonant }
{
    match consonant {
        Consonant::NC | Consonant::RC | Consonant::DC => Above::T0,
        Consonant::AC => Above::T1,
        Consonant::NotConsonant => Above::T3,
    }
}

fn below_start(consonant: Consonant) -> Below
    ensures { result ≡ below_start consonant }
{
    match consonant {
        Consonant::NC | Consonant::AC => Below::B0,
        Consonant::RC => Below::B1,
        Consonant::DC | Consonant::NotConsonant => Below::B2,
    }
}

fn consonant_of(u: u32) -> Consonant
    ensures { result ≡ consonant_of u }
{
    match u {
        0x0E1B | 0x0E1D | 0x0E1F => Consonant::AC,
        0x0E0D | 0x0E10 => Consonant::RC,
        0x0E0E | 0x0E0F => Consonant::DC,
        0x0E01..=0x0E2E => Consonant::NC,
        _ => Consonant::NotConsonant,
    }
}

fn mark_of(u: u32) -> Mark
    ensures { result ≡ mark_of u }
{
    match u {
        0x0E31 | 0x0E34..=0x0E37 | 0x0E47 | 0x0E4D | 0x0E4E => Mark::AV,
        0x0E38..=0x0E3A => Mark::BV,
        0x0E48..=0x0E4C => Mark::T,
        _ => Mark::NotMark,
    }
}
