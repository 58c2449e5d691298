//! The widths of spaces that the font lacks (rustybuzz: hb/ot_shape_fallback.rs).
//!
//! A stage on positions is a call, its walk by `map_positions`, and the rule for one glyph; all such stages have this
//! form.
ghost use Rattle.std.specs.Prelude.{◌≡◌, ◌<◌, ◌+◌, ◌*◌, ◌/◌, ◌^◌, ◌==◌, not, true};
ghost use Rattle.buffer_glyphs.specs.Items.{item_of};
ghost use Rattle.buffer_core.specs.Readings.{always};
ghost use Rattle.buffer_stages.specs.Ready.{IsDone, IsReady};
ghost use Rattle.std.specs.List.{list_any};
ghost use Rattle.shape_fallback.specs.Spaces.{digits, first_glyph, half, is_own_space, is_part_of_em, is_typed_space, of_found, of_glyph, of_length, position_with_advance, space_of_type, space_position, stops, with_spaces};

use crate::SEVERAL;
use buffer_common::direction::Direction;
use buffer_core::buffer::hb_buffer_t;
use buffer_glyphs::flags::GlyphPropsFlags;
use buffer_glyphs::info::hb_glyph_info_t;
use buffer_glyphs::position::GlyphPosition;
use buffer_properties::categories::is_space;
use buffer_stages::positions::map_positions;
use buffer_unicode::space::{
    NOT_SPACE, SPACE_4_EM_18, SPACE_EM, SPACE_EM_2, SPACE_EM_3, SPACE_EM_4, SPACE_EM_5, SPACE_EM_6,
    SPACE_EM_16, SPACE_FIGURE, SPACE_NARROW, SPACE_PUNCTUATION, space_t,
};
use layout_face::Face;

/// Sets the advance of each space of a fixed width, in font units along the line, for which the font has no glyph of
/// its own. It takes linear time and no memory.
#[tactic(auto, using(crate::proofs::Untouched::spaces_stay))]
pub fn _hb_ot_shape_fallback_spaces(face: &Face, buffer: &mut hb_buffer_t)
    requires { IsReady buffer.old }
    ensures { IsDone (always (with_spaces face.now)) buffer.old buffer.new }
{
    // The normalizer gives a type to a space that the font lacks, which is rare.
    if has_typed_space(buffer.info_slice()) {
        adjust_spaces(face, buffer);
    }
}

/// Whether one of the characters is a space with a type.
#[tactic(auto, using(crate::proofs::Untouched::no_typed_space))]
fn has_typed_space(glyphs: &[hb_glyph_info_t]) -> bool
    ensures { result ≡ list_any (λ g. is_typed_space (item_of g)) glyphs.now }
{
    if !has_class(glyphs) {
        return false;
    }
    glyphs.iter().any(|glyph| is_typed_space(glyph))
}

/// Whether one of the characters has a class, as marks and spaces with a type have.
fn has_class(glyphs: &[hb_glyph_info_t]) -> bool
    ensures { result ≡ list_any (λ g. not (g.modified_combining_class == 0)) glyphs.now }
{
    if glyphs.len() < SEVERAL {
        return glyphs
            .iter()
            .any(|glyph| glyph.modified_combining_class != NOT_SPACE);
    }
    let mut any = false;
    for glyph in glyphs {
        any |= glyph.modified_combining_class != NOT_SPACE;
    }
    any
}

fn is_typed_space(glyph: &hb_glyph_info_t) -> bool
    ensures { result ≡ is_typed_space (item_of glyph.now) }
{
    glyph.modified_combining_class != NOT_SPACE && is_own_space(glyph)
}

fn adjust_spaces(face: &Face, buffer: &mut hb_buffer_t)
    requires { IsReady buffer.old }
    ensures { IsDone (always (with_spaces face.now)) buffer.old buffer.new }
{
    let direction = buffer.direction();
    map_positions(
        buffer,
        |glyph, position| space_position(direction, face, glyph, position),
    );
}

fn space_position(
    direction: Direction,
    face: &Face,
    glyph: &hb_glyph_info_t,
    position: GlyphPosition,
) -> GlyphPosition
    ensures { result ≡ space_position direction face.now (item_of glyph.now) position }
{
    if is_own_space(glyph) {
        spaced(direction, face, glyph.modified_combining_class, position)
    } else {
        position
    }
}

fn is_own_space(glyph: &hb_glyph_info_t) -> bool
    ensures { result ≡ is_own_space (item_of glyph.now) }
{
    is_space(glyph) && glyph.glyph_props.0 & GlyphPropsFlags::LIGATED.0 == 0
}

fn spaced(
    direction: Direction,
    face: &Face,
    space: space_t,
    position: GlyphPosition,
) -> GlyphPosition
    ensures { result ≡ space_of_type direction face.now space position }
{
    if is_part_of_em(space) {
        return of_length(direction, part_of_em(face, space), position);
    }
    match space {
        SPACE_4_EM_18 => of_length(direction, four_eighteenths(face), position),
        SPACE_FIGURE => of_found(direction, face, first_glyph(&DIGITS, face), position),
        SPACE_PUNCTUATION => of_found(direction, face, first_glyph(&STOPS, face), position),
        SPACE_NARROW => half(direction, position),
        _ => position,
    }
}

fn is_part_of_em(space: space_t) -> bool
    ensures { result ≡ is_part_of_em space }
{
    matches!(
        space,
        SPACE_EM | SPACE_EM_2 | SPACE_EM_3 | SPACE_EM_4 | SPACE_EM_5 | SPACE_EM_6 | SPACE_EM_16
    )
}

/// A fraction of an em, rounded.
#[tactic(auto, using(crate::proofs::Parts::part_positive, crate::proofs::Parts::part_small))]
fn part_of_em(face: &Face, part: space_t) -> u32
    requires { is_part_of_em part ≡ true }
    ensures value { result ≡ (face.now.upem + part / 2) / part }
    ensures small { result < 2 ^ 31 }
{
    let part = u32::from(part);
    (face.units_per_em().unsigned_abs() + part / 2) / part
}

fn four_eighteenths(face: &Face) -> u32
    ensures value { result ≡ face.now.upem * 4 / 18 }
    ensures small { result < 2 ^ 31 }
{
    let em = u64::from(face.units_per_em().unsigned_abs());
    (em * 4 / 18) as u32
}

const DIGITS: [char; 10] = ['0', '1', '2', '3', '4', '5', '6', '7', '8', '9'];

const STOPS: [char; 2] = ['.', ','];

/// The glyph of the first character of a list that the font has.
fn first_glyph(characters: &[char], face: &Face) -> Option<u16>
    ensures { result ≡ first_glyph characters.now face.now }
{
    for c in characters {
        if let Some(glyph) = face.get_nominal_glyph(*c) {
            return Some(glyph);
        }
    }
    None
}

fn of_found(
    direction: Direction,
    face: &Face,
    glyph: Option<u16>,
    position: GlyphPosition,
) -> GlyphPosition
    ensures { result ≡ of_found direction face.now glyph position }
{
    match glyph {
        Some(glyph) => of_glyph(direction, face, glyph, position),
        None => position,
    }
}

fn of_glyph(direction: Direction, face: &Face, glyph: u16, position: GlyphPosition) -> GlyphPosition
    ensures { result ≡ of_glyph direction face.now glyph position }
{
    let advance = if direction.is_horizontal() {
        face.glyph_h_advance(glyph)
    } else {
        face.glyph_v_advance(glyph)
    };
    advanced(direction, advance, position)
}

fn of_length(direction: Direction, length: u32, position: GlyphPosition) -> GlyphPosition
    requires { length < 2 ^ 31 }
    ensures { result ≡ of_length direction length position }
{
    let length = length as i32;
    let advance = if direction.is_horizontal() {
        length
    } else {
        -length
    };
    advanced(direction, advance, position)
}

fn half(direction: Direction, position: GlyphPosition) -> GlyphPosition
    ensures { result ≡ half direction position }
{
    let advance = if direction.is_horizontal() {
        position.x_advance / 2
    } else {
        position.y_advance / 2
    };
    advanced(direction, advance, position)
}

fn advanced(direction: Direction, advance: i32, position: GlyphPosition) -> GlyphPosition
    ensures { result ≡ position_with_advance direction advance position }
{
    if direction.is_horizontal() {
        GlyphPosition {
            x_advance: advance,
            ..position
        }
    } else {
        GlyphPosition {
            y_advance: advance,
            ..position
        }
    }
}
