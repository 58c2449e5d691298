//! Characters that are mirrored in right-to-left text or have a vertical form, rotate_chars (rustybuzz:
//! hb/ot_shape.rs).
ghost use Rattle.std.specs.Prelude.{◌≡◌, ◌&&◌, not};
ghost use Rattle.std.specs.Int.RustNames.{bit_and};
ghost use Rattle.buffer_glyphs.specs.declared.info.TheConstants.{DEFINED};
ghost use Rattle.buffer_glyphs.specs.Items.{item_of};
ghost use Rattle.buffer_glyphs.specs.Origins.{origin_of};
ghost use Rattle.buffer_core.specs.Readings.{always};
ghost use Rattle.buffer_stages.specs.Ready.{IsReady};
ghost use Rattle.buffer_common.specs.Direction.{is_backward, is_vertical};
ghost use Rattle.buffer_stages.specs.Stages.{AreMapped, IsFollowed, with_items_mapped};
ghost use Rattle.shape_text.specs.Rotation.{glyph_with_mask, if_known, mapped_where, mirror_image, mirrored_item, with_rotated_characters, with_vertical_form, vertical_form};

use buffer_common::direction::Direction;
use buffer_core::buffer::hb_buffer_t;
use buffer_glyphs::info::{hb_glyph_info_t, hb_mask_t};
use buffer_stages::glyphs::map_glyphs;
use buffer_unicode_tables::{CharTablesExt, UnicodeTables};
use layout_face::Face;

/// What decides whether characters are mirrored or get vertical forms.
#[derive(Clone, Copy)]
pub struct Rotation {
    /// The direction that the text is to have.
    pub target_direction: Direction,
    /// The mask of the feature rtlm, which mirrors characters without a mirror image; it has no glyph flag.
    pub rtlm_mask: hb_mask_t,
    /// Whether the font has the feature vert.
    pub has_vert: bool,
}

/// Replaces each character by its mirror image where the direction is backward, and by its vertical form where it is
/// vertical and the font lacks the feature vert, each only if the font has that character (`rotate_chars`). A character
/// that is not mirrored gets the mask of rtlm. It takes no memory.
pub fn rotate_chars(
    rotation: Rotation,
    face: &Face,
    tables: &UnicodeTables,
    buffer: &mut hb_buffer_t,
)
    requires ready { IsReady buffer.old }
    requires flagless { bit_and rotation.rtlm_mask DEFINED ≡ 0 }
    ensures { IsFollowed
        (always (with_rotated_characters tables.now face.now rotation.target_direction rotation.rtlm_mask rotation.has_vert))
        buffer.old buffer.new }
{
    mirror_chars(rotation, face, tables, buffer);
    raise_chars(rotation, face, tables, buffer);
}

#[tactic(auto, using(crate::proofs::Rotated::where_none))]
fn mirror_chars(rotation: Rotation, face: &Face, tables: &UnicodeTables, buffer: &mut hb_buffer_t)
    requires ready { IsReady buffer.old }
    requires flagless { bit_and rotation.rtlm_mask DEFINED ≡ 0 }
    ensures { IsFollowed
        (always (mapped_where (is_backward rotation.target_direction)
        (mirrored_item tables.now face.now rotation.rtlm_mask)))
        buffer.old buffer.new }
{
    if rotation.target_direction.is_backward() {
        mirror_text(tables, face, rotation.rtlm_mask, buffer);
    }
}

/// Mirrors each character that has a mirror image, and gives the mask of rtlm to the others.
#[tactic(auto, using(buffer_stages::specs::Lemmas::Written::mapped_followed))]
fn mirror_text(tables: &UnicodeTables, face: &Face, mask: hb_mask_t, buffer: &mut hb_buffer_t)
    requires ready { IsReady buffer.old }
    requires flagless { bit_and mask DEFINED ≡ 0 }
    ensures { IsFollowed (always (with_items_mapped (mirrored_item tables.now face.now mask))) buffer.old buffer.new }
{
    // No cluster changes, so what is known of their order still holds.
    let known = buffer.known_order();
    mirror_each(tables, face, mask, buffer.info_slice_mut());
    buffer.keep_order(known);
}

fn mirror_each(tables: &UnicodeTables, face: &Face, mask: hb_mask_t, glyphs: &mut [hb_glyph_info_t])
    requires { bit_and mask DEFINED ≡ 0 }
    ensures { AreMapped (mirrored_item tables.now face.now mask) glyphs.old glyphs.new }
{
    for glyph in glyphs.iter_mut() {
        mirror(tables, face, mask, glyph);
    }
}

/// Puts a character's mirror image in its place, or adds the mask of rtlm. Most characters have no mirror image, and
/// aren't written where the font lacks the feature.
#[tactic(auto, using(buffer_stages::proofs::Lemmas::Masks::mask_above, std::proofs::lemmas::Nat::and_or_apart))]
fn mirror(tables: &UnicodeTables, face: &Face, mask: hb_mask_t, glyph: &mut hb_glyph_info_t)
    ensures item { item_of glyph.new ≡ mirrored_item tables.now face.now mask (item_of glyph.old) }
    ensures origin { bit_and mask DEFINED ≡ 0 → origin_of glyph.new ≡ origin_of glyph.old }
{
    match mirror_image(tables, face, glyph.glyph_id) {
        Some(image) => glyph.glyph_id = u32::from(image),
        None => add_mask(mask, glyph),
    }
}

#[tactic(auto, using(crate::proofs::Rotated::none_added))]
fn add_mask(mask: hb_mask_t, glyph: &mut hb_glyph_info_t)
    ensures { glyph.new ≡ glyph_with_mask mask glyph.old }
{
    if mask != 0 {
        glyph.mask |= mask;
    }
}

#[tactic(auto, using(crate::proofs::Rotated::where_none))]
fn raise_chars(rotation: Rotation, face: &Face, tables: &UnicodeTables, buffer: &mut hb_buffer_t)
    requires ready { IsReady buffer.old }
    ensures { IsFollowed
        (always (mapped_where (is_vertical rotation.target_direction && not rotation.has_vert)
        (with_vertical_form tables.now face.now)))
        buffer.old buffer.new }
{
    if raises_chars(rotation) {
        map_glyphs(buffer, |glyph| upright(tables, face, glyph));
    }
}

fn raises_chars(rotation: Rotation) -> bool
    ensures { result ≡ (is_vertical rotation.target_direction && not rotation.has_vert) }
{
    rotation.target_direction.is_vertical() && !rotation.has_vert
}

fn upright(tables: &UnicodeTables, face: &Face, glyph: &hb_glyph_info_t) -> hb_glyph_info_t
    ensures item { item_of result ≡ with_vertical_form tables.now face.now (item_of glyph.now) }
    ensures origin { origin_of result ≡ origin_of glyph.now }
{
    match vertical_form(tables, face, glyph.glyph_id) {
        Some(form) => hb_glyph_info_t {
            glyph_id: u32::from(form),
            ..*glyph
        },
        None => *glyph,
    }
}

fn mirror_image(tables: &UnicodeTables, face: &Face, number: u32) -> Option<char>
    ensures { result ≡ mirror_image tables.now face.now number }
{
    match char::from_u32(number) {
        Some(u) => if_known(face, u.mirrored(tables)),
        None => None,
    }
}

fn vertical_form(tables: &UnicodeTables, face: &Face, number: u32) -> Option<char>
    ensures { result ≡ vertical_form tables.now face.now number }
{
    match char::from_u32(number) {
        Some(u) => if_known(face, u.vertical(tables)),
        None => None,
    }
}

fn if_known(face: &Face, character: Option<char>) -> Option<char>
    ensures { result ≡ if_known face.now character }
{
    match character {
        Some(u) if face.has_glyph(u) => Some(u),
        _ => None,
    }
}
