//! Glyphs that a client gives a font's characters and variation sequences, by its own character map.
ghost use Rattle.std.specs.Prelude.{◌≡◌, OnErr, OnOk, Ok, IsTrue, true, false};
ghost use Rattle.std.specs.Arc.{arc_value};
ghost use lib.Utf8.{scalar};
ghost use Rattle.c_text.specs.CharacterGlyphs.{AreSetAtFront, glyph_numbered, glyph_refusal, glyphs_refusal, is_glyph_or_none, with_glyph, with_glyphs};

use crate::numbers::{CODEPOINT_INVALID, NO_CHARACTER, NO_GLYPH, OK};
use crate::types::kus_character_glyph_t;
use layout_face::Face;
use std::alloc::{AllocError, Global};
use std::sync::Arc;

/// The glyph of a number, none for one past 16 bits.
fn glyph_numbered(number: u32) -> Option<u16>
    ensures { result ≡ glyph_numbered number }
{
    match u16::try_from(number) {
        Ok(glyph) => Some(glyph),
        Err(_) => None,
    }
}

/// Whether a number is a character's.
fn is_scalar(number: u32) -> bool
    ensures { result ≡ scalar number }
{
    char::from_u32(number).is_some()
}

/// Whether a number is a glyph's, or says that there is none.
fn is_glyph_or_none(number: u32) -> bool
    ensures { result ≡ is_glyph_or_none number }
{
    number < 65536 || number == CODEPOINT_INVALID
}

/// Why a glyph isn't taken: `NO_CHARACTER` or `NO_GLYPH`; `OK` where it is.
fn glyph_refusal(given: &kus_character_glyph_t) -> u32
    ensures { result ≡ glyph_refusal given.now }
{
    if !is_scalar(given.character) || !is_scalar(given.selector) {
        return NO_CHARACTER;
    }
    if !is_glyph_or_none(given.glyph) {
        return NO_GLYPH;
    }
    OK
}

/// Why a list isn't taken, by its first glyph that isn't; `OK` where each is.
pub fn glyphs_refusal(given: &[kus_character_glyph_t]) -> u32
    ensures { result ≡ glyphs_refusal given.now }
{
    for one in given {
        let refusal = glyph_refusal(one);
        if refusal != OK {
            return refusal;
        }
    }
    OK
}

/// Sets the glyph of a character, or of a variation sequence. For want of memory the font stays as it was.
fn set_glyph(face: &mut Face, given: &kus_character_glyph_t) -> Result<(), AllocError>
    requires character { scalar given.now.character ≡ true }
    requires selector { scalar given.now.selector ≡ true }
    ensures set { OnOk result (face.new ≡ with_glyph given.now face.old) }
    ensures kept { OnErr result (face.new ≡ face.old) }
{
    let character = char::from_u32(given.character).unwrap();
    let selector = char::from_u32(given.selector).unwrap();
    let glyph = glyph_numbered(given.glyph);
    if given.selector == 0 {
        face.set_nominal_glyph(character, glyph)
    } else {
        face.set_variation_glyph(character, selector, glyph)
    }
}

/// Sets the glyphs of a list that is taken, one after another; for want of memory those before the first one for which there
/// is none.
#[tactic(auto, using(crate::proofs::SettingGlyphs::taken_next, crate::proofs::SettingGlyphs::taken_scalars))]
fn set_each(face: &mut Face, given: &[kus_character_glyph_t]) -> Result<(), AllocError>
    requires { glyphs_refusal given.now ≡ 0 }
    ensures set { OnOk result (face.new ≡ with_glyphs given.now face.old) }
    ensures front { OnErr result (AreSetAtFront given.now face.old face.new) }
{
    for one in given {
        set_glyph(face, one)?;
    }
    Ok(())
}

/// The same, and indexes the font's characters again.
fn set_glyphs(
    alloc: Global,
    face: &mut Face,
    given: &[kus_character_glyph_t],
) -> Result<(), AllocError>
    requires { glyphs_refusal given.now ≡ 0 }
    ensures set { OnOk result (face.new ≡ with_glyphs given.now face.old) }
    ensures front { OnErr result (AreSetAtFront given.now face.old face.new) }
{
    let set = set_each(face, given);
    // Without an index characters are found by binary search.
    let _indexed = face.index_characters(alloc);
    set
}

/// Sets the glyphs of a list that is taken, where a font has no other handle; whether it hasn't. For want of memory those at
/// the front are set.
pub fn set_own_glyphs(
    alloc: Global,
    face: &mut Arc<Face, Global>,
    given: &[kus_character_glyph_t],
) -> Result<bool, AllocError>
    requires { glyphs_refusal given.now ≡ 0 }
    ensures own { result ≡ Ok true → arc_value face.new ≡ with_glyphs given.now (arc_value face.old) }
    ensures shared { result ≡ Ok false → arc_value face.new ≡ arc_value face.old }
    ensures front { OnErr result (AreSetAtFront given.now (arc_value face.old) (arc_value face.new)) }
{
    match Arc::get_mut(face) {
        Some(face) => {
            set_glyphs(alloc, face, given)?;
            Ok(true)
        }
        None => Ok(false),
    }
}
