//! Advances that a client gives a font's glyphs, as it measures them at a size.
ghost use Rattle.std.specs.Prelude.{◌≡◌, ◌≢◌, ◌<◌, [], ◌∷◌, IsTrue, IsFalse};
ghost use Rattle.std.specs.Arc.{arc_value};
ghost use Rattle.c_text.specs.Advances.{advance_refusal, advances_refusal, has_advance, with_advances};

use crate::numbers::{ADVANCE_RANGE, NO_GLYPH, OK};
use crate::types::kus_glyph_advance_t;
use layout_common::glyph_row::find_value;
use layout_face::Face;
use std::alloc::Global;
use std::sync::Arc;

/// Whether a font has an advance of a glyph.
fn has_advance(face: &Face, glyph: u32) -> bool
    ensures { result ≡ has_advance face.now glyph }
{
    let Ok(glyph) = u16::try_from(glyph) else {
        return false;
    };
    find_value(&face.parts().h, glyph).is_some()
}

/// Why an advance isn't taken: `NO_GLYPH` or `ADVANCE_RANGE`; `OK` where it is.
fn advance_refusal(face: &Face, given: &kus_glyph_advance_t) -> u32
    ensures refusal { result ≡ advance_refusal face.now given.now }
    ensures unshared { result ≢ 26 }
{
    if !has_advance(face, given.glyph) {
        return NO_GLYPH;
    }
    if given.advance > 65535 {
        return ADVANCE_RANGE;
    }
    OK
}

/// Why a list isn't taken, by its first advance that isn't; `OK` where each is.
pub fn advances_refusal(face: &Face, given: &[kus_glyph_advance_t]) -> u32
    ensures refusal { result ≡ advances_refusal face.now given.now }
    ensures unshared { result ≢ 26 }
{
    for one in given {
        let refusal = advance_refusal(face, one);
        if refusal != OK {
            return refusal;
        }
    }
    OK
}

/// Sets an advance.
#[tactic(auto, using(crate::proofs::Advancing::one_set))]
fn set_advance(face: &mut Face, given: &kus_glyph_advance_t)
    requires glyph { given.now.glyph < 65536 }
    requires advance { given.now.advance < 65536 }
    ensures { face.new ≡ with_advances (given.now ∷ []) face.old }
{
    let _had = face.set_glyph_h_advance(given.glyph as u16, given.advance as u16);
}

/// Sets the advances of a list that is taken.
#[tactic(auto, using(crate::proofs::Advancing::taken_next, crate::proofs::Advancing::taken_fits))]
fn set_advances(face: &mut Face, given: &[kus_glyph_advance_t])
    requires { advances_refusal face.old given.now ≡ 0 }
    ensures { face.new ≡ with_advances given.now face.old }
{
    for one in given {
        set_advance(face, one);
    }
}

/// Sets the advances of a list that is taken, where a font has no other handle; whether it hasn't.
pub fn set_own_advances(face: &mut Arc<Face, Global>, given: &[kus_glyph_advance_t]) -> bool
    requires { advances_refusal (arc_value face.old) given.now ≡ 0 }
    ensures own { IsTrue result → arc_value face.new ≡ with_advances given.now (arc_value face.old) }
    ensures shared { IsFalse result → arc_value face.new ≡ arc_value face.old }
{
    match Arc::get_mut(face) {
        Some(face) => {
            set_advances(face, given);
            true
        }
        None => false,
    }
}
