//! The search for a character of a Hangul text that doesn't stay as it is.
ghost use Rattle.std.specs.Prelude.{◌≡◌, length};
ghost use Rattle.buffer_glyphs.specs.Items.{strip};
ghost use Rattle.script_hangul.specs.Kept.{is_keep, is_kept, keeps_first};

use crate::actions::{Action, action_on};
use crate::hangul::character_in;
use crate::jamo::is_tone;
use buffer_glyphs::info::hb_glyph_info_t;
use layout_face::Face;

/// Whether each character stays as it is: none is a tone mark, and none is composed, decomposed or kept apart.
#[tactic(auto, using(crate::proofs::Unchanged::none_searched, crate::proofs::Unchanged::next_searched, crate::proofs::Unchanged::found_other, crate::proofs::Unchanged::all_searched))]
pub(crate) fn is_kept(face: &Face, glyphs: &[hb_glyph_info_t]) -> bool
    ensures { result ≡ is_kept face.now (strip glyphs.now) }
{
    for at in 0..glyphs.len() {
        if !keeps_first(face, &glyphs[at..]) {
            return false;
        }
    }
    true
}

/// Whether the first of the characters stays as it is.
#[tactic(auto, using(crate::proofs::Unchanged::kept_by))]
fn keeps_first(face: &Face, glyphs: &[hb_glyph_info_t]) -> bool
    ensures { result ≡ keeps_first face.now (strip glyphs.now) }
{
    match character_in(glyphs, 0) {
        Some(u) => {
            if is_tone(u) {
                return false;
            }
            let action = action_on(face, u, character_in(glyphs, 1), character_in(glyphs, 2));
            is_keep(action)
        }
        None => true,
    }
}

fn is_keep(action: Action) -> bool
    ensures { result ≡ is_keep action }
{
    matches!(action, Action::Keep(_))
}
