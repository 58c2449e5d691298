//! Characters that are appended to a buffer.
ghost use Rattle.std.specs.Prelude.{true, Ok, ◌≡◌, ◌&&◌, ◌∷◌, [], nat_le, IfOk};
ghost use Rattle.buffer_core.specs.Sides.{has_room, with_added};
ghost use Rattle.buffer_core.specs.Text.{added_glyph};
ghost use Rattle.buffer_wrappers.specs.Wrappers.{IsText};
ghost use Rattle.c_characters.specs.Characters.{characters_of};
ghost use Rattle.c_characters.specs.Texts.{added_characters, fits_characters};

use crate::characters::Encoding;
use buffer_core::buffer::hb_buffer_t;
use std::alloc::AllocError;

/// Appends the characters of a text, each in its cluster, to a buffer that holds characters alone. Answers false where
/// there are more than there may be, or the number of a cluster is above `u32::MAX`; the buffer then has some of them.
#[tactic(auto, using(crate::proofs::Pushed::all_added, crate::proofs::Pushed::added_step, crate::proofs::Pushed::none_left_fits, crate::proofs::Pushed::fits_step, crate::proofs::Pushed::no_fit))]
pub fn push_characters(
    buffer: &mut hb_buffer_t,
    encoding: Encoding,
    bytes: &[u8],
) -> Result<bool, AllocError>
    requires { IsText buffer.old }
    ensures held { IfOk result (λ b. b ≡ fits_characters (characters_of encoding bytes.now) buffer.old) }
    ensures added { result ≡ Ok true → buffer.new
        ≡ with_added (added_characters (characters_of encoding bytes.now)) buffer.old }
    ensures text { IsText buffer.new }
{
    let mut at = 0;
    let mut rest = bytes;
    'characters: while let Some(first) = encoding.first(at, rest) {
        if !push_character(buffer, first.character, first.cluster)? {
            return Ok(false);
        }
        at = first.after;
        rest = first.rest;
    }
    // There is room for no more glyphs: a buffer never has more than it may.
    let _end = buffer.len();
    Ok(true)
}

/// Appends a character to a buffer that holds characters alone; answers false, and appends none, where it may have no
/// more or the cluster's number is above `u32::MAX`.
#[tactic(auto, using(buffer_wrappers::proofs::Characters::one_character, buffer_wrappers::proofs::Characters::text_grown))]
fn push_character(
    buffer: &mut hb_buffer_t,
    character: char,
    cluster: usize,
) -> Result<bool, AllocError>
    requires { IsText buffer.old }
    ensures held { IfOk result (λ b. b ≡ (nat_le cluster 0xFFFF_FFFF && has_room 1 buffer.old)) }
    ensures added { result ≡ Ok true → buffer.new ≡ with_added (added_glyph character cluster ∷ []) buffer.old }
    ensures text { IsText buffer.new }
{
    if cluster > u32::MAX as usize {
        return Ok(false);
    }
    buffer.add(character, cluster as u32)
}
