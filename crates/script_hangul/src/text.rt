//! The Hangul shaper's preprocess_text as a stage of the settings that a text's rules may read (rustybuzz:
//! hb/ot_shaper_hangul.rs, `preprocess_text_hangul`).
ghost use Rattle.buffer_stages.specs.Ready.{IsReady};
ghost use Rattle.buffer_stages.specs.Settings.{text_settings};
ghost use Rattle.buffer_stages.specs.Stages.{DoesStage};
ghost use Rattle.script_hangul.specs.Hangul.{hangul_text};

use crate::hangul;
use buffer_core::buffer::hb_buffer_t;
use buffer_glyphs::cause::ShapeCause;
use layout_face::Face;

/// Composes or decomposes syllables as the font requires, and moves tone marks (`preprocess_text`).
///
/// # Errors
///
/// `TooLong` where the text would have more characters than the buffer may hold, or lack of memory.
pub fn preprocess_text(face: &Face, buffer: &mut hb_buffer_t) -> Result<(), ShapeCause>
    requires ready { IsReady buffer.old }
    ensures { DoesStage (hangul_text face.now (text_settings buffer.old).flags) result buffer.old buffer.new }
{
    hangul::preprocess_text(face, buffer)
}
