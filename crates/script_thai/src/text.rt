//! The Thai shaper's preprocess_text, before the text is normalized (rustybuzz: hb/ot_shaper_thai.rs).
ghost use Rattle.std.specs.Prelude.{◌≡◌};
ghost use Rattle.buffer_stages.specs.Ready.{IsReady};
ghost use Rattle.buffer_stages.specs.Stages.{DoesStage, IsFollowed};
ghost use Rattle.script_thai.specs.Texts.{has_private_forms, is_thai, private_if, thai_text};

use crate::thai_private::shape_private;
use crate::thai_vowel;
use buffer_common::script::{Script, THAI};
use buffer_core::buffer::hb_buffer_t;
use buffer_glyphs::cause::ShapeCause;
use buffer_unicode_tables::UnicodeTables;
use layout_face::Face;
use layout_map::map::hb_ot_map_t;
use layout_map_features::per_table::TableIndex;

fn is_thai(script: Option<Script>) -> bool
    ensures { result ≡ is_thai script }
{
    match script {
        Some(script) => script == THAI,
        None => false,
    }
}

fn has_private_forms(map: &hb_ot_map_t, script: Option<Script>) -> bool
    ensures { result ≡ has_private_forms map.now script }
{
    is_thai(script) && !map.found_script(TableIndex::GSUB)
}

#[tactic(auto, using(crate::proofs::PrivateForms::private_followed, crate::proofs::PrivateForms::no_private))]
fn take_private_forms(
    map: &hb_ot_map_t,
    script: Option<Script>,
    face: &Face,
    tables: &UnicodeTables,
    buffer: &mut hb_buffer_t,
)
    requires ready { IsReady buffer.old }
    ensures { IsFollowed (private_if (has_private_forms map.now script) tables.now face.now) buffer.old buffer.new }
{
    if has_private_forms(map, script) {
        shape_private(face, tables, buffer);
    }
}

/// Changes a text's characters before they are normalized (`preprocess_text`): SARA AM of Thai and AM of Lao are
/// decomposed; Thai marks get private-use forms where the font has no GSUB script for Thai.
///
/// # Errors
///
/// `TooLong` where the text would have more characters than the buffer may hold, or lack of memory.
#[tactic(auto, using(script_syllabic::proofs::Quiet::followed_then, buffer_core::specs::Steps::refused_first))]
pub fn preprocess_text(
    map: &hb_ot_map_t,
    script: Option<Script>,
    face: &Face,
    tables: &UnicodeTables,
    buffer: &mut hb_buffer_t,
) -> Result<(), ShapeCause>
    requires ready { IsReady buffer.old }
    ensures { DoesStage (thai_text map.now script tables.now face.now) result buffer.old buffer.new }
{
    thai_vowel::preprocess_text(buffer)?;
    take_private_forms(map, script, face, tables, buffer);
    Ok(())
}
