//! The two pauses of the Indic shaper (rustybuzz: hb/ot_shaper_indic.rs).
ghost use Rattle.std.specs.Prelude.{◌≡◌, false, length, nat_lt, Ok, IfOk};
ghost use Rattle.buffer_core.specs.Sides.{items_of};
ghost use Rattle.buffer_stages.specs.Pauses.{BringsNoGlyph};
ghost use Rattle.buffer_stages.specs.Ready.{DoesGlyphStage, IsReady, HoldsGlyphs};
ghost use Rattle.buffer_stages.specs.Settings.{text_settings};
ghost use Rattle.script_indic_reordering.specs.Orders.{initial_syllable};
ghost use Rattle.script_syllabic.specs.Quiet.{IsQuiet};
ghost use Rattle.script_indic.specs.Reordering.{circles_order, consonants_updated, indic_final, indic_initial, initial_stage, virama_glyph};

use crate::config::indic_config;
use crate::font_forms::FontForms;
use crate::masks::indic_masks;
use buffer_common::script::Script;
use buffer_core::buffer::hb_buffer_t;
use buffer_glyphs::cause::ShapeCause;
use layout_face::Face;
use layout_map::map::hb_ot_map_t;
use script_categories::ot_category_t::{OT_DOTTEDCIRCLE, OT_Repha};
use script_categories::ot_position_t::POS_END;
use script_categories::syllable_kinds::indic::BROKEN_CLUSTER;
use script_indic_reordering::consonants::update_consonant_positions;
use script_indic_reordering::final_order::reorder_final;
use script_indic_reordering::forms::IndicForms;
use script_indic_reordering::initial::reorder_initial;
use script_indic_reordering::script::{IndicMasks, RephMode};
use script_syllabic::circles::insert_dotted_circles;
use std::alloc::Global;

/// Reorders the syllables of a text before their forms are made (`initial_reordering`), by the forms and masks of a map
/// and the values of the text's script. Returns whether dotted circles were inserted.
///
/// # Errors
///
/// `TooLong` where the text would have more glyphs than the buffer may hold, or lack of memory.
pub fn initial_reordering(
    alloc: Global,
    map: &hb_ot_map_t,
    script: Option<Script>,
    face: &Face,
    buffer: &mut hb_buffer_t,
) -> Result<bool, ShapeCause>
    requires glyphs { HoldsGlyphs buffer.old }
    ensures stage { DoesGlyphStage (indic_initial map.now script face.now (text_settings buffer.old).flags) result
        buffer.old buffer.new }
    ensures longer { IfOk result (λ inserted. inserted ≡ nat_lt (length (items_of buffer.old)) (length (items_of buffer.new))) }
    ensures brings_none { result ≡ Ok false → BringsNoGlyph (items_of buffer.old) (items_of buffer.new) }
{
    let config = indic_config(script);
    let forms = FontForms::new(map, face, config.zero_context);
    let masks = indic_masks(map, config.blwf_mode);
    let virama = virama_glyph(face, config.virama);
    reorder_initially(
        alloc,
        face,
        &forms,
        virama,
        config.reph_mode,
        &masks,
        buffer,
    )
}

/// The glyph of a script's virama.
fn virama_glyph(face: &Face, virama: Option<char>) -> Option<u32>
    ensures { result ≡ virama_glyph virama face.now }
{
    let glyph = face.get_nominal_glyph(virama?)?;
    Some(u32::from(glyph))
}

/// Gives consonants the positions of their forms with a virama, inserts a dotted circle into each broken syllable, and
/// reorders each syllable (`reorder_initial`). Returns whether circles were inserted.
///
/// # Errors
///
/// `TooLong` where the text would have more glyphs than the buffer may hold, or lack of memory.
pub fn reorder_initially<F: IndicForms>(
    alloc: Global,
    face: &Face,
    forms: &F,
    virama: Option<u32>,
    mode: RephMode,
    masks: &IndicMasks,
    buffer: &mut hb_buffer_t,
) -> Result<bool, ShapeCause>
    requires glyphs { HoldsGlyphs buffer.old }
    ensures stage { DoesGlyphStage
        (initial_stage face.now (text_settings buffer.old).flags (F.forms_of forms.now) virama mode masks.now) result
        buffer.old buffer.new }
    ensures longer { IfOk result (λ inserted. inserted ≡ nat_lt (length (items_of buffer.old)) (length (items_of buffer.new))) }
    ensures brings_none { result ≡ Ok false → BringsNoGlyph (items_of buffer.old) (items_of buffer.new) }
{
    update_positions(forms, virama, buffer);
    insert_and_reorder(alloc, face, forms, mode, masks, buffer)
}

fn update_positions<F: IndicForms>(forms: &F, virama: Option<u32>, buffer: &mut hb_buffer_t)
    requires { IsReady buffer.old }
    ensures { IsQuiet (consonants_updated (F.forms_of forms.now) virama) buffer.old buffer.new }
{
    if let Some(virama) = virama {
        update_consonant_positions(forms, virama, buffer);
    }
}

fn insert_and_reorder<F: IndicForms>(
    alloc: Global,
    face: &Face,
    forms: &F,
    mode: RephMode,
    masks: &IndicMasks,
    buffer: &mut hb_buffer_t,
) -> Result<bool, ShapeCause>
    requires glyphs { HoldsGlyphs buffer.old }
    ensures stage { DoesGlyphStage
        (circles_order face.now (text_settings buffer.old).flags (initial_syllable mode masks.now (F.forms_of forms.now)))
        result buffer.old buffer.new }
    ensures longer { IfOk result (λ inserted. inserted ≡ nat_lt (length (items_of buffer.old)) (length (items_of buffer.new))) }
    ensures brings_none { result ≡ Ok false → BringsNoGlyph (items_of buffer.old) (items_of buffer.new) }
{
    let inserted = insert_dotted_circles(
        face,
        buffer,
        BROKEN_CLUSTER,
        OT_DOTTEDCIRCLE,
        Some(OT_Repha),
        Some(POS_END),
    )?;
    reorder_initial(alloc, forms, mode, masks, buffer)?;
    Ok(inserted)
}

/// Reorders the syllables of a text once their forms are made (`final_reordering`), by the masks of a map and the values
/// of the text's script. Returns false: no glyph is inserted.
///
/// # Errors
///
/// Lack of memory.
pub fn final_reordering(
    map: &hb_ot_map_t,
    script: Option<Script>,
    buffer: &mut hb_buffer_t,
) -> Result<bool, ShapeCause>
    requires { IsReady buffer.old }
    ensures stage { DoesGlyphStage (indic_final map.now script) result buffer.old buffer.new }
    ensures inserts_none { IfOk result (λ inserted. inserted ≡ false) }
    ensures brings_none { result ≡ Ok false → BringsNoGlyph (items_of buffer.old) (items_of buffer.new) }
{
    let config = indic_config(script);
    let masks = indic_masks(map, config.blwf_mode);
    reorder_final(config.reph_pos, &masks, buffer)?;
    Ok(false)
}
