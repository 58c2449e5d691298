//! The pauses of the universal shaper (rustybuzz: hb/ot_shaper_use.rs).
ghost use Rattle.std.specs.Prelude.{◌≡◌, ◌≢◌, false, codes, length, nat_lt, Ok, Err, IfOk, IfErr, OnOk};
ghost use Rattle.buffer_core.specs.Readings.{reading_of};
ghost use Rattle.buffer_core.specs.Sides.{items_of, state_of};
ghost use Rattle.buffer_stages.specs.Ready.{DoesGlyphStage, IsDone, IsReady, HoldsGlyphs};
ghost use Rattle.buffer_stages.specs.Pauses.{BringsNoGlyph};
ghost use Rattle.buffer_stages.specs.Settings.{text_settings};
ghost use Rattle.layout_map.specs.Masks.{mask_at_one};
ghost use Rattle.script_syllabic.specs.Features.{pref_recorded, rphf_recorded};
ghost use Rattle.script_syllabic.specs.Quiet.{IsQuiet};
ghost use Rattle.script_syllabic.specs.Syllables.{syllables_by};
ghost use Rattle.script_universal.specs.Masks.{form_masks};
ghost use Rattle.script_universal.specs.Pauses.{forms_set, universal_order, universal_syllables_set};

use crate::masks::{form_masks, rphf_mask};
use crate::reorder;
use buffer_common::script::Script;
use buffer_core::buffer::hb_buffer_t;
use buffer_glyphs::cause::ShapeCause;
use buffer_glyphs::info::hb_mask_t;
use layout_face::Face;
use layout_map::map::hb_ot_map_t;
use script_categories::SyllableSpans;
use script_categories::category::{B, R};
use script_categories::syllable_kinds::universal::BROKEN_CLUSTER;
use script_syllabic::circles::insert_dotted_circles;
use script_syllabic::forms::{FormMasks, setup_topographical_masks};
use script_syllabic::recording;
use script_syllabic::rphf::setup_rphf_mask;
use script_syllabic::spans::find_syllables;
use std::alloc::Global;

/// Sets the syllable byte of each glyph, flags each syllable as unsafe to break, and adds the map's masks of rphf and,
/// where the script's letters don't join, of the topographical forms (`setup_syllables`). Returns false: no glyph is
/// inserted.
///
/// # Errors
///
/// `UnknownSyllableKind` where the spans name a kind that the shaper does not have, or lack of memory.
pub fn setup_syllables<S: SyllableSpans>(
    alloc: Global,
    spans: &S,
    map: &hb_ot_map_t,
    script: Option<Script>,
    buffer: &mut hb_buffer_t,
) -> Result<bool, ShapeCause>
    requires ready { IsReady buffer.old }
    ensures stage { DoesGlyphStage (universal_syllables_set (S.span_of spans.now) (mask_at_one (codes "rphf") map.now)
        (form_masks map.now script)) result buffer.old buffer.new }
    ensures inserts_none { IfOk result (λ inserted. inserted ≡ false) }
    ensures brings_none { result ≡ Ok false → BringsNoGlyph (items_of buffer.old) (items_of buffer.new) }
{
    let rphf = rphf_mask(map);
    let forms = form_masks(map, script);
    setup_with(alloc, spans, rphf, forms, buffer)
}

fn setup_with<S: SyllableSpans>(
    alloc: Global,
    spans: &S,
    rphf_mask: hb_mask_t,
    forms: Option<FormMasks>,
    buffer: &mut hb_buffer_t,
) -> Result<bool, ShapeCause>
    requires ready { IsReady buffer.old }
    ensures stage { DoesGlyphStage (universal_syllables_set (S.span_of spans.now) rphf_mask forms) result buffer.old
        buffer.new }
    ensures inserts_none { IfOk result (λ inserted. inserted ≡ false) }
    ensures brings_none { result ≡ Ok false → BringsNoGlyph (items_of buffer.old) (items_of buffer.new) }
{
    set_up(alloc, spans, rphf_mask, forms, buffer)?;
    Ok(false)
}

fn set_up<S: SyllableSpans>(
    alloc: Global,
    spans: &S,
    rphf_mask: hb_mask_t,
    forms: Option<FormMasks>,
    buffer: &mut hb_buffer_t,
) -> Result<(), ShapeCause>
    requires ready { IsReady buffer.old }
    ensures ok { OnOk result
        (IsQuiet (universal_syllables_set (S.span_of spans.now) rphf_mask forms) buffer.old buffer.new) }
    ensures err { IfErr result (λ e. e ≢ ShapeCause.OutOfMemory
        → reading_of (universal_syllables_set (S.span_of spans.now) rphf_mask forms) (state_of buffer.old) ≡ Err e) }
{
    find_syllables(alloc, spans, buffer)?;
    setup_rphf_mask(rphf_mask, buffer)?;
    setup_forms(forms, buffer);
    Ok(())
}

#[tactic(auto, using(script_syllabic::proofs::Quiet::quiet_same, script_syllabic::proofs::QuietRules::forms_quiet))]
fn setup_forms(forms: Option<FormMasks>, buffer: &mut hb_buffer_t)
    requires ready { IsReady buffer.old }
    ensures { IsQuiet (forms_set forms) buffer.old buffer.new }
{
    if let Some(masks) = forms {
        setup_topographical_masks(&masks, buffer);
    }
}

/// Sets category R on the first substituted glyph of each syllable, if it and all glyphs before it have the map's mask of
/// rphf (`record_rphf`). Returns false.
///
/// # Errors
///
/// Lack of memory.
pub fn record_rphf(map: &hb_ot_map_t, buffer: &mut hb_buffer_t) -> Result<bool, ShapeCause>
    requires ready { IsReady buffer.old }
    ensures ok { OnOk result (IsDone (syllables_by (rphf_recorded (mask_at_one (codes "rphf") map.now))) buffer.old
        buffer.new) }
    ensures inserts_none { IfOk result (λ inserted. inserted ≡ false) }
    ensures brings_none { result ≡ Ok false → BringsNoGlyph (items_of buffer.old) (items_of buffer.new) }
    ensures err { IfErr result (λ e. e ≡ ShapeCause.OutOfMemory) }
{
    let mask = rphf_mask(map);
    record_with(mask, buffer)
}

fn record_with(mask: hb_mask_t, buffer: &mut hb_buffer_t) -> Result<bool, ShapeCause>
    requires ready { IsReady buffer.old }
    ensures ok { OnOk result (IsDone (syllables_by (rphf_recorded mask)) buffer.old buffer.new) }
    ensures inserts_none { IfOk result (λ inserted. inserted ≡ false) }
    ensures brings_none { result ≡ Ok false → BringsNoGlyph (items_of buffer.old) (items_of buffer.new) }
    ensures err { IfErr result (λ e. e ≡ ShapeCause.OutOfMemory) }
{
    recording::record_rphf(mask, buffer)?;
    Ok(false)
}

/// Sets category VPre on the first substituted glyph of each syllable (`record_pref`). Returns false.
///
/// # Errors
///
/// Lack of memory.
pub fn record_pref(buffer: &mut hb_buffer_t) -> Result<bool, ShapeCause>
    requires ready { IsReady buffer.old }
    ensures ok { OnOk result (IsDone (syllables_by pref_recorded) buffer.old buffer.new) }
    ensures inserts_none { IfOk result (λ inserted. inserted ≡ false) }
    ensures brings_none { result ≡ Ok false → BringsNoGlyph (items_of buffer.old) (items_of buffer.new) }
    ensures err { IfErr result (λ e. e ≡ ShapeCause.OutOfMemory) }
{
    recording::record_pref(buffer)?;
    Ok(false)
}

/// Inserts a dotted circle into each broken syllable, and reorders each syllable (`reorder`). Returns whether circles
/// were inserted.
///
/// # Errors
///
/// `TooLong` where the text would have more glyphs than the buffer may hold, or lack of memory.
pub fn reorder_use(face: &Face, buffer: &mut hb_buffer_t) -> Result<bool, ShapeCause>
    requires glyphs { HoldsGlyphs buffer.old }
    ensures stage { DoesGlyphStage (universal_order face.now (text_settings buffer.old).flags) result buffer.old
        buffer.new }
    ensures longer { IfOk result (λ inserted. inserted ≡ nat_lt (length (items_of buffer.old)) (length (items_of buffer.new))) }
    ensures brings_none { result ≡ Ok false → BringsNoGlyph (items_of buffer.old) (items_of buffer.new) }
{
    let inserted = insert_dotted_circles(face, buffer, BROKEN_CLUSTER, B, Some(R), None)?;
    reorder::reorder_use(buffer)?;
    Ok(inserted)
}
