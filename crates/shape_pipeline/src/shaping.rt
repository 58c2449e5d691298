//! Shaping of a text, with a plan or without one (rustybuzz: hb/shape.rs, `shape`, `shape_with_plan`).
ghost use Rattle.std.specs.Prelude.{◌≡◌, ◌≢◌, Err, IfErr, IfOk, Ok, OnErr, OnOk, [], length, false};
ghost use Rattle.buffer_core.specs.Segment.{after_guess_segment_properties};
ghost use Rattle.buffer_core.specs.Settings.{after_leave};
ghost use Rattle.buffer_core.specs.Sides.{all_glyphs, empty_buffer, state_of};
ghost use Rattle.buffer_stages.specs.Settings.{text_settings};
ghost use Rattle.buffer_wrappers.specs.Wrappers.{IsText};
ghost use Rattle.shape_text.specs.Properties.{IsUnshaped};
ghost use Rattle.shape_pipeline.specs.Budget.{budget_left};
ghost use Rattle.shape_pipeline.specs.Results.{IsRefusedFor, IsResultOf, IsShapedBy};
ghost use Rattle.shape_pipeline.specs.Shaped.{by_plan, by_text};

use crate::shape_stages::{ShapeStages, Shaped};
use buffer_common::language_tags::LanguageTags;
use buffer_core::buffer::hb_buffer_t;
use buffer_glyphs::cause::ShapeCause;
use buffer_tags::feature::Feature;
use buffer_wrappers::glyphs::GlyphBuffer;
use buffer_wrappers::unicode_buffer::UnicodeBuffer;
use layout_face::Face;
use script_categories::SyllableSpans;
use script_dispatch::hb_ot_any_shaper_t;
use script_plan::data::hb_shape_data_t;
use script_plan::hb_ot_shaper_t;
use script_plan::plan::hb_ot_shape_plan_t;
use std::alloc::Global;

/// Why a text was not shaped, and the buffer, cleared for another text.
#[derive(Drop)]
pub struct ShapeFault {
    pub cause: ShapeCause,
    pub buffer: UnicodeBuffer,
}

fn fault(cause: ShapeCause, mut buffer: hb_buffer_t) -> ShapeFault
    ensures cause { result.cause ≡ cause }
    ensures cleared { result.buffer ≡ empty_buffer }
{
    buffer.clear();
    ShapeFault {
        cause,
        buffer: UnicodeBuffer::from_buffer(buffer),
    }
}

/// A text without characters stays as it is, with the limits as at first.
fn leave_empty(buffer: &mut hb_buffer_t)
    requires { buffer.old.is_open ≡ false }
    ensures left { buffer.new ≡ after_leave buffer.old }
    ensures placed { length buffer.old.positions ≡ length (all_glyphs buffer.old) }
{
    // The result has as many positions as glyphs (`placed`), by the clauses of both calls.
    let is_placed = buffer.pos_slice().len() == buffer.len();
    prove!(is_placed);
    buffer.leave();
}

/// Shapes in its buffer a text whose direction and script are known. A text without characters stays as it is.
fn shape_here<'a, S: hb_ot_shaper_t, P: SyllableSpans>(
    stages: &ShapeStages<'a, S, P>,
    buffer: &mut hb_buffer_t,
) -> Result<(), ShapeCause>
    requires unshaped { IsUnshaped buffer.old }
    ensures ok { OnOk result (IsShapedBy (⟦<ShapeStages<'a, S, P> as Shaped>⟧.shaping stages.now buffer.old)
        buffer.old buffer.new) }
    ensures refused { IfErr result (IsRefusedFor (⟦<ShapeStages<'a, S, P> as Shaped>⟧.shaping stages.now buffer.old)
        buffer.old) }
    ensures cleared { OnErr result (buffer.new ≡ empty_buffer) }
    ensures empty { all_glyphs buffer.old ≡ [] → (result ≡ Ok tt) × (buffer.new ≡ after_leave buffer.old) }
    ensures handed_on { OnOk result (IsResultOf buffer.old buffer.new) }
    ensures direction { stages.now.plan.now.script_plan.direction ≡ buffer.old.direction
        → OnOk result (buffer.new.direction ≡ buffer.old.direction) }
    ensures closed { buffer.new.is_open ≡ false }
{
    if buffer.is_empty() {
        leave_empty(buffer);
        return Ok(());
    }
    match stages.shape_internal(buffer) {
        Ok(()) => Ok(()),
        Err(cause) => {
            buffer.clear();
            Err(cause)
        }
    }
}

/// Shapes a text whose direction and script are known. A text without characters stays as it is.
fn shape_guessed<'a, S: hb_ot_shaper_t, P: SyllableSpans>(
    stages: &ShapeStages<'a, S, P>,
    mut buffer: hb_buffer_t,
) -> Result<GlyphBuffer, ShapeFault>
    requires unshaped { IsUnshaped buffer }
    ensures ok { IfOk result (IsShapedBy (⟦<ShapeStages<'a, S, P> as Shaped>⟧.shaping stages.now buffer)
        buffer) }
    ensures refused { IfErr result (λ e. IsRefusedFor
        (⟦<ShapeStages<'a, S, P> as Shaped>⟧.shaping stages.now buffer) buffer e.cause) }
    ensures cleared { IfErr result (λ e. e.buffer ≡ empty_buffer) }
    ensures empty { all_glyphs buffer ≡ [] → result ≡ Ok (after_leave buffer) }
    ensures handed_on { IfOk result (λ glyphs. IsResultOf buffer glyphs) }
    ensures direction { stages.now.plan.now.script_plan.direction ≡ buffer.direction
        → IfOk result (λ glyphs. glyphs.direction ≡ buffer.direction) }
{
    match shape_here(stages, &mut buffer) {
        Ok(()) => Ok(GlyphBuffer::from_buffer(buffer)),
        Err(cause) => Err(ShapeFault {
            cause,
            buffer: UnicodeBuffer::from_buffer(buffer),
        }),
    }
}

/// Shapes in its buffer a text whose direction and script are known, by a plan for this font, for this direction and script
/// (HarfBuzz: `hb_shape_plan_execute`). The glyphs are those of `shape_with_plan`; where it refuses, the buffer is cleared.
pub fn shape_buffer<S: hb_ot_shaper_t, P: SyllableSpans, L: LanguageTags>(
    alloc: Global,
    face: &Face,
    shape_data: hb_shape_data_t<'_, P, L>,
    plan: &hb_ot_shape_plan_t<S>,
    buffer: &mut hb_buffer_t,
) -> Result<(), ShapeCause>
    requires text { IsText buffer.old }
    ensures ok { OnOk result (IsShapedBy
        (by_plan (S.traits plan.now.shaper) (S.rules plan.now.shaper plan.now.script_plan) plan.now face.now
        shape_data.entry.tables.now (P.span_of shape_data.entry.spans.now) (text_settings buffer.old)) buffer.old
        buffer.new) }
    ensures refused { IfErr result (IsRefusedFor
        (by_plan (S.traits plan.now.shaper) (S.rules plan.now.shaper plan.now.script_plan) plan.now face.now
        shape_data.entry.tables.now (P.span_of shape_data.entry.spans.now) (text_settings buffer.old)) buffer.old) }
    ensures cleared { OnErr result (buffer.new ≡ empty_buffer) }
    ensures empty { all_glyphs buffer.old ≡ [] → (result ≡ Ok tt) × (buffer.new ≡ after_leave buffer.old) }
    ensures handed_on { OnOk result (IsResultOf buffer.old buffer.new) }
    ensures direction { plan.now.script_plan.direction ≡ buffer.old.direction
        → OnOk result (buffer.new.direction ≡ buffer.old.direction) }
    ensures closed { buffer.new.is_open ≡ false }
{
    let stages = ShapeStages {
        plan,
        face,
        tables: shape_data.tables,
        spans: shape_data.spans,
        alloc,
    };
    shape_here(&stages, buffer)
}

/// Shapes a text by a plan for this font, for the text's direction and script, which are guessed where they are not set. The
/// glyphs, where they stand, and the clusters and flags that they come from are those of the text's reading. What was set for
/// the text stays, and each glyph has a number that a glyph can have. It refuses by the reading's own cause, or for want of
/// memory, and then hands back the buffer, cleared. A text without characters is not refused.
pub fn shape_with_plan<S: hb_ot_shaper_t, P: SyllableSpans, L: LanguageTags>(
    alloc: Global,
    face: &Face,
    shape_data: hb_shape_data_t<'_, P, L>,
    plan: &hb_ot_shape_plan_t<S>,
    mut buffer: UnicodeBuffer,
) -> Result<GlyphBuffer, ShapeFault>
    ensures ok { IfOk result (IsShapedBy
        (by_plan (S.traits plan.now.shaper) (S.rules plan.now.shaper plan.now.script_plan) plan.now face.now
        shape_data.entry.tables.now (P.span_of shape_data.entry.spans.now) (text_settings (after_guess_segment_properties buffer)))
        (after_guess_segment_properties buffer)) }
    ensures refused { IfErr result (λ e. IsRefusedFor
        (by_plan (S.traits plan.now.shaper) (S.rules plan.now.shaper plan.now.script_plan) plan.now face.now
        shape_data.entry.tables.now (P.span_of shape_data.entry.spans.now) (text_settings (after_guess_segment_properties buffer)))
        (after_guess_segment_properties buffer) e.cause) }
    ensures cleared { IfErr result (λ e. e.buffer ≡ empty_buffer) }
    ensures empty { all_glyphs buffer ≡ [] → result ≡ Ok (after_leave (after_guess_segment_properties buffer)) }
    ensures handed_on { IfOk result (λ glyphs. IsResultOf (after_guess_segment_properties buffer) glyphs) }
    ensures direction { plan.now.script_plan.direction ≡ (after_guess_segment_properties buffer).direction
        → IfOk result (λ glyphs. glyphs.direction ≡ (after_guess_segment_properties buffer).direction) }
{
    buffer.guess_segment_properties();
    let stages = ShapeStages {
        plan,
        face,
        tables: shape_data.tables,
        spans: shape_data.spans,
        alloc,
    };
    shape_guessed(&stages, buffer.into_buffer())
}

/// Shapes a text in a font, with the features that are asked for: by a plan that serves this text alone. A text without
/// characters takes no memory.
pub fn shape<P: SyllableSpans, L: LanguageTags>(
    alloc: Global,
    face: &Face,
    shape_data: hb_shape_data_t<'_, P, L>,
    features: &[Feature],
    mut buffer: UnicodeBuffer,
) -> Result<GlyphBuffer, ShapeFault>
    ensures ok { IfOk result (IsShapedBy
        (by_text face.now shape_data.entry.tables.now (L.tags_of shape_data.entry.languages.now)
        (P.span_of shape_data.entry.spans.now) features.now (after_guess_segment_properties buffer))
        (after_guess_segment_properties buffer)) }
    ensures refused { IfErr result (λ e. IsRefusedFor
        (by_text face.now shape_data.entry.tables.now (L.tags_of shape_data.entry.languages.now)
        (P.span_of shape_data.entry.spans.now) features.now (after_guess_segment_properties buffer))
        (after_guess_segment_properties buffer) e.cause) }
    ensures cleared { IfErr result (λ e. e.buffer ≡ empty_buffer) }
    ensures empty { all_glyphs buffer ≡ [] → result ≡ Ok (after_leave (after_guess_segment_properties buffer)) }
    ensures handed_on { IfOk result (λ glyphs. IsResultOf (after_guess_segment_properties buffer) glyphs) }
    ensures direction { IfOk result (λ glyphs. glyphs.direction ≡ (after_guess_segment_properties buffer).direction) }
{
    buffer.guess_segment_properties();
    let mut buffer = buffer.into_buffer();
    if buffer.is_empty() {
        leave_empty(&mut buffer);
        return Ok(GlyphBuffer::from_buffer(buffer));
    }
    let plan = match hb_ot_shape_plan_t::<hb_ot_any_shaper_t>::new(
        alloc,
        face,
        shape_data,
        buffer.direction(),
        buffer.script(),
        buffer.language(),
        features,
    ) {
        Ok(plan) => plan,
        Err(_) => return Err(fault(ShapeCause::OutOfMemory, buffer)),
    };
    let stages = ShapeStages {
        plan: &plan,
        face,
        tables: shape_data.tables,
        spans: shape_data.spans,
        alloc,
    };
    match stages.shape_internal(&mut buffer) {
        Ok(()) => Ok(GlyphBuffer::from_buffer(buffer)),
        Err(cause) => Err(fault(cause, buffer)),
    }
}

/// What `shape` leaves of a text's budget of nested lookups before it resets it: more than 0 where the reading had as many as
/// it has with any greater budget. It refuses for the cause for which `shape` does, or for want of memory.
pub fn nested_lookups_left<P: SyllableSpans, L: LanguageTags>(
    alloc: Global,
    face: &Face,
    shape_data: hb_shape_data_t<'_, P, L>,
    features: &[Feature],
    mut buffer: UnicodeBuffer,
) -> Result<i32, ShapeCause>
    ensures ok { IfOk result (λ left. budget_left
        (by_text face.now shape_data.entry.tables.now (L.tags_of shape_data.entry.languages.now)
        (P.span_of shape_data.entry.spans.now) features.now
        (after_guess_segment_properties buffer)) (state_of (after_guess_segment_properties buffer)) ≡ Ok left) }
    ensures refused { IfErr result (λ e. e ≢ ShapeCause.OutOfMemory → budget_left
        (by_text face.now shape_data.entry.tables.now (L.tags_of shape_data.entry.languages.now)
        (P.span_of shape_data.entry.spans.now) features.now
        (after_guess_segment_properties buffer)) (state_of (after_guess_segment_properties buffer)) ≡ Err e) }
{
    buffer.guess_segment_properties();
    let mut buffer = buffer.into_buffer();
    let plan = match hb_ot_shape_plan_t::<hb_ot_any_shaper_t>::new(
        alloc,
        face,
        shape_data,
        buffer.direction(),
        buffer.script(),
        buffer.language(),
        features,
    ) {
        Ok(plan) => plan,
        Err(_) => return Err(ShapeCause::OutOfMemory),
    };
    let stages = ShapeStages {
        plan: &plan,
        face,
        tables: shape_data.tables,
        spans: shape_data.spans,
        alloc,
    };
    stages.budget_left(&mut buffer)
}
