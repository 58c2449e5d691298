//! Shaping with a context, hb_ot_shape_context_t and shape_internal (rustybuzz: hb/ot_shape.rs).
ghost use Rattle.std.specs.Prelude.{◌≡◌, ◌≢◌, Err, IfErr, OnOk, false};
ghost use Rattle.buffer_core.specs.Readings.{Follows};
ghost use Rattle.buffer_core.specs.Sides.{state_of};
ghost use Rattle.buffer_stages.specs.Settings.{text_settings};
ghost use Rattle.shape_text.specs.Properties.{IsUnshaped};
ghost use Rattle.shape_pipeline.specs.Reading.{reading};
ghost use Rattle.shape_pipeline.specs.Results.{IsResultOf};
ghost use Rattle.shape_pipeline.specs.Shaped.{by_plan};

use crate::shape_stages::ShapeStages;
use buffer_common::direction::Direction;
use buffer_common::language_tags::LanguageTags;
use buffer_core::buffer::hb_buffer_t;
use buffer_glyphs::cause::ShapeCause;
use layout_face::Face;
use script_categories::SyllableSpans;
use script_plan::data::hb_shape_data_t;
use script_plan::hb_ot_shaper_t;
use script_plan::plan::hb_ot_shape_plan_t;
use std::alloc::Global;

/// The parameters of shaping one text, and the buffer that has it.
#[derive(Drop)]
pub struct hb_ot_shape_context_t<'a, S: hb_ot_shaper_t, P: SyllableSpans, L: LanguageTags> {
    pub plan: &'a hb_ot_shape_plan_t<S>,
    pub face: &'a Face,
    pub shape_data: hb_shape_data_t<'a, P, L>,
    pub buffer: &'a mut hb_buffer_t,
    /// The direction of the text's line: the plan's.
    pub target_direction: Direction,
}

/// Shapes the text of a context's buffer by the plan: all that the stages see of the buffer, and where its glyphs come
/// from, follow the text's reading. Each glyph has a number that a glyph can have; what was set for the text stays, and
/// the direction is the target's. The context's other fields stay, also where it refuses.
///
/// # Errors
///
/// The reading's own cause (`TooLong`, `StretchRange`, `UnknownSyllableKind`), or lack of memory. The buffer can then
/// only be cleared.
pub fn shape_internal<S: hb_ot_shaper_t, P: SyllableSpans, L: LanguageTags>(
    alloc: Global,
    ctx: &mut hb_ot_shape_context_t<'_, S, P, L>,
) -> Result<(), ShapeCause>
    requires unshaped { IsUnshaped ctx.old.buffer.now }
    requires target { ctx.old.plan.now.script_plan.direction ≡ ctx.old.target_direction }
    ensures same_reference { ctx.new.buffer.ghost_name ≡ ctx.old.buffer.ghost_name }
    ensures rest { ctx.new ≡ record ctx.old { buffer = ctx.new.buffer } }
    ensures ok { OnOk result (Follows (reading (by_plan (S.traits ctx.old.plan.now.shaper)
        (S.rules ctx.old.plan.now.shaper ctx.old.plan.now.script_plan) ctx.old.plan.now ctx.old.face.now
        ctx.old.shape_data.tables.now (P.span_of ctx.old.shape_data.spans.now) (text_settings ctx.old.buffer.now))
        (state_of ctx.old.buffer.now)) (state_of ctx.old.buffer.now) (state_of ctx.new.buffer.now)) }
    ensures handed_on { OnOk result (IsResultOf ctx.old.buffer.now ctx.new.buffer.now) }
    ensures direction { OnOk result (ctx.new.buffer.now.direction ≡ ctx.old.target_direction) }
    ensures still_closed { OnOk result (ctx.new.buffer.now.is_open ≡ false) }
    ensures err { IfErr result (λ e. e ≢ ShapeCause.OutOfMemory → reading (by_plan (S.traits ctx.old.plan.now.shaper)
        (S.rules ctx.old.plan.now.shaper ctx.old.plan.now.script_plan) ctx.old.plan.now ctx.old.face.now
        ctx.old.shape_data.tables.now (P.span_of ctx.old.shape_data.spans.now) (text_settings ctx.old.buffer.now))
        (state_of ctx.old.buffer.now) ≡ Err e) }
{
    let stages = ShapeStages {
        plan: ctx.plan,
        face: ctx.face,
        tables: ctx.shape_data.tables,
        spans: ctx.shape_data.spans,
        alloc,
    };
    stages.shape_internal(&mut *ctx.buffer)
}
