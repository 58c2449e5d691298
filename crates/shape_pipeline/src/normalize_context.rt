//! Normalizing a text by a plan, hb_ot_shape_normalize_context_t (rustybuzz: hb/ot_shape_normalize.rs).
ghost use Rattle.std.specs.Prelude.{◌≡◌};
ghost use Rattle.buffer_stages.specs.Ready.{IsReady};
ghost use Rattle.buffer_stages.specs.Settings.{text_settings};
ghost use Rattle.buffer_stages.specs.Stages.{DoesStage};
ghost use Rattle.shape_normalize.specs.Rounds.{normalization};
ghost use Rattle.shape_pipeline.specs.Characters.{normalizer};
ghost use Rattle.shape_pipeline.specs.Shaped.{by_plan};

use crate::shape_stages::ShapeStages;
use buffer_common::language_tags::LanguageTags;
use buffer_core::buffer::hb_buffer_t;
use buffer_glyphs::cause::ShapeCause;
use layout_face::Face;
use script_categories::SyllableSpans;
use script_plan::data::hb_shape_data_t;
use script_plan::hb_ot_shaper_t;
use script_plan::plan::hb_ot_shape_plan_t;
use std::alloc::Global;

/// The parameters of normalizing one text, and the buffer that has it.
#[derive(Drop)]
pub struct hb_ot_shape_normalize_context_t<
    'a,
    S: hb_ot_shaper_t,
    P: SyllableSpans,
    L: LanguageTags,
> {
    pub plan: &'a hb_ot_shape_plan_t<S>,
    pub buffer: &'a mut hb_buffer_t,
    pub face: &'a Face,
    pub shape_data: hb_shape_data_t<'a, P, L>,
}

/// Normalizes a text as the font and the plan's shaper require: characters are split, runs of marks sorted, and characters
/// composed; each character's glyph is chosen. The text is in its script's direction, and the characters' properties are
/// set.
///
/// # Errors
///
/// `TooLong` where the text would have more characters than the buffer may hold, or lack of memory.
pub fn _hb_ot_shape_normalize<S: hb_ot_shaper_t, P: SyllableSpans, L: LanguageTags>(
    alloc: Global,
    plan: &hb_ot_shape_plan_t<S>,
    buffer: &mut hb_buffer_t,
    face: &Face,
    shape_data: hb_shape_data_t<'_, P, L>,
) -> Result<(), ShapeCause>
    requires { IsReady buffer.old }
    ensures { DoesStage (normalization (normalizer (by_plan (S.traits plan.now.shaper)
        (S.rules plan.now.shaper plan.now.script_plan) plan.now face.now shape_data.entry.tables.now
        (P.span_of shape_data.entry.spans.now) (text_settings buffer.old)))) result buffer.old buffer.new }
{
    let stages = ShapeStages {
        plan,
        face,
        tables: shape_data.tables,
        spans: shape_data.spans,
        alloc,
    };
    stages.normalize(buffer)
}

impl<S: hb_ot_shaper_t, P: SyllableSpans, L: LanguageTags> hb_ot_shape_normalize_context_t<
    '_,
    S,
    P,
    L,
> {
    /// Normalizes the text of the context's buffer (`_hb_ot_shape_normalize`). The context's other fields stay.
    ///
    /// # Errors
    ///
    /// `TooLong` where the text would have more characters than the buffer may hold, or lack of memory.
    pub fn normalize(&mut self, alloc: Global) -> Result<(), ShapeCause>
        requires { IsReady self.old.buffer.now }
        ensures same_reference { self.new.buffer.ghost_name ≡ self.old.buffer.ghost_name }
        ensures rest { self.new ≡ record self.old { buffer = self.new.buffer } }
        ensures stage { DoesStage (normalization (normalizer (by_plan (S.traits self.old.plan.now.shaper)
            (S.rules self.old.plan.now.shaper self.old.plan.now.script_plan) self.old.plan.now self.old.face.now
            self.old.shape_data.tables.now (P.span_of self.old.shape_data.spans.now)
            (text_settings self.old.buffer.now)))) result self.old.buffer.now self.new.buffer.now }
    {
        let buffer = &mut *self.buffer;
        _hb_ot_shape_normalize(alloc, self.plan, buffer, self.face, self.shape_data)
    }
}
