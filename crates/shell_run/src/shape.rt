//! Shapes the texts of a run: they have one language and one list of features, and a plan is kept from text to text.
ghost use Rattle.std.specs.Prelude.{◌≡◌, ◌≢◌, ◌↔◌, IfOk, IfErr, IsTrue};
ghost use Rattle.buffer_core.specs.Segment.{after_guess_segment_properties};
ghost use Rattle.buffer_core.specs.Settings.{with_language};
ghost use Rattle.buffer_core.specs.Sides.{state_of};
ghost use Rattle.shape_pipeline.specs.Results.{IsShapedBy};
ghost use Rattle.shape_pipeline.specs.Shaped.{text_reading};
ghost use Rattle.shell_run.specs.Answer.{IsUnshaped, shaping};
ghost use Rattle.shell_run.specs.Plans.{HasRunPlan, IsRunPlan, IsTextPlan, Serves};
ghost use Rattle.shell_run.specs.Lines.{IsOfText};
ghost use Rattle.shell_readers.specs.Tables.{tables_value};

use buffer_common::script::Script;
use buffer_wrappers::glyphs::GlyphBuffer;
use buffer_wrappers::unicode_buffer::UnicodeBuffer;
use shape_pipeline::{ShapePlan, hb_shape_data_t, shape_with_plan};
use shell_readers::fault::RunFault;
use shell_readers::input::RunInput;
use shell_readers::options::Options;
use std::alloc::{AllocError, Global};

/// The plan for texts like one.
fn new_plan(
    alloc: Global,
    options: &Options,
    input: &RunInput,
    text: &UnicodeBuffer,
) -> Result<ShapePlan, AllocError>
    ensures of_run { IfOk result (IsRunPlan options.now input.now) }
    ensures for_text { IfOk result (IsTextPlan options.now input.now text.now) }
{
    let data = hb_shape_data_t {
        tables: &input.tables.characters,
        spans: &input.tables.syllables,
        languages: &input.tables.languages,
    };
    let plan = ShapePlan::new(
        alloc,
        &input.face,
        data,
        text.guessed_direction(),
        text.guessed_script(),
        options.language.as_ref(),
        options.features.as_slice(),
    )?;
    Ok(plan)
}

/// Whether a plan was made for texts like one.
fn serves(plan: &ShapePlan, text: &UnicodeBuffer) -> bool
    ensures { IsTrue result ↔ Serves plan.now text.now }
{
    text.guessed_direction() == plan.script_plan.direction
        && is_script(text.guessed_script(), plan.script_plan.script)
}

fn is_script(script: Option<Script>, wanted: Option<Script>) -> bool
    ensures { IsTrue result ↔ script ≡ wanted }
{
    script == wanted
}

/// The kept plan where it serves a text, else a new one.
#[tactic(auto, using(crate::proofs::PlanLemmas::plan_serves))]
fn plan_for(
    alloc: Global,
    options: &Options,
    input: &RunInput,
    kept: Option<ShapePlan>,
    text: &UnicodeBuffer,
) -> Result<ShapePlan, AllocError>
    requires { HasRunPlan options.now input.now kept }
    ensures of_run { IfOk result (IsRunPlan options.now input.now) }
    ensures for_text { IfOk result (IsTextPlan options.now input.now text.now) }
{
    if let Some(plan) = kept {
        if serves(&plan, text) {
            return Ok(plan);
        }
    }
    new_plan(alloc, options, input, text)
}

/// Shapes a text by a plan for it. The text has the settings of the options but the language, which the plan has.
fn shape_planned(
    alloc: Global,
    options: &Options,
    input: &RunInput,
    plan: &ShapePlan,
    text: UnicodeBuffer,
) -> Result<GlyphBuffer, RunFault>
    requires { IsTextPlan options.now input.now text plan.now }
    ensures ok { IfOk result (IsShapedBy (shaping (tables_value input.now.tables) input.now.face options.now.features.items (with_language options.now.language (after_guess_segment_properties text)))
        (after_guess_segment_properties text)) }
    ensures refused { IfErr result (λ e. e ≢ RunFault.OutOfMemory → IsUnshaped
        (text_reading (shaping (tables_value input.now.tables) input.now.face options.now.features.items (with_language options.now.language (after_guess_segment_properties text))) (state_of (after_guess_segment_properties text)))
        e) }
    ensures kind { IfErr result (λ e. e ≢ RunFault.OutOfMemory → IsOfText e) }
{
    let data = hb_shape_data_t {
        tables: &input.tables.characters,
        spans: &input.tables.syllables,
        languages: &input.tables.languages,
    };
    match shape_with_plan(alloc, &input.face, data, plan, text) {
        Ok(glyphs) => Ok(glyphs),
        Err(fault) => Err(RunFault::from(fault.cause)),
    }
}

/// Shapes a text of a run by the plan that is kept where that serves it, else by a new one, which is then kept.
pub(crate) fn shape(
    alloc: Global,
    options: &Options,
    input: &RunInput,
    kept: &mut Option<ShapePlan>,
    text: UnicodeBuffer,
) -> Result<GlyphBuffer, RunFault>
    requires { HasRunPlan options.now input.now kept.old }
    ensures kept { HasRunPlan options.now input.now kept.new }
    ensures ok { IfOk result (IsShapedBy (shaping (tables_value input.now.tables) input.now.face options.now.features.items (with_language options.now.language (after_guess_segment_properties text)))
        (after_guess_segment_properties text)) }
    ensures refused { IfErr result (λ e. e ≢ RunFault.OutOfMemory → IsUnshaped
        (text_reading (shaping (tables_value input.now.tables) input.now.face options.now.features.items (with_language options.now.language (after_guess_segment_properties text))) (state_of (after_guess_segment_properties text)))
        e) }
    ensures kind { IfErr result (λ e. e ≢ RunFault.OutOfMemory → IsOfText e) }
{
    let plan = plan_for(alloc, options, input, kept.take(), &text)?;
    let shaped = shape_planned(alloc, options, input, &plan, text);
    *kept = Some(plan);
    shaped
}
