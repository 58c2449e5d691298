//! Plans for texts: those that a font keeps, by which texts are shaped, and one that a caller keeps.
ghost use Rattle.std.specs.Prelude.{◌≡◌, ◌≢◌, IfErr, IfOk, OnOk, false};
ghost use Rattle.buffer_core.specs.Segment.{after_guess_segment_properties};
ghost use Rattle.buffer_tags.specs.LanguageTable.{tags_of_table};
ghost use Rattle.buffer_wrappers.specs.Wrappers.{IsText};
ghost use Rattle.c_text.specs.Fonts.{AreShaped, IsUnshaped};
ghost use Rattle.c_text.specs.Plans.{HasPlansOf};
ghost use Rattle.shape_pipeline.specs.Plans.{IsPlanFor};

use crate::input::Input;
use buffer_core::buffer::hb_buffer_t;
use buffer_tags::feature::Feature;
use plan_cache::PlanCache;
use shape_pipeline::ShapePlan;
use shell_readers::fault::RunFault;
use std::alloc::{AllocError, Global};

/// How many plans a font keeps.
pub const KEPT_PLANS: usize = 8;

/// Shapes a text in its buffer by a plan that is kept where one serves it, else by a new one, which is then kept.
#[tactic(auto, using(crate::proofs::Plans::script_handed_on))]
pub fn shape_kept(
    alloc: Global,
    input: &Input,
    plans: &mut PlanCache,
    features: &[Feature],
    buffer: &mut hb_buffer_t,
) -> Result<(), RunFault>
    requires plans { HasPlansOf input.now plans.old }
    requires text { IsText buffer.old }
    ensures plans { HasPlansOf input.now plans.new }
    ensures ok { OnOk result (AreShaped input.now features.now buffer.old buffer.new) }
    ensures refused { IfErr result (λ e. e ≢ RunFault.OutOfMemory → IsUnshaped input.now features.now buffer.old e) }
    ensures direction { OnOk result (buffer.new.direction ≡ (after_guess_segment_properties buffer.old).direction) }
    ensures script { OnOk result (buffer.new.script ≡ (after_guess_segment_properties buffer.old).script) }
    ensures closed { buffer.new.is_open ≡ false }
{
    match plans.shape_buffer(alloc, input.face(), input.data(), features, buffer) {
        Ok(()) => Ok(()),
        Err(cause) => Err(RunFault::from(cause)),
    }
}

/// The plan for a text in its buffer, whose direction, script and language it takes as they are set there.
pub fn plan_for(
    alloc: Global,
    input: &Input,
    features: &[Feature],
    buffer: &hb_buffer_t,
) -> Result<ShapePlan, AllocError>
    ensures { IfOk result
        (IsPlanFor input.now.face (tags_of_table input.now.tables.languages) features.now buffer.now) }
{
    let plan = ShapePlan::new(
        alloc,
        input.face(),
        input.data(),
        buffer.direction(),
        buffer.script(),
        buffer.language(),
        features,
    )?;
    Ok(plan)
}
