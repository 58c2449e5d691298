//! The fallbacks of a font without rules, by a plan (rustybuzz: hb/ot_shape_fallback.rs).
ghost use Rattle.std.specs.Prelude.{◌≡◌};
ghost use Rattle.buffer_core.specs.Readings.{always};
ghost use Rattle.buffer_stages.specs.Ready.{IsDone, IsReady, HoldsGlyphs};
ghost use Rattle.buffer_stages.specs.Stages.{IsFollowed};
ghost use Rattle.shape_fallback.specs.Classes.{with_fallback_classes};
ghost use Rattle.shape_fallback.specs.Marks.{components_direction, with_positioned_marks};
ghost use Rattle.shape_fallback.specs.Spaces.{with_spaces};

use buffer_core::buffer::hb_buffer_t;
use layout_face::Face;
use script_plan::hb_ot_shaper_t;
use script_plan::plan::hb_ot_shape_plan_t;
use shape_fallback::{classes, kerning, marks, spaces};

/// Sets the combining class of each nonspacing mark to the one by which it is positioned, for a font without mark
/// positioning. The glyph records hold characters. It takes linear time and no memory.
pub fn _hb_ot_shape_fallback_mark_position_recategorize_marks<S: hb_ot_shaper_t>(
    _plan: &hb_ot_shape_plan_t<S>,
    _face: &Face,
    buffer: &mut hb_buffer_t,
)
    requires { IsReady buffer.old }
    ensures { IsFollowed (always with_fallback_classes) buffer.old buffer.new }
{
    classes::_hb_ot_shape_fallback_mark_position_recategorize_marks(buffer);
}

/// Positions each mark around the base before it, by its combining class and the plan's direction and script; base and
/// marks are flagged as unsafe to break. With `adjust_offsets_when_zeroing`, a mark at a base without extents is
/// shifted back by the advance that it loses. It takes linear time and no memory.
pub fn position_marks<S: hb_ot_shaper_t>(
    plan: &hb_ot_shape_plan_t<S>,
    face: &Face,
    buffer: &mut hb_buffer_t,
    adjust_offsets_when_zeroing: bool,
)
    requires glyphs { HoldsGlyphs buffer.old }
    ensures { IsDone (always (with_positioned_marks face.now
        (components_direction plan.now.script_plan.direction plan.now.script_plan.script)
        adjust_offsets_when_zeroing)) buffer.old buffer.new }
{
    let plan = &plan.script_plan;
    let components = marks::components_direction(plan.direction, plan.script);
    marks::position_marks(face, components, adjust_offsets_when_zeroing, buffer);
}

/// No-op, as in rustybuzz: fallback kerning is a stub.
pub fn _hb_ot_shape_fallback_kern<S: hb_ot_shaper_t>(
    _plan: &hb_ot_shape_plan_t<S>,
    _face: &Face,
    buffer: &mut hb_buffer_t,
)
    ensures { buffer.new ≡ buffer.old }
{
    kerning::_hb_ot_shape_fallback_kern(buffer);
}

/// Sets the advance of each space of a fixed width, in font units along the line, for which the font has no glyph of
/// its own. It takes linear time and no memory.
pub fn _hb_ot_shape_fallback_spaces<S: hb_ot_shaper_t>(
    _plan: &hb_ot_shape_plan_t<S>,
    face: &Face,
    buffer: &mut hb_buffer_t,
)
    requires { IsReady buffer.old }
    ensures { IsDone (always (with_spaces face.now)) buffer.old buffer.new }
{
    spaces::_hb_ot_shape_fallback_spaces(face, buffer);
}
