//! Which texts a plan is made for.
ghost use Rattle.std.specs.Prelude.{◌≡◌, ◌↔◌, IsTrue};
ghost use Rattle.script_plan.specs.Fits.{Fits, script_or_unknown};

use crate::plan::hb_ot_shape_plan_t;
use crate::planned::PlannedShaper;
use buffer_common::script::{Script, UNKNOWN};
use buffer_wrappers::unicode_buffer::UnicodeBuffer;

impl<S: PlannedShaper> hb_ot_shape_plan_t<S> {
    /// Whether the plan was made for the direction and the script of a text, guessed where they are not set. No script
    /// counts as `UNKNOWN`.
    pub fn fits(&self, buffer: &UnicodeBuffer) -> bool
        ensures { IsTrue result ↔ Fits self.now buffer.now }
    {
        let plan = &self.script_plan;
        buffer.guessed_direction() == plan.direction
            && script_or_unknown(buffer.guessed_script()) == script_or_unknown(plan.script)
    }
}

fn script_or_unknown(script: Option<Script>) -> Script
    ensures { result ≡ script_or_unknown script }
{
    script.unwrap_or(UNKNOWN)
}
