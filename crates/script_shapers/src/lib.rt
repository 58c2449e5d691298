//! The layer of scripts under one name: its shapers with their hooks and plans, their constants by rustybuzz's files, and
//! the machines that find syllables.
#![tactic(auto)]

pub mod hb;

pub use buffer_glyphs::cause::ShapeCause;
pub use script_categories::{
    Accept, Step, SyllableMachine, SyllableMachines, SyllableSpans, SyllableTable,
    hb_arabic_joining_type_t, hb_ot_script_shaper_t, hb_script_pause_t,
};
pub use script_dispatch::hooks::ScriptHooks;
pub use script_dispatch::plan_data::{IndicFeatures, hb_script_plan_data_t};
pub use script_dispatch::{DEFAULT_SHAPER, DUMBER_SHAPER, hb_ot_any_shaper_t};
pub use script_plan::hb_ot_shaper_t;
pub use script_plan::plan::hb_script_plan_t;
pub use script_plan::planned::PlannedShaper;
