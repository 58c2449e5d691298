//! The shapers of this stack: the choice of one for a text, the rule each has at every hook of the pipeline, and the
//! crate of the script that does it.
#![tactic(auto)]

pub mod any_shaper;
mod dispatch;
pub mod hooks;
pub mod laws;
pub mod plan_data;
pub mod planned;
pub mod shaper;

pub use any_shaper::{DEFAULT_SHAPER, DUMBER_SHAPER, hb_ot_any_shaper_t};
pub use dispatch::hb_ot_shape_complex_categorize;
