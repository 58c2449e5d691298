//! The feature requests of every text and of the user, the plan that is compiled from them and a shaper's, and the traits
//! of a shaper's own work.
#![tactic(auto)]

pub mod common;
pub mod data;
mod fits;
pub mod normal_mode;
pub mod plan;
pub mod planned;
pub mod planner;
pub mod shaper;
pub mod user;

pub use shaper::hb_ot_shaper_t;
