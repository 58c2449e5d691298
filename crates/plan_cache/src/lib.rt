//! A cache of plans: texts of a few directions, scripts, languages and features in turn are shaped by plans that were made
//! once. A text is shaped to what `shape` gives, whatever was shaped before; the least recently used plan is dropped first
//! (HarfBuzz: hb_shape_plan_create_cached). The crate stands on the calls and laws of `shape_pipeline` alone.
#![tactic(auto)]

mod cache;
mod cached;

pub use cache::PlanCache;
pub use cached::CachedPlan;
