//! Tests of shaping with and without plans, with a shaper of their own, of the conditions under which canonically
//! equivalent texts shape alike, and of the bytes that glyphs come from; shapers whose rules the laws of `script_plan`
//! refuse.
//!
//! Each module of tests has a line `#[cfg(test)]`, since the gate also proves the crate without its tests: with none of
//! these lines it would prove every function twice.
#![tactic(auto)]

#[cfg(test)]
mod cached_plans;
#[cfg(test)]
mod data;
#[cfg(test)]
mod decomposing;
#[cfg(test)]
mod dispatch;
#[cfg(test)]
mod lines;
#[cfg(test)]
mod normalized;
#[cfg(test)]
mod planner;
#[cfg(test)]
mod plans;
#[cfg(test)]
mod premises;
#[cfg(test)]
mod refilled;
pub mod refused_shapers;
#[cfg(test)]
mod rows;
#[cfg(test)]
mod shaped;
#[cfg(test)]
mod slices;
