//! Where a text may be broken: what is unsafe to break stays so, events on one side of a cut change that side alone, and
//! stages do to a text what they do to its two fragments. All are laws of our own, which rustybuzz has not.

pub mod fragment_laws;
pub mod laws;
pub mod order_laws;
pub mod side_laws;
pub mod sort_laws;
