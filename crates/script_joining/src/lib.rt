//! Arabic joining: the letters' forms between their neighbours, for Arabic and for the scripts of the universal shaper
//! that join (rustybuzz: hb/ot_shaper_arabic.rs).
#![tactic(auto)]

mod flags;
mod forms;
pub mod laws;
mod letters;
mod masks;
mod types;
mod walking;

pub use forms::letter_form;
pub use masks::setup_masks_inner;
pub use types::joining_type;
