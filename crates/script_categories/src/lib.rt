//! The values that the scripts' shapers distinguish (categories, positions, kinds of syllables, features, joining
//! types), and the machines that find where syllables end, by their longest match.
#![tactic(auto)]

pub mod arabic_action_t;
pub mod category;
mod faults;
pub mod indic_feature;
pub mod joining_types;
pub mod khmer_feature;
pub mod laws;
pub mod longest_match;
pub mod machine;
mod names;
mod near;
pub mod ot_category_t;
pub mod ot_position_t;
pub mod pause;
mod row_guesses;
pub mod scan;
pub mod shaper;
pub mod spans;
pub mod syllable_kinds;
pub mod table;
pub mod thai_action;

pub use category::universal_category_number;
pub use joining_types::{hb_arabic_joining_type_t, joining_type_number, joining_type_of_number};
pub use machine::{Accept, Step, SyllableMachine, SyllableMachines};
pub use ot_category_t::indic_category_number;
pub use ot_position_t::indic_position_number;
pub use pause::hb_script_pause_t;
pub use shaper::{hb_ot_script_shaper_t, machine_shaper};
pub use spans::SyllableSpans;
pub use table::SyllableTable;
pub use thai_action::thai_action_number;
