//! The shaper of Arabic: its features and masks, its order of marks, and the tiles that words are stretched over
//! (rustybuzz: hb/ot_shaper_arabic.rs). How letters join is in script_joining.
#![tactic(auto)]

pub mod copies;
pub mod copying;
pub mod laws;
pub mod laying;
pub mod mark_order;
pub mod marks;
pub mod masks;
pub mod pauses;
pub mod requests;
pub mod runs;
pub mod stretch;
pub mod tile;
pub mod tile_laws;
pub mod tile_positions;
pub mod tiles;
pub mod words;
