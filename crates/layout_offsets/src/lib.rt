//! Positions that are linked to others: sums in font units modulo 2^32, cursive chains and joins of two glyphs, and
//! the end of positioning, where attached glyphs are drawn from where their links lead (rustybuzz:
//! hb/ot_layout_gpos_table.rs, `position_finish_offsets`, `propagate_attachment_offsets`).
#![tactic(auto)]

pub mod advance_sums;
pub mod cursive_chain;
pub mod cursive_join;
pub mod finish;
pub mod followed_links;
pub mod laws;
pub mod links;
pub mod sums;
pub mod zeroing;
