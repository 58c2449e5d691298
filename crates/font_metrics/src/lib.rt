//! Metrics of a font's glyphs from the tables head, maxp, hhea, hmtx, vhea, vmtx, OS/2, VORG, loca and glyf (OpenType,
//! chapter 5).
#![tactic(auto)]

pub mod advances;
pub mod boxes;
pub mod extents;
pub mod header;
pub mod line;
pub mod origins;
pub mod values;

pub use advances::{advance_rows, height_rows, long_metrics};
pub use boxes::{GlyphBox, glyf_boxes};
pub use extents::extent_rows;
pub use header::{glyph_count, has_long_offsets, units_per_em};
pub use line::{LineMetrics, line_metrics};
pub use origins::{box_origins, vorg_origins};
