//! The bits of a lookup flag (OpenType, chapter 2, `lookupFlag`).

/// The last glyph of a cursive chain is on the baseline.
pub const RIGHT_TO_LEFT: u16 = 1;

/// Base glyphs are skipped.
pub const IGNORE_BASE_GLYPHS: u16 = 2;

/// Ligatures are skipped.
pub const IGNORE_LIGATURES: u16 = 4;

/// Glyphs of class MARK are skipped.
pub const IGNORE_MARKS: u16 = 8;
/// Base glyphs, ligatures and marks are skipped.
pub const IGNORE_FLAGS: u16 = 14;
/// Marks outside the lookup's mark filtering set are skipped.
pub const USE_MARK_FILTERING_SET: u16 = 16;
/// Marks of another attachment class are skipped, unless the class is 0.
pub const MARK_ATTACHMENT_TYPE_MASK: u16 = 0xFF00;
