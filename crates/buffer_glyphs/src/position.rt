//! The position of a glyph (rustybuzz: hb/buffer.rs, `GlyphPosition`; hb/ot_layout_gpos_table.rs, `attach_type`).
//!
//! `GlyphPosition` has plain fields and the derives of `hb_glyph_info_t`, and so its form.

/// How a glyph is attached to another one.
pub mod attach_type {
    /// A mark, to its base, its ligature or another mark.
    pub const MARK: u8 = 1;

    /// A glyph of a cursive script, to its neighbour.
    pub const CURSIVE: u8 = 2;
}

/// The offsets and advances of a glyph, in font units, and the glyph that it is attached to.
#[derive(Clone, Copy, PartialEq, Eq, Debug, Default)]
pub struct GlyphPosition {
    pub x_advance: i32,
    pub y_advance: i32,
    pub x_offset: i32,
    pub y_offset: i32,
    /// The difference of indices to that glyph, 0 for none.
    pub attach_chain: i16,
    /// `attach_type::MARK` or `attach_type::CURSIVE`, 0 for none.
    pub attach_type: u8,
}
