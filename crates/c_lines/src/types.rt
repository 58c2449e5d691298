//! The structs that C reads of lines and carets.

/// A line of a text: the index of its first unit of the text and that after its last one; its width, in font units; and the
/// index of its first glyph and that after its last one where they are the text's own, else 0.
#[repr(C)]
#[derive(Clone, Copy)]
pub struct kus_line_t {
    pub start: usize,
    pub end: usize,
    pub width: i64,
    pub first_glyph: usize,
    pub end_glyph: usize,
    /// Whether the glyphs are those that shaping the line alone gives; else the line has to be shaped again.
    pub is_own: bool,
}

/// A caret: the index of the unit of the text before which it stands, and its position along the line, in font units.
#[repr(C)]
#[derive(Clone, Copy)]
pub struct kus_caret_t {
    pub index: usize,
    pub position: i64,
}
