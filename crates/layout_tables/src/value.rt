//! Value records and anchors (OpenType, GPOS).
/// The values that are added to a glyph's position, in font units (`ValueRecord`). A field that a font leaves out is 0.
#[derive(Clone, Copy, Debug, Drop)]
pub struct ValueRecord {
    pub x_placement: i16,
    pub y_placement: i16,
    pub x_advance: i16,
    pub y_advance: i16,
}

/// A point by which a glyph is attached, in font units (`Anchor`).
#[derive(Clone, Copy, Debug, Drop)]
pub struct Anchor {
    pub x: i16,
    pub y: i16,
}
