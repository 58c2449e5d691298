//! A tile of a stretched word.

/// A tile as it is laid, in font units.
#[derive(Clone, Copy)]
pub struct Tile {
    /// The number of its copies.
    pub copies: u32,
    /// Its advance in the font.
    pub width: i32,
    /// The overlap of each copy and its neighbour.
    pub overlap: i32,
}
