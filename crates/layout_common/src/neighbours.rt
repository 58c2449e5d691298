//! The glyphs beside the one at which a subtable is tried: on each side the nearest that its lookup's flag doesn't skip.

/// A side of the glyph at which a subtable is tried.
#[derive(Clone, Copy)]
pub enum Side {
    /// The glyphs before it, of which a backtrack sequence requires the nearest first.
    Before,
    /// The glyphs after it, which the rest of an input and then a lookahead sequence require.
    After,
}

/// What is known of the nearest glyph on a side that a lookup's flag doesn't skip.
#[derive(Clone, Copy)]
pub enum Neighbour {
    /// Nothing: it may be any glyph, or there is none.
    Unknown,
    /// There is none.
    Missing,
    /// It has this number.
    Glyph(u16),
}
