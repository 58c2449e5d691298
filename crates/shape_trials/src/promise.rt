//! What the contracts of `shape` promise of an answer.

/// A promise that an answer can break.
#[derive(Clone, Copy)]
pub(crate) enum Promise {
    /// Glyph numbers are the font's.
    Numbers,
    /// Clusters are the text's.
    Clusters,
    /// A cluster has one set of flags.
    Flags,
    /// Slices join to the whole text.
    Slices,
    /// All cluster levels have the same glyphs.
    Levels,
    /// A plan gives what no plan gives.
    Plan,
    /// Requests for flags change flags alone.
    Requests,
    /// The same call gives the same answer.
    Again,
    /// Pieces of a text that is cut at safe breaks have the glyphs of the whole.
    Breaks,
}

impl Promise {
    /// The name that is printed.
    pub(crate) fn name(self) -> &'static str {
        match self {
            Promise::Numbers => "numbers",
            Promise::Clusters => "clusters",
            Promise::Flags => "flags",
            Promise::Slices => "slices",
            Promise::Levels => "levels",
            Promise::Plan => "plan",
            Promise::Requests => "requests",
            Promise::Again => "again",
            Promise::Breaks => "breaks",
        }
    }
}
