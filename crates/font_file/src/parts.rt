//! What of a font is read.
ghost use Rattle.std.specs.Prelude.{◌≡◌};
ghost use Rattle.font_file.specs.Parts.{all_parts};

/// Which parts of a font are read beside what every text needs. They cost the most, and are asked for the least.
#[derive(Clone, Copy, PartialEq, Eq, Debug)]
pub struct FontParts {
    /// The boxes of glyphs, and with them vertical origins that follow from boxes. Without them a font has no box for any
    /// glyph: a text whose marks are placed by boxes is shaped as in such a font.
    pub extents: bool,
    /// The names of glyphs.
    pub names: bool,
}

impl FontParts {
    /// All parts.
    pub fn all() -> FontParts
        ensures { result ≡ all_parts }
    {
        FontParts {
            extents: true,
            names: true,
        }
    }
}
