//! A lookup of a map (rustybuzz: hb/ot_map.rs, `lookup_map_t`).
ghost use Rattle.std.specs.Prelude.{◌≡◌};
ghost use Rattle.layout_map_features.specs.Lookups.{lookup_with};

/// A lookup of a GSUB or GPOS stage.
#[derive(Clone, Copy)]
pub struct lookup_map_t {
    /// The index of the lookup in the table's list.
    pub index: u16,
    /// The lookup applies to glyphs whose mask has one of these bits.
    pub mask: u32,
    /// ZWNJ is skipped when contexts are matched.
    pub auto_zwnj: bool,
    /// ZWJ is skipped when input is matched.
    pub auto_zwj: bool,
    /// An alternate is drawn at random.
    pub random: bool,
    /// It matches within syllables.
    pub per_syllable: bool,
}

impl lookup_map_t {
    /// The lookup with one more feature that applies it.
    pub fn with(&self, later: &lookup_map_t) -> lookup_map_t
        ensures { result ≡ lookup_with self.now later.now }
    {
        lookup_map_t {
            mask: self.mask | later.mask,
            auto_zwnj: self.auto_zwnj && later.auto_zwnj,
            auto_zwj: self.auto_zwj && later.auto_zwj,
            ..*self
        }
    }
}
