//! The forms that a font would make (rustybuzz: hb/ot_shaper_indic.rs, `would_substitute`).
ghost use Rattle.std.specs.Prelude.{◌≡◌, ◌∷◌, []};
ghost use Rattle.script_indic_reordering.specs.Base.{Forms};

/// The forms that a font would make of glyphs, by their numbers.
pub trait IndicForms {
    ghost forms_of: { Self → Forms };

    /// Whether it would make a reph of Ra and a halant.
    fn forms_reph(&self, ra: u32, halant: u32) -> bool
        ensures { result ≡ (forms_of self.now).reph (ra ∷ halant ∷ []) };

    /// Whether it would make a reph of Ra, a halant and a ZWJ.
    fn forms_reph_with_joiner(&self, ra: u32, halant: u32, joiner: u32) -> bool
        ensures { result ≡ (forms_of self.now).reph (ra ∷ halant ∷ joiner ∷ []) };

    /// Whether it would make a form of a halant and a consonant that moves before the base.
    fn forms_pref(&self, halant: u32, consonant: u32) -> bool
        ensures { result ≡ (forms_of self.now).pref (halant ∷ consonant ∷ []) };

    /// Whether it would make a form below the base of a consonant and a virama, in either order.
    fn forms_below(&self, first: u32, second: u32) -> bool
        ensures { result ≡ (forms_of self.now).below (first ∷ second ∷ []) };

    /// Whether it would make a form after the base of a consonant and a virama, in either order.
    fn forms_post(&self, first: u32, second: u32) -> bool
        ensures { result ≡ (forms_of self.now).post (first ∷ second ∷ []) };
}
