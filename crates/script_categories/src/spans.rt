//! The trait of what finds where a text's syllables end.
ghost use Rattle.std.specs.Prelude.{◌≡◌, ◌<◌, ◌≤◌, ℕ, List, length};
ghost use Rattle.script_categories.specs.declared.shaper.hb_ot_script_shaper_t.{hb_ot_script_shaper_t};

use crate::hb_ot_script_shaper_t;

/// What finds the syllables of a list of categories, one after another.
pub trait SyllableSpans {
    ghost span_of: { Self → hb_ot_script_shaper_t → List ℕ → ℕ → ℕ × ℕ };

    /// The end and the kind of the syllable that begins at an index. The answer depends on the value and the arguments
    /// only.
    fn next(&self, shaper: hb_ot_script_shaper_t, categories: &[u8], start: usize) -> (usize, u8)
        requires { start < length categories.now }
        ensures span { result ≡ span_of self.now shaper categories.now start }
        ensures nonempty { start < result.0 }
        ensures inside { result.0 ≤ length categories.now };

    ghost ends_after_start: { (spans : Self) (shaper : hb_ot_script_shaper_t) (categories : List ℕ) (start : ℕ)
        → start < length categories → start < (span_of spans shaper categories start).0 };

    ghost ends_inside: { (spans : Self) (shaper : hb_ot_script_shaper_t) (categories : List ℕ) (start : ℕ)
        → start < length categories → (span_of spans shaper categories start).0 ≤ length categories };
}
