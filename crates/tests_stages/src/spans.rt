//! Spans that tests give.

use script_categories::{SyllableSpans, hb_ot_script_shaper_t};

/// Each glyph is a syllable of one kind.
#[derive(Clone, Copy)]
pub struct SingleGlyphs {
    pub kind: u8,
}

impl SyllableSpans for SingleGlyphs {
    ghost use Rattle.std.specs.Prelude.{◌+◌};
    ghost use Rattle.tests_stages.specs.Single.{single_after, single_inside};

    ghost span_of = { λ s shaper categories start. (start + 1, s.kind) };

    fn next(
        &self,
        _shaper: hb_ot_script_shaper_t,
        _categories: &[u8],
        start: usize,
    ) -> (usize, u8) {
        (start + 1, self.kind)
    }

    ghost ends_after_start = { single_after };

    ghost ends_inside = { single_inside };
}
