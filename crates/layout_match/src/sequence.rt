//! The sequences of glyphs that a rule requires (rustybuzz: hb/ot_layout_gsubgpos.rs, `match_glyph`, `match_class`,
//! `match_coverage`).
ghost use Rattle.std.specs.Prelude.{◌≡◌, length, map};
ghost use Rattle.buffer_glyphs.specs.Items.{item_of};
ghost use Rattle.layout_match.specs.Sequences.{is_covered_by, is_glyph, is_of_class, test_at, tests_of};

use buffer_glyphs::info::hb_glyph_info_t;
use layout_common::class_definition::ClassDefinition;
use layout_common::coverage::Coverage;

/// The glyphs that a rule requires, one after another (OpenType, chapter 2, sequence context formats 1 to 3).
#[derive(Clone, Copy)]
pub enum MatchSequence<'a> {
    /// Glyphs by their numbers (format 1).
    Glyphs(&'a [u16]),
    /// Glyphs by their classes (format 2).
    Classes(&'a ClassDefinition, &'a [u16]),
    /// Glyphs of some sets (format 3).
    Coverages(&'a [Coverage]),
}

/// Whether a glyph has a number.
pub fn match_glyph(info: &hb_glyph_info_t, glyph: u16) -> bool
    ensures { result ≡ is_glyph glyph (item_of info.now) }
{
    info.glyph_id == u32::from(glyph)
}

/// Whether a glyph is of a class; a number past 65,535 is no glyph's and of no class.
pub fn match_class(info: &hb_glyph_info_t, classes: &ClassDefinition, class: u16) -> bool
    ensures { result ≡ is_of_class classes.now class (item_of info.now) }
{
    info.glyph_id <= 65535 && classes.class_of(info.glyph_id as u16) == class
}

/// Whether a glyph is in a set; a number past 65,535 is in none.
pub fn match_coverage(info: &hb_glyph_info_t, coverage: &Coverage) -> bool
    ensures { result ≡ is_covered_by coverage.now (item_of info.now) }
{
    info.glyph_id <= 65535 && coverage.contains(info.glyph_id as u16)
}

#[tactic(auto, using(crate::proofs::Indexed::test_there, crate::proofs::Indexed::test_past))]
pub(crate) fn fits_glyph(info: &hb_glyph_info_t, glyphs: &[u16], k: usize) -> bool
    ensures { result ≡ test_at (map is_glyph glyphs.now) k (item_of info.now) }
{
    match glyphs.get(k) {
        Some(glyph) => match_glyph(info, *glyph),
        None => false,
    }
}

#[tactic(auto, using(crate::proofs::Indexed::test_there, crate::proofs::Indexed::test_past))]
fn fits_class(info: &hb_glyph_info_t, classes: &ClassDefinition, values: &[u16], k: usize) -> bool
    ensures { result ≡ test_at (map (is_of_class classes.now) values.now) k (item_of info.now) }
{
    match values.get(k) {
        Some(class) => match_class(info, classes, *class),
        None => false,
    }
}

#[tactic(auto, using(crate::proofs::Indexed::test_there, crate::proofs::Indexed::test_past))]
fn fits_coverage(info: &hb_glyph_info_t, sets: &[Coverage], k: usize) -> bool
    ensures { result ≡ test_at (map is_covered_by sets.now) k (item_of info.now) }
{
    match sets.get(k) {
        Some(coverage) => match_coverage(info, coverage),
        None => false,
    }
}

impl<'a> MatchSequence<'a> {
    /// How many glyphs the sequence has.
    pub fn len(&self) -> usize
        ensures { result ≡ length (tests_of self.now) }
    {
        match self {
            MatchSequence::Glyphs(glyphs) => glyphs.len(),
            MatchSequence::Classes(_, values) => values.len(),
            MatchSequence::Coverages(sets) => sets.len(),
        }
    }

    /// Whether a glyph matches the k-th of the sequence; past the last none does.
    pub fn fits(&self, k: usize, info: &hb_glyph_info_t) -> bool
        ensures { result ≡ test_at (tests_of self.now) k (item_of info.now) }
    {
        match self {
            MatchSequence::Glyphs(glyphs) => fits_glyph(info, glyphs, k),
            MatchSequence::Classes(classes, values) => fits_class(info, classes, values, k),
            MatchSequence::Coverages(sets) => fits_coverage(info, sets, k),
        }
    }
}
