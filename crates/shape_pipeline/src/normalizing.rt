//! The normalizer's requests, answered by a shaper, a font and tables.
ghost use Rattle.std.specs.Prelude.{◌≡◌, ◌&&◌, None, if◌then◌else◌};
ghost use Rattle.buffer_core.specs.Settings.{number_set};

use buffer_core::buffer::hb_buffer_t;
use buffer_glyphs::names::GlyphId;
use buffer_properties::NormalizationMode;
use buffer_unicode_tables::UnicodeTables;
use layout_face::Face;
use script_plan::hb_ot_shaper_t;
use script_plan::plan::hb_script_plan_t;
use shape_normalize::normalizing::Normalizing;

/// A shaper with its plan, a font, tables, and the glyphs of characters that the font lacks.
#[derive(Drop)]
pub struct PlanNormalizing<'a, S: hb_ot_shaper_t> {
    pub shaper: &'a S,
    pub plan: &'a hb_script_plan_t<S::PlanData>,
    pub face: &'a Face,
    pub tables: &'a UnicodeTables,
    pub invisible: Option<GlyphId>,
    pub unjoined_glyph: Option<GlyphId>,
    pub not_found: GlyphId,
}

fn glyph_number(glyph: Option<GlyphId>) -> Option<u32>
    ensures { result ≡ number_set glyph }
{
    match glyph {
        Some(glyph) => Some(u32::from(glyph.0)),
        None => None,
    }
}

impl<S: hb_ot_shaper_t> Normalizing for PlanNormalizing<'_, S> {
    ghost use Rattle.std.specs.Prelude.{◌&&◌, None, if◌then◌else◌};
    ghost use lib.Utf8.{scalar};
    ghost use Rattle.layout_face.specs.Glyphs.{nominal_glyph, variation_glyph};
    ghost use Rattle.buffer_core.specs.Settings.{number_set};

    ghost normalizer = { λ n. record {
      tables = n.tables.now;
      mode = (S.traits n.shaper.now).normalization;
      glyph_of = λ u. if scalar u then nominal_glyph u n.face.now else None;
      variant_of = λ u s. if scalar u && scalar s then variation_glyph u s n.face.now else None;
      invisible = number_set n.invisible;
      unjoined_glyph = number_set n.unjoined_glyph;
      not_found = n.not_found.0;
      splits = λ u. if scalar u then (S.rules n.shaper.now n.plan.now).splits n.tables.now u else None;
      composes = λ a b. if scalar a && scalar b then (S.rules n.shaper.now n.plan.now).composes n.tables.now a b else
          None;
      reorders = (S.rules n.shaper.now n.plan.now).reorders;
    } };

    ghost keeps_count = { λ n. S.keeps_count n.shaper.now n.plan.now };

    fn mode(&self) -> NormalizationMode {
        self.shaper.normalization_preference()
    }

    fn tables(&self) -> &UnicodeTables {
        self.tables
    }

    fn glyph(&self, u: u32) -> Option<u32> {
        match char::from_u32(u) {
            Some(u) => self.face.get_nominal_glyph(u).map(u32::from),
            None => None,
        }
    }

    fn variant(&self, u: u32, selector: u32) -> Option<u32> {
        match (char::from_u32(u), char::from_u32(selector)) {
            (Some(u), Some(selector)) => {
                self.face.glyph_variation_index(u, selector).map(u32::from)
            }
            _ => None,
        }
    }

    fn invisible(&self) -> Option<u32> {
        glyph_number(self.invisible)
    }

    fn unjoined_glyph(&self) -> Option<u32> {
        glyph_number(self.unjoined_glyph)
    }

    fn not_found(&self) -> u32 {
        u32::from(self.not_found.0)
    }

    fn decompose(&self, ab: u32) -> Option<(char, char)> {
        match char::from_u32(ab) {
            Some(ab) => self.shaper.decompose(self.plan, self.tables, ab),
            None => None,
        }
    }

    fn compose(&self, a: u32, b: u32) -> Option<char> {
        match (char::from_u32(a), char::from_u32(b)) {
            (Some(a), Some(b)) => self.shaper.compose(self.plan, self.tables, a, b),
            _ => None,
        }
    }

    fn reorder_marks(&self, buffer: &mut hb_buffer_t, start: usize, end: usize) {
        self.shaper.reorder_marks(self.plan, buffer, start, end);
    }
}
