//! The forms that a font has by the features of a map (rustybuzz: hb/ot_shaper_indic.rs, `IndicShapePlan`).
ghost use Rattle.std.specs.Prelude.{◌≡◌, ◌∷◌, [], codes, List, ℕ};
ghost use Rattle.buffer_common.specs.Tag.{tag_of};
ghost use Rattle.script_indic.specs.FontForms.{font_forms, is_formed};
ghost use Rattle.script_indic.specs.WouldSubstitute.{substitute_feature};

use crate::would_substitute::IndicWouldSubstituteFeature;
use buffer_common::tag::Tag;
use layout_face::Face;
use layout_map::map::hb_ot_map_t;
use script_indic_reordering::forms::IndicForms;

/// The forms of a font by the features of a map.
#[derive(Clone, Copy)]
pub struct FontForms<'a> {
    map: &'a hb_ot_map_t,
    face: &'a Face,
    rphf: IndicWouldSubstituteFeature,
    pref: IndicWouldSubstituteFeature,
    blwf: IndicWouldSubstituteFeature,
    pstf: IndicWouldSubstituteFeature,
    vatu: IndicWouldSubstituteFeature,
}

impl<'a> FontForms<'a> {
    /// The forms of a font by a map's features; `zero_context` says that rules don't count that require glyphs before or
    /// after their input.
    pub fn new(map: &'a hb_ot_map_t, face: &'a Face, zero_context: bool) -> FontForms<'a>
        ensures map { result.map.now ≡ map.now }
        ensures face { result.face.now ≡ face.now }
        ensures rphf { result.rphf ≡ substitute_feature (tag_of (codes "rphf")) zero_context map.now }
        ensures pref { result.pref ≡ substitute_feature (tag_of (codes "pref")) zero_context map.now }
        ensures blwf { result.blwf ≡ substitute_feature (tag_of (codes "blwf")) zero_context map.now }
        ensures pstf { result.pstf ≡ substitute_feature (tag_of (codes "pstf")) zero_context map.now }
        ensures vatu { result.vatu ≡ substitute_feature (tag_of (codes "vatu")) zero_context map.now }
    {
        let feature = |tag| IndicWouldSubstituteFeature::new(map, tag, zero_context);
        FontForms {
            map,
            face,
            rphf: feature(Tag::from_bytes(b"rphf")),
            pref: feature(Tag::from_bytes(b"pref")),
            blwf: feature(Tag::from_bytes(b"blwf")),
            pstf: feature(Tag::from_bytes(b"pstf")),
            vatu: feature(Tag::from_bytes(b"vatu")),
        }
    }

    /// Whether a feature would form two glyphs.
    #[tactic(auto, using(crate::proofs::Missing::forms_nothing))]
    fn forms_two(&self, feature: &IndicWouldSubstituteFeature, first: u32, second: u32) -> bool
        ensures { result ≡ is_formed feature.now self.now.map.now self.now.face.now (first ∷ second ∷ []) }
    {
        if feature.is_missing() {
            return false;
        }
        let (Ok(first), Ok(second)) = (u16::try_from(first), u16::try_from(second)) else {
            return false;
        };
        feature.would_substitute(self.map, self.face, &[first, second])
    }

    /// Whether a feature would form three glyphs.
    fn forms_three(
        &self,
        feature: &IndicWouldSubstituteFeature,
        first: u32,
        second: u32,
        third: u32,
    ) -> bool
        ensures { result ≡ is_formed feature.now self.now.map.now self.now.face.now (first ∷ second ∷ third ∷ []) }
    {
        let (Ok(first), Ok(second), Ok(third)) = (
            u16::try_from(first),
            u16::try_from(second),
            u16::try_from(third),
        ) else {
            return false;
        };
        feature.would_substitute(self.map, self.face, &[first, second, third])
    }
}

impl IndicForms for FontForms<'_> {
    ghost use Rattle.script_indic.specs.FontForms.{forms_by};

    ghost forms_of = { λ f. forms_by f.rphf f.pref f.blwf f.pstf f.vatu f.map.now f.face.now };

    fn forms_reph(&self, ra: u32, halant: u32) -> bool {
        self.forms_two(&self.rphf, ra, halant)
    }

    fn forms_reph_with_joiner(&self, ra: u32, halant: u32, joiner: u32) -> bool {
        self.forms_three(&self.rphf, ra, halant, joiner)
    }

    fn forms_pref(&self, halant: u32, consonant: u32) -> bool {
        self.forms_two(&self.pref, halant, consonant)
    }

    fn forms_below(&self, first: u32, second: u32) -> bool {
        self.forms_two(&self.blwf, first, second) || self.forms_two(&self.vatu, first, second)
    }

    fn forms_post(&self, first: u32, second: u32) -> bool {
        self.forms_two(&self.pstf, first, second) || self.forms_two(&self.pref, first, second)
    }
}
