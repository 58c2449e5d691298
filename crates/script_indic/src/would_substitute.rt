//! Whether a feature would form glyphs (rustybuzz: hb/ot_shaper_indic.rs, `IndicWouldSubstituteFeature`).
ghost use Rattle.std.specs.Prelude.{◌≡◌};
ghost use Rattle.std.specs.Option.{is_none};
ghost use Rattle.script_indic.specs.WouldSubstitute.{any_would, font_lookup_would, substitute_feature, would_substitute};

use buffer_common::tag::Tag;
use layout_face::Face;
use layout_face::would_apply::WouldApplyContext;
use layout_face::would_apply::lookup::would_apply;
use layout_map::map::hb_ot_map_t;
use layout_map_features::lookup::lookup_map_t;
use layout_map_features::per_table::TableIndex;

/// A feature that a syllable is tested for before the feature is applied: the GSUB stage of its lookups.
#[derive(Clone, Copy)]
pub struct IndicWouldSubstituteFeature {
    /// The stage of the feature; none where the map lacks the feature.
    stage: Option<usize>,
    /// Whether rules that require glyphs before or after their input don't count.
    zero_context: bool,
}

impl IndicWouldSubstituteFeature {
    /// The feature of a map with a tag.
    pub fn new(map: &hb_ot_map_t, tag: Tag, zero_context: bool) -> IndicWouldSubstituteFeature
        ensures { result ≡ substitute_feature tag zero_context map.now }
    {
        IndicWouldSubstituteFeature {
            stage: map.get_feature_stage(TableIndex::GSUB, tag),
            zero_context,
        }
    }

    /// Whether the map has no such feature, which then forms nothing.
    pub(crate) fn is_missing(&self) -> bool
        ensures { result ≡ is_none self.now.stage }
    {
        match self.stage {
            Some(_) => false,
            None => true,
        }
    }

    /// Whether one of the lookups of the feature's stage would apply where the glyphs are all its input; none would
    /// where the map has no such stage. The map is the one that the feature is of.
    pub fn would_substitute(&self, map: &hb_ot_map_t, face: &Face, glyphs: &[u16]) -> bool
        ensures { result ≡ would_substitute self.now map.now face.now glyphs.now }
    {
        let Some(stage) = self.stage else {
            return false;
        };
        if stage >= map.stages(TableIndex::GSUB).len() {
            return false;
        }
        let ctx = WouldApplyContext {
            glyphs,
            zero_context: self.zero_context,
        };
        any_would_apply(map.stage_lookups(TableIndex::GSUB, stage), face, &ctx)
    }
}

fn any_would_apply(lookups: &[lookup_map_t], face: &Face, ctx: &WouldApplyContext) -> bool
    ensures { result ≡ any_would face.now ctx.now.glyphs.now ctx.now.zero_context lookups.now }
{
    lookups
        .iter()
        .any(|lookup| lookup_would_apply(lookup.index, face, ctx))
}

/// Whether the lookup of a font with an index would apply; none would where the font has no such lookup.
fn lookup_would_apply(index: u16, face: &Face, ctx: &WouldApplyContext) -> bool
    ensures { result ≡ font_lookup_would face.now ctx.now.glyphs.now ctx.now.zero_context index }
{
    let Some(table) = face.gsub() else {
        return false;
    };
    match table.get_lookup(index) {
        Some(lookup) => would_apply(lookup, ctx),
        None => false,
    }
}
